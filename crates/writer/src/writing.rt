//! The record of an order, from its closed table.
ghost use Rattle.std.specs.Prelude.{ℕ, ◌<◌, ◌≤◌, ◌^◌, ◌≡◌};
ghost use Rattle.poset.specs.Order.{Strict};
ghost use Rattle.poset.specs.Decompose.{tree_of};
ghost use Rattle.record.specs.Bits.{AllBelow};
ghost use Rattle.record.specs.Layout.{hours_bits};
ghost use Rattle.relation.specs.Table.{holds, Inside};
ghost use Rattle.writer.specs.Written.{written};

use crate::{pack, tree};
use relation::set::JobSet;

// The bytes of a record, how many there are, the groups, and the two sequences. Fixed memory, no heap.
#[derive(Clone, Copy)]
pub struct Written {
    pub bytes: [u8; record::RECORD_ROOM],
    pub count: usize,
    pub groups: usize,
    pub forward: [u8; 128],
    pub reverse: [u8; 128],
}

// after holds the order of n jobs, under the same turned round; hours has an entry for each job. Where no tree means
// the order there is no record.
pub fn write_record(
    after: [JobSet; 128],
    under: &[JobSet; 128],
    n: usize,
    hours: &[u16; 128],
) -> Option<Written>
    requires n_nonzero { (0 < n) × (n ≤ 128) }
    requires strict { Strict n (holds after) }
    requires inside { Inside n after }
    requires by_index { (u v : ℕ) → holds under.now u v ≡ holds after v u }
    requires all_below { AllBelow (2 ^ hours_bits) hours.now }
    ensures { result ≡ written n hours.now (tree_of n (holds after)) }
{
    let shape = tree::shape_of(after, under, n)?;
    let fields = shape.fields;
    let packed = pack::pack(n, &fields[..shape.count], hours);
    let bytes = packed.bytes;
    let forward = shape.forward;
    let reverse = shape.reverse;
    let written = Written {
        bytes,
        count: packed.count,
        groups: shape.groups,
        forward,
        reverse,
    };
    Some(written)
}
