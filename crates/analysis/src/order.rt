//! An order taken apart, or its refusal.
ghost use Rattle.std.specs.Prelude.{ℕ, ◌<◌, ◌≤◌, ◌^◌, ◌≡◌, length};
ghost use Rattle.poset.specs.Order.{Strict, Within, before, first_n_of};
ghost use Rattle.relation.specs.Table.{holds, Inside};
ghost use Rattle.relation.specs.Arcs.{pairs};
ghost use Rattle.record.specs.Bits.{AllBelow};
ghost use Rattle.record.specs.Layout.{hours_bits};
ghost use Rattle.analysis.specs.Outcome.{decomposed, ordered};
ghost use Rattle.analysis.specs.Result.{Gives, rooms, crossed_by};

use crate::{Accepted, Analysis, Refusal, areas, hours};
use relation::set::JobSet;
use relation::{arcs, order, reduction, search};
use writer::writing;

// The refusal of an order that no tree means: the first N.
pub fn crossed(after: [JobSet; 128], under: &[JobSet; 128], n: usize) -> Refusal
    requires n_bound { n ≤ 128 }
    requires inside { Inside n after }
    requires by_index { (u v : ℕ) → holds under.now u v ≡ holds after v u }
    ensures { result ≡ crossed_by (first_n_of n (holds after)) }
{
    match search::first_n(after, under, n) {
        Some((a, b, c, d)) => Refusal::Crossed(a, b, c, d),
        None => Refusal::Crossed(0, 0, 0, 0),
    }
}

// A strict order: its record and its reduced orders, each written once both are known to fit. n and the hours stay
// apart: the functions of `relation` and `writer` take n alone, so that a type of both would be taken apart at each
// call, and be no plainer.
fn take_apart(
    after: [JobSet; 128],
    n: usize,
    hours: &[u16],
    bytes: &mut [u8],
    area: &mut [u8],
) -> Result<Analysis, Refusal>
    requires n_nonzero { (0 < n) × (n ≤ 128) }
    requires strict { Strict n (holds after) }
    requires inside { Inside n after }
    requires hours_len { (length hours.now ≡ n) × AllBelow (2 ^ hours_bits) hours.now }
    ensures { Gives (decomposed (rooms bytes.old area.old) n hours.now (holds after))
        bytes.old area.old result bytes.new area.new }
{
    let under = order::transposed(after, n);
    let all = hours::padded(hours);
    let Some(written) = writing::write_record(after, &under, n, &all) else {
        return Err(crossed(after, &under, n));
    };
    let reduced = reduction::reduced(after, n);
    let count = reduction::pair_count(&reduced, n);
    if bytes.len() < written.count {
        return Err(Refusal::RecordRoom);
    }
    if area.len() < 2 * count {
        return Err(Refusal::ArcRoom);
    }
    areas::copy(&written.bytes, written.count, bytes);
    reduction::write_pairs(&reduced, n, area);
    Ok(Analysis {
        accepted: Accepted {
            bytes: written.count,
            arcs: count,
            groups: written.groups,
        },
        forward: written.forward,
        reverse: written.reverse,
        hours: all,
    })
}

// The order of arcs that name jobs below n alone.
pub(crate) fn of_arcs(
    list: &[u16],
    n: usize,
    hours: &[u16],
    bytes: &mut [u8],
    area: &mut [u8],
) -> Result<Analysis, Refusal>
    requires n_nonzero { (0 < n) × (n ≤ 128) }
    requires within { Within n (pairs list.now) }
    requires hours_len { (length hours.now ≡ n) × AllBelow (2 ^ hours_bits) hours.now }
    ensures { Gives (ordered (rooms bytes.old area.old) n hours.now (before n (pairs list.now)))
        bytes.old area.old result bytes.new area.new }
{
    let mut joins = 0;
    let after = closure::transitive_closure(arcs::table_of(list), n, &mut joins);
    if let Some(u) = order::first_on_cycle(after, n) {
        return Err(Refusal::Cycle(u));
    }
    take_apart(after, n, hours, bytes, area)
}
