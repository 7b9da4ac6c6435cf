//! The answer on an order. No area is written.
ghost use Rattle.std.specs.Prelude.{◌<◌, ◌≤◌, ◌^◌, ◌≡◌, ◌++◌, length};
ghost use Rattle.poset.specs.Order.{Strict, Within, before};
ghost use Rattle.relation.specs.Arcs.{pairs};
ghost use Rattle.relation.specs.Table.{holds, Inside};
ghost use Rattle.record.specs.Bits.{AllBelow};
ghost use Rattle.record.specs.Layout.{hours_bits};
ghost use Rattle.analysis.specs.Outcome.{roomy, decomposed, ordered};
ghost use Rattle.analysis.specs.Result.{answer_of};

use crate::ends;
use analysis::order::crossed;
use analysis::{Accepted, Refusal, hours};
use relation::set::JobSet;
use relation::{order, reduction};
use writer::writing;

// A strict order: its first N, or how much its record and its reduced orders take. The steps are those of the
// analysis; handed back from a function for both, in a Result, the tables are copied, and small sheets took 1.3 to
// 1.5 times as long.
fn of_order(after: [JobSet; 128], n: usize, hours: &[u16]) -> Result<Accepted, Refusal>
    requires n_nonzero { (0 < n) × (n ≤ 128) }
    requires strict { Strict n (holds after) }
    requires inside { Inside n after }
    requires hours_len { (length hours.now ≡ n) × AllBelow (2 ^ hours_bits) hours.now }
    ensures { answer_of result ≡ (decomposed roomy n hours.now (holds after)).verdict }
{
    let under = order::transposed(after, n);
    let all = hours::padded(hours);
    let Some(written) = writing::write_record(after, &under, n, &all) else {
        return Err(crossed(after, &under, n));
    };
    let reduced = reduction::reduced(after, n);
    let count = reduction::pair_count(&reduced, n);
    Ok(Accepted {
        bytes: written.count,
        arcs: count,
        groups: written.groups,
    })
}

// The order of arcs that name jobs below n alone: its first circle, or the order taken apart.
pub fn of_arcs(list: &[u16], last: &[u16], n: usize, hours: &[u16]) -> Result<Accepted, Refusal>
    requires n_nonzero { (0 < n) × (n ≤ 128) }
    requires within { Within n (pairs list.now ++ pairs last.now) }
    requires hours_len { (length hours.now ≡ n) × AllBelow (2 ^ hours_bits) hours.now }
    ensures { answer_of result ≡ (ordered roomy n hours.now (before n (pairs list.now ++ pairs last.now))).verdict }
{
    let mut joins = 0;
    let after = closure::transitive_closure(ends::table_of(list, last), n, &mut joins);
    if let Some(u) = order::first_on_cycle(after, n) {
        return Err(Refusal::Cycle(u));
    }
    of_order(after, n, hours)
}
