//! A count, its hours and its arcs: the refusals 3, 4, 12, 13, 5 and 6, and then the order.
ghost use Rattle.std.specs.Prelude.{◌<◌, ◌≤◌, ◌≡◌, length};
ghost use Rattle.relation.specs.Arcs.{pairs};
ghost use Rattle.analysis.specs.Outcome.{timed};
ghost use Rattle.analysis.specs.Result.{Counts, Hours, Gives, rooms};

use crate::{Analysis, Refusal, hours, order};
use relation::arcs;

// 3 and 4: a count, and so many arcs.
pub fn counts(n: u16, count: usize) -> Result<(), Refusal>
    ensures { Counts n count result }
{
    if n == 0 || 128 < n {
        return Err(Refusal::Count);
    }
    if 4096 < count {
        return Err(Refusal::Many);
    }
    Ok(())
}

// 12 and 13: the hours of n jobs.
pub fn hours(n: u16, hours: &[u16]) -> Result<(), Refusal>
    ensures { Hours n hours.now result }
{
    if hours.len() != usize::from(n) {
        return Err(Refusal::HoursLength);
    }
    match hours::first_large(hours) {
        Some(j) => Err(Refusal::HoursLarge(j)),
        None => Ok(()),
    }
}

// A count and arcs that are within their limits, and hours. The areas are two parameters: a struct of both would lend
// two `&mut`, and what is left in each would be said no plainer.
pub(crate) fn of_lists(
    list: &[u16],
    n: u16,
    hours: &[u16],
    bytes: &mut [u8],
    area: &mut [u8],
) -> Result<Analysis, Refusal>
    requires { (0 < n) × (n ≤ 128) }
    ensures { Gives (timed (rooms bytes.old area.old) n hours.now (pairs list.now))
        bytes.old area.old result bytes.new area.new }
{
    self::hours(n, hours)?;
    if let Some(i) = arcs::first_outside(list, n) {
        return Err(Refusal::Outside(i));
    }
    if let Some(i) = arcs::first_loop(list) {
        return Err(Refusal::Loop(i));
    }
    order::of_arcs(list, usize::from(n), hours, bytes, area)
}
