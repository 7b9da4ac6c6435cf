//! A count, hours, and the arcs of two lists: the refusals 3, 4, 12, 13, 5 and 6, and then the order.
ghost use Rattle.std.specs.Prelude.{◌≡◌, ◌++◌};
ghost use Rattle.relation.specs.Arcs.{pairs};
ghost use Rattle.analysis.specs.Outcome.{roomy, arc_outcome};
ghost use Rattle.analysis.specs.Result.{answer_of};

use crate::{ends, order};
use analysis::{Accepted, Refusal, limits};

// A count, and so many arcs. What `analysis::limits::of_lists` tests of one list stands here once more for two: a
// function for both would take the two searches and what comes after them as closures, which is no plainer.
pub fn of_count(n: u16, list: &[u16], last: &[u16], hours: &[u16]) -> Result<Accepted, Refusal>
    ensures { answer_of result ≡ (arc_outcome roomy n hours.now (pairs list.now ++ pairs last.now)).verdict }
{
    limits::counts(n, list.len() / 2 + last.len() / 2)?;
    limits::hours(n, hours)?;
    if let Some(i) = ends::first_outside(list, last, n) {
        return Err(Refusal::Outside(i));
    }
    if let Some(i) = ends::first_loop(list, last) {
        return Err(Refusal::Loop(i));
    }
    order::of_arcs(list, last, usize::from(n), hours)
}
