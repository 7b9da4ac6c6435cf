//! The answer on a pair list with one more order at its end, before it is written there.

#![tactic(auto)]

mod ends;
mod limits;
mod order;

ghost use Rattle.std.specs.Prelude.{◌≡◌};
ghost use Rattle.analysis.specs.Result.{answer_of};
ghost use Rattle.preview.specs.Outcome.{previewed};

use analysis::{Accepted, Refusal};

// The answer of the analysis of the list with the order at its end, areas long enough. The list is not copied, and no
// area is written.
pub fn preview_order(
    count: u16,
    list: &[u16],
    hours: &[u16],
    first: u16,
    second: u16,
) -> Result<Accepted, Refusal>
    ensures { answer_of result ≡ previewed count hours.now list.now first second }
{
    if list.len() % 2 != 0 {
        return Err(Refusal::Broken(0));
    }
    let one = [first, second];
    limits::of_count(count, list, &one, hours)
}
