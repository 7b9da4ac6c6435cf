//! The longest run of work of a record.

#![tactic(auto)]

mod showing;
mod stack;

ghost use Rattle.longest.specs.Outcome.{run_outcome, Shows};

use analysis::Refusal;

// The total of hours, how many jobs the run has, and these, earliest first; the entries after them are 0.
// A list with a count: fixed memory, no heap.
#[derive(Clone, Copy)]
pub struct LongestRun {
    pub total: usize,
    pub count: usize,
    pub jobs: [u8; 128],
}

// The longest run of the record that the bytes are.
pub fn longest_run(bytes: &[u8]) -> Result<LongestRun, Refusal>
    ensures { Shows (run_outcome bytes.now) result }
{
    let Some(read) = reader::read_nodes(bytes) else {
        return Err(Refusal::NoRecord);
    };
    // lists of their own: as parts of `read` they would be copied once more
    let tokens = read.tokens;
    let hours = read.hours;
    let stack = stack::Stack::of(&tokens[..read.count], &hours);
    let run = stack.run();
    let shown = showing::shown(&stack.next, run.first, run.last);
    let jobs = shown.jobs;
    Ok(LongestRun {
        total: run.total as usize,
        count: shown.count,
        jobs,
    })
}
