//! The fewest gangs of a record, where a gang holds jobs that are ordered among themselves.

#![tactic(auto)]

mod numbering;

ghost use Rattle.gangs.specs.Outcome.{gang_outcome, Shows};

use analysis::Refusal;

// How many gangs, the gang of each job, and the hours of each gang's jobs together; the entries after them are 0.
// Lists with a count: fixed memory, no heap. The hours stand last: in a `Result` a refusal lies over the first fields,
// and a list that it lies over is copied in two parts.
#[derive(Clone, Copy)]
pub struct GangPlan {
    pub count: usize,
    pub gangs: [u8; 128],
    pub hours: [u32; 128],
}

// The gangs of the record that the bytes are.
pub fn fewest_gangs(bytes: &[u8]) -> Result<GangPlan, Refusal>
    ensures { Shows (gang_outcome bytes.now) result }
{
    let Some(read) = reader::read_nodes(bytes) else {
        return Err(Refusal::NoRecord);
    };
    // lists of their own: as parts of `read` they would be copied once more
    let tokens = read.tokens;
    let hours = read.hours;
    Ok(numbering::numbered(&tokens[..read.count], &hours))
}
