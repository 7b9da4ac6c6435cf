//! The reason between two jobs of a record: the lowest group over both, and how it orders them.

#![tactic(auto)]

mod seeking;

ghost use Rattle.std.specs.Prelude.{◌≡◌};
ghost use Rattle.reason.specs.Outcome.{rule_number, reason_outcome, Shows};

use analysis::Refusal;

// How two jobs stand: they are one, the first is before the second, the second before the first, or they are free.
#[derive(Clone, Copy)]
pub enum Rule {
    Same,
    Before,
    After,
    Free,
}

// 1 to 4, in this order.
impl From<Rule> for u64 {
    ghost from_gives = { λ rule number. number ≡ rule_number rule };

    fn from(rule: Rule) -> u64 {
        match rule {
            Rule::Same => 1,
            Rule::Before => 2,
            Rule::After => 3,
            Rule::Free => 4,
        }
    }
}

// The rule, the position of the lowest group over both jobs, in nodes from 0, and how many jobs are under it; of one
// job, its leaf's.
#[derive(Clone, Copy)]
pub struct Reason {
    pub rule: Rule,
    pub position: usize,
    pub jobs: usize,
}

// The reason between the first and the second job of the record that the bytes are.
pub fn reason_between(bytes: &[u8], first: u16, second: u16) -> Result<Reason, Refusal>
    ensures { Shows (reason_outcome bytes.now first second) result }
{
    let u = usize::from(first);
    let v = usize::from(second);
    let Some(read) = reader::read_nodes(bytes) else {
        return Err(Refusal::NoRecord);
    };
    if u >= read.jobs || v >= read.jobs {
        return Err(Refusal::NoJob);
    }
    // a list of its own: as a part of `read` it would be copied once more
    let tokens = read.tokens;
    let nodes = &tokens[..read.count];
    let found = seeking::lowest(nodes, u, v);
    Ok(Reason {
        rule: found.rule,
        position: found.position,
        jobs: seeking::jobs_under(&nodes[found.position..]),
    })
}
