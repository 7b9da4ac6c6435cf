//! The lowest node over two jobs, over a record's nodes from the last to the first. The nodes taken so far are trees
//! in a row; the one taken last begins the first of them, which is over both jobs exactly where the row has both and
//! the trees after it have neither.
ghost use Rattle.std.specs.Prelude.{◌≡◌, cond, List, [], ◌∷◌, eqb, length};
ghost use Rattle.poset.specs.Tree.{Tree, leaves};
ghost use Rattle.reader.specs.Nodes.{Step, Fits};
ghost use Rattle.reason.specs.Outcome.{rule_number};
ghost use Rattle.reason.specs.Rows.{mark_number, marked, Rowed, Takes, Decides, rule_by, Sought, Decided, Ahead};

use crate::Rule;
use record::Token;

// Which of the jobs are in a row; of both, whether they are one, or which stands ahead.
#[derive(Clone, Copy)]
pub enum Mark {
    Neither,
    First,
    Second,
    Same,
    FirstAhead,
    SecondAhead,
}

impl Mark {
    // With one job more ahead.
    // Here and below the two jobs are two arguments: `marked`, `Takes`, `Sought` and `Decided` have them so.
    fn with(self, job: usize, first: usize, second: usize) -> Mark
        ensures { mark_number result ≡ marked first second job (mark_number self) }
    {
        if first == job {
            if second == job {
                return Mark::Same;
            }
            return match self {
                Mark::Second => Mark::FirstAhead,
                _ => Mark::First,
            };
        }
        if second == job {
            return match self {
                Mark::First => Mark::SecondAhead,
                _ => Mark::Second,
            };
        }
        self
    }
}

// height: how many trees. low: how many from the last one on that has one of the jobs, or all where none has.
#[derive(Clone, Copy)]
pub struct Row {
    height: usize,
    low: usize,
    mark: Mark,
}

impl Row {
    // low with a leaf more: the new height where neither job has been met, else as it was.
    fn raised(self, height: usize) -> usize
        ensures { result ≡ cond (eqb (mark_number self.mark) 7) height self.low }
    {
        match self.mark {
            Mark::Neither => height,
            _ => self.low,
        }
    }

    // One node more, by its token: a leaf is one tree more, a group takes the place of its children.
    fn take(self, token: u16, first: usize, second: usize) -> Row
        requires { (ts us : List Tree) × Step token ts us × Fits us × Rowed first second ts self }
        ensures { Takes token first second self result }
    {
        match Token::from(token) {
            Token::Leaf(job) => {
                let height = self.height + 1;
                Row {
                    height,
                    low: self.raised(height),
                    mark: self.mark.with(usize::from(job), first, second),
                }
            }
            Token::Chain(more) | Token::Side(more) => {
                let height = self.height - usize::from(more);
                Row {
                    height,
                    low: self.low.min(height),
                    mark: self.mark,
                }
            }
        }
    }

    // How the jobs stand in the row, where its first tree is over both.
    fn decided(self) -> Option<Rule>
        ensures { Decides self result }
    {
        if self.low < self.height {
            return None;
        }
        match self.mark {
            Mark::Same => Some(Rule::Same),
            Mark::FirstAhead => Some(Rule::Before),
            Mark::SecondAhead => Some(Rule::After),
            Mark::Neither | Mark::First | Mark::Second => None,
        }
    }
}

// The rule of the lowest node, by its token and how the jobs stand in the row: a side group's jobs are free.
fn rule_at(token: u16, stand: Rule) -> Rule
    ensures { rule_number result ≡ rule_by token (rule_number stand) }
{
    match Token::from(token) {
        Token::Side(_) => Rule::Free,
        _ => stand,
    }
}

// The rule, and the position of the lowest node.
#[derive(Clone, Copy)]
pub struct Decision {
    pub rule: Rule,
    pub position: usize,
}

// The lowest node over both jobs of the tree whose nodes these are.
pub fn lowest(nodes: &[u16], first: usize, second: usize) -> Decision
    requires { (t : Tree) × Sought first second t nodes.now (length nodes.now) }
    ensures { (t : Tree) → Sought first second t nodes.now (length nodes.now) → Decided first second t nodes.now result }
{
    let mut row = Row {
        height: 0,
        low: 0,
        mark: Mark::Neither,
    };
    for position in (0..nodes.len()).rev() {
        let token = nodes[position];
        row = row.take(token, first, second);
        if let Some(stand) = row.decided() {
            return Decision {
                rule: rule_at(token, stand),
                position,
            };
        }
    }
    unreachable!()
}

// How many jobs are under the first of these nodes: the leaves from there on, as long as a tree is to come.
pub fn jobs_under(nodes: &[u16]) -> usize
    requires { (s : Tree) × Ahead nodes.now 0 (s ∷ []) }
    ensures { (s : Tree) → Ahead nodes.now 0 (s ∷ []) → result ≡ length (leaves s) }
{
    let mut trees = 1;
    let mut jobs = 0;
    for token in nodes {
        match Token::from(*token) {
            Token::Leaf(_) => {
                trees -= 1;
                jobs += 1;
            }
            Token::Chain(more) | Token::Side(more) => trees += usize::from(more),
        }
        if trees == 0 {
            return jobs;
        }
    }
    unreachable!()
}
