//! Gang numbers, over a record's nodes in their order. A group that is begun and not yet left is open.
ghost use Rattle.std.specs.Prelude.{ℕ, ◌^◌, ◌<◌, ◌≤◌, ◌≡◌, List, ◌∷◌, length};
ghost use Rattle.poset.specs.Tree.{Tree};
ghost use Rattle.record.specs.Bits.{AllBelow};
ghost use Rattle.record.specs.Layout.{hours_bits};
ghost use Rattle.reader.specs.Nodes.{Listed};
ghost use Rattle.gangs.specs.Places.{Open, open_groups, taken, NextChild, Outer, to_come, Done, At, Ready, Takes, AllNumbered};

use crate::GangPlan;

// How the children of a group stand: one after the other, or beside each other.
#[derive(Clone, Copy)]
pub enum Kind {
    Chain,
    Side,
}

// An open group: its kind, how many children are to come after the present one, the first gang of the present child,
// and one past the last gang of the group so far.
#[derive(Clone, Copy)]
pub struct Group {
    kind: Kind,
    coming: u16,
    at: u8,
    end: u8,
}

impl Group {
    // At its next child, whose gangs begin in a chain where those of the present one do, in a side group after the
    // group's so far.
    fn next_child(self) -> Group
        requires { 0 < self.coming }
        ensures { NextChild self result }
    {
        Group {
            coming: self.coming - 1,
            at: match self.kind {
                Kind::Chain => self.at,
                Kind::Side => self.end,
            },
            ..self
        }
    }
}

// The open groups around the present one, the outermost first, and how many there are: a list of a fixed length,
// since nothing is on the heap. The present one goes by value.
#[derive(Clone, Copy)]
pub struct OuterGroups {
    depth: usize,
    groups: [Group; 128],
}

impl OuterGroups {
    // Out of the present group, which is done, into the one around it.
    fn leave(&mut self, present: Group) -> Group
        requires { (0 < self.old.depth) × (self.old.depth ≤ 128) }
        ensures { Outer (open_groups present self.old) (open_groups result self.new) }
    {
        self.depth -= 1;
        let outer = self.groups[self.depth];
        Group {
            end: outer.end.max(present.end),
            ..outer
        }
    }

    // On to the next child of the present group, or of the nearest around it that has one to come.
    // A `while`: it leaves groups until one has a child to come, and ends early at the outermost.
    fn go_on(&mut self, present: Group) -> Group
        requires { (t : Tree) × (o : Open) × (os : List Open) × Done t (open_groups present self.old) o os }
        ensures { (t : Tree) (o : Open) (os : List Open) → Done t (open_groups present self.old) o os
            → At t (open_groups result self.new) (to_come (o ∷ os)) }
    {
        let mut here = present;
        while here.coming == 0 {
            if self.depth == 0 {
                return here;
            }
            here = self.leave(here);
        }
        here.next_child()
    }
}

// The open groups around the present one, and what is written of the jobs so far: the gang of each job, and the hours
// of each gang.
#[derive(Clone, Copy)]
pub struct Numbering {
    outer: OuterGroups,
    gangs: [u8; 128],
    hours: [u32; 128],
}

impl Numbering {
    // One node more, by its token, a number as `Listed` has it: a leaf's job gets the gang of its place, a group is
    // opened. The present group after it.
    // Taken apart by number: with a match on `record::Token` a call takes 1.08 to 1.14 times the time at 128 jobs.
    fn take(&mut self, token: usize, jobs: &[u16; 128], present: Group) -> Group
        requires { AllBelow (2 ^ hours_bits) jobs.now × ((t : Tree) × (xs : List ℕ) × Ready t jobs.now (taken present self.old) (token ∷ xs)) }
        ensures { Takes token jobs.now (taken present self.old) (taken result self.new) }
    {
        let at = present.at;
        if token < 256 {
            self.gangs[token] = at;
            self.hours[usize::from(at)] += u32::from(jobs[token]);
            let done = Group {
                end: present.end.max(at + 1),
                ..present
            };
            return self.outer.go_on(done);
        }
        self.outer.groups[self.outer.depth] = present;
        self.outer.depth += 1;
        Group {
            kind: if token < 384 { Kind::Chain } else { Kind::Side },
            coming: (token % 128) as u16,
            at,
            end: at,
        }
    }
}

// The gangs of the tree whose nodes these are.
pub fn numbered(nodes: &[u16], jobs: &[u16; 128]) -> GangPlan
    requires { AllBelow (2 ^ hours_bits) jobs.now × ((t : Tree) × Listed t nodes.now (length nodes.now)) }
    ensures { (t : Tree) → Listed t nodes.now (length nodes.now)
        → AllNumbered t jobs.now result.count result.gangs result.hours }
{
    // around the whole tree: a chain with no child to come
    let mut present = Group {
        kind: Kind::Chain,
        coming: 0,
        at: 0,
        end: 0,
    };
    let mut numbering = Numbering {
        outer: OuterGroups {
            depth: 0,
            groups: [present; 128],
        },
        gangs: [0; 128],
        hours: [0; 128],
    };
    for token in nodes {
        present = numbering.take(usize::from(*token), jobs, present);
    }
    let hours = numbering.hours;
    let gangs = numbering.gangs;
    GangPlan {
        count: usize::from(present.end),
        gangs,
        hours,
    }
}
