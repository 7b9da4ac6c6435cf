//! Sets of jobs that are counted.
ghost use Rattle.std.specs.Prelude.{ℕ, ◌<◌, ◌≤◌, ◌≡◌, true, ◌&&◌, not, ltb};
ghost use Rattle.relation.specs.Table.{has};

use relation::set::JobSet;
use std::marker::Model;

// A set of jobs, and how many it has.
#[derive(Clone, Copy)]
pub struct Block {
    pub jobs: JobSet,
    pub size: usize,
}

impl Model for Block {
    ghost use Rattle.std.specs.Prelude.{List, ℕ};
    ghost use Rattle.std.proofs.Common.{sym};
    ghost use Rattle.writer.specs.Parts.{Counted, size_of};

    ghost Value = { List ℕ };

    ghost view = { λ b. b.jobs };

    ghost invariant = { λ b. Counted b.jobs b.size };

    ghost inverse = { λ s. record { jobs = s; size = size_of s } };

    ghost inverse_ok = { λ b c i. record { jobs = b.jobs; size = sym c.counted i } };
}

impl Block {
    // The jobs below n.
    pub fn below(n: usize) -> Block
        requires { n ≤ 128 }
        ensures { (v : ℕ) → has result v ≡ ltb v n }
    {
        Block {
            jobs: JobSet::all_below(n),
            size: n,
        }
    }

    // What is left of a block without a part of it.
    pub fn without(self, part: Block) -> Block
        requires { (v : ℕ) → has part v ≡ true → has self v ≡ true }
        ensures { (v : ℕ) → has result v ≡ (has self v && not (has part v)) }
    {
        Block {
            jobs: self.jobs.difference(part.jobs),
            size: self.size - part.size,
        }
    }
}
