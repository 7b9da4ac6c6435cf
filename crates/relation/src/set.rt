//! Sets of the jobs below 128, two words each: job v is bit v % 64 of word v / 64.
ghost use Rattle.std.specs.Prelude.{◌≡◌, ℕ, ◌<◌, ◌≤◌, List, true, false, ◌&&◌, ◌||◌, not, eqb, ltb, length, MatchOption};
ghost use Rattle.std.specs.Bool.{xor};
ghost use Rattle.poset.specs.Lists.{exists, below};
ghost use Rattle.relation.specs.Table.{bit, has, members, Least, Greatest};

use std::marker::Model;

// A set of jobs.
#[derive(Clone, Copy, PartialEq, Eq)]
pub struct JobSet {
    words: [u64; 2],
}

impl Model for JobSet {
    ghost Value = { List ℕ };

    ghost view = { λ s. s.words };

    ghost inverse = { λ w. record { words = w } };
}

// All ones where the test holds, and 0 where not: what is done under a mask needs no branch.
pub fn mask(test: bool) -> u64
    ensures { (i : ℕ) → i < 64 → bit result i ≡ test }
{
    if test { 0xffff_ffff_ffff_ffff } else { 0 }
}

impl JobSet {
    // The set without a member.
    pub const EMPTY: JobSet = JobSet { words: [0, 0] };

    // The set of two words.
    pub fn from_words(words: [u64; 2]) -> Self
        ensures { result ≡ words }
    {
        JobSet { words }
    }

    // Its two words.
    pub fn words(self) -> [u64; 2]
        ensures { result ≡ self }
    {
        let [low, high] = self.words;
        [low, high]
    }

    // The set of one job.
    pub fn only(v: usize) -> Self
        requires { v < 128 }
        ensures { (x : ℕ) → has result x ≡ eqb v x }
    {
        if v < 64 {
            JobSet { words: [1 << v, 0] }
        } else {
            JobSet {
                words: [0, 1 << (v - 64)],
            }
        }
    }

    // The jobs below n.
    pub fn all_below(n: usize) -> Self
        requires { n ≤ 128 }
        ensures { (v : ℕ) → has result v ≡ ltb v n }
    {
        if n < 64 {
            JobSet {
                words: [(1 << n) - 1, 0],
            }
        } else if n < 128 {
            JobSet {
                words: [0xffff_ffff_ffff_ffff, (1 << (n - 64)) - 1],
            }
        } else {
            JobSet {
                words: [0xffff_ffff_ffff_ffff, 0xffff_ffff_ffff_ffff],
            }
        }
    }

    pub fn contains(self, v: usize) -> bool
        requires { v < 128 }
        ensures { result ≡ has self v }
    {
        let word = if v < 64 { self.words[0] } else { self.words[1] };
        word >> (v % 64) & 1 == 1
    }

    pub fn insert(&mut self, v: usize)
        requires { v < 128 }
        ensures { (x : ℕ) → has self.new x ≡ (has self.old x || eqb v x) }
    {
        self.words[v / 64] |= 1 << (v % 64);
    }

    pub fn union(self, other: Self) -> Self
        ensures { (v : ℕ) → has result v ≡ (has self v || has other v) }
    {
        JobSet {
            words: [
                self.words[0] | other.words[0],
                self.words[1] | other.words[1],
            ],
        }
    }

    pub fn intersection(self, other: Self) -> Self
        ensures { (v : ℕ) → has result v ≡ (has self v && has other v) }
    {
        JobSet {
            words: [
                self.words[0] & other.words[0],
                self.words[1] & other.words[1],
            ],
        }
    }

    pub fn difference(self, other: Self) -> Self
        ensures { (v : ℕ) → has result v ≡ (has self v && not (has other v)) }
    {
        JobSet {
            words: [
                self.words[0] & !other.words[0],
                self.words[1] & !other.words[1],
            ],
        }
    }

    // The members below 64.
    pub fn low(self) -> Self
        ensures { (v : ℕ) → has result v ≡ (has self v && ltb v 64) }
    {
        JobSet {
            words: [self.words[0], 0],
        }
    }

    // The members from 64 on.
    pub fn high(self) -> Self
        ensures { (v : ℕ) → has result v ≡ (has self v && not (ltb v 64)) }
    {
        JobSet {
            words: [0, self.words[1]],
        }
    }

    // Whether there is a member.
    pub fn inhabited(self) -> bool
        ensures { result ≡ exists (has self) (below 128) }
    {
        self.words[0] | self.words[1] != 0
    }

    // Whether two sets have the same members.
    pub fn same(self, other: Self) -> bool
        ensures { result ≡ not (exists (λ v. xor (has self v) (has other v)) (below 128)) }
    {
        self == other
    }

    pub fn smallest(self) -> usize
        requires { exists (has self) (below 128) ≡ true }
        ensures { Least self result }
    {
        if self.words[0] != 0 {
            u64::trailing_zeros(self.words[0]) as usize
        } else {
            64 + u64::trailing_zeros(self.words[1]) as usize
        }
    }

    pub fn largest(self) -> usize
        requires { exists (has self) (below 128) ≡ true }
        ensures { Greatest self result }
    {
        if self.words[1] != 0 {
            127 - u64::leading_zeros(self.words[1]) as usize
        } else {
            63 - u64::leading_zeros(self.words[0]) as usize
        }
    }

    // All members but the smallest.
    pub fn without_smallest(self) -> Self
        requires { exists (has self) (below 128) ≡ true }
        ensures { (v : ℕ) → has result v ≡ (has self v && exists (has self) (below v)) }
    {
        if self.words[0] != 0 {
            JobSet {
                words: [self.words[0] & (self.words[0] - 1), self.words[1]],
            }
        } else {
            JobSet {
                words: [0, self.words[1] & (self.words[1] - 1)],
            }
        }
    }

    // Takes the smallest member out, if there is one.
    pub fn pop_first(&mut self) -> Option<usize>
        ensures { MatchOption result ((exists (has self.old) (below 128) ≡ false) × (self.new ≡ self.old))
            (λ v. Least self.old v × ((x : ℕ) → has self.new x ≡ (has self.old x && exists (has self.old) (below x)))) }
    {
        if !self.inhabited() {
            return None;
        }
        let v = self.smallest();
        *self = self.without_smallest();
        Some(v)
    }

    // How many members there are.
    pub fn size(self) -> usize
        ensures { (result ≡ length (members self)) × (result ≤ 128) }
    {
        (u64::count_ones(self.words[0]) + u64::count_ones(self.words[1])) as usize
    }
}
