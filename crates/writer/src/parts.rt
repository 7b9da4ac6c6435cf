//! A set of jobs taken apart: its connected parts under a relation.
ghost use Rattle.std.specs.Prelude.{◌≡◌, true, length};
ghost use Rattle.relation.specs.Table.{has, holds};
ghost use Rattle.poset.specs.Lists.{exists, below};
ghost use Rattle.writer.specs.Parts.{Jobs, PartOf, First, StartsAt, Cut, Taken, Marked, Numbered, close_of};

use crate::arrange;
use crate::block::Block;
use crate::compared::Compared;
use relation::set::JobSet;

// The number at each job of a set.
fn mark_each(jobs: JobSet, number: u8, numbers: &mut [u8; 128])
    requires { Jobs jobs }
    ensures { Marked (has jobs) number numbers.old numbers.new }
{
    let mut rest = jobs;
    while let Some(y) = rest.pop_first() {
        numbers[y] = number;
    }
}

// As mark_each, one word of the set after the other: in each run the other word is known to be 0.
fn mark(part: JobSet, number: u8, numbers: &mut [u8; 128])
    requires { Jobs part }
    ensures { Marked (has part) number numbers.old numbers.new }
{
    mark_each(part.low(), number, numbers);
    mark_each(part.high(), number, numbers);
}

// The part of s that x falls to: jobs that near joins stay together. Its jobs get the number, and are counted as they
// are gone through.
fn part_of(near: &[JobSet; 128], s: Block, x: usize, number: u8, numbers: &mut [u8; 128]) -> Block
    requires { has s x ≡ true }
    ensures part_of { PartOf (holds near.now) s x result }
    ensures marked { Marked (has result) number numbers.old numbers.new }
{
    let all = s.jobs;
    let mut todo = JobSet::only(x);
    let mut rest = all.difference(todo);
    let mut size = 0;
    while rest.inhabited() {
        if !todo.inhabited() {
            return Block {
                jobs: all.difference(rest),
                size,
            };
        }
        // Not by pop_first, with which a series of 128 jobs takes 9 % longer.
        let y = todo.smallest();
        numbers[y] = number;
        size += 1;
        let found = near[y].intersection(rest);
        let others = todo.without_smallest();
        let more = others.union(found);
        let fewer = rest.difference(found);
        todo = more;
        rest = fewer;
    }
    // What was found and not gone through.
    mark(todo, number, numbers);
    s
}

// A job of s that no job of s is before. From the smallest job down by the largest ahead of it: few steps where the
// jobs are numbered forwards or backwards.
// A `while`: nothing is counted over a list; the job that is found tells which are ahead of it in turn.
fn first_of(order: &Compared, s: Block) -> usize
    requires { exists (has s) (below 128) ≡ true }
    ensures { First (holds order.now.under.now) s result }
{
    let all = s.jobs;
    let mut x = all.smallest();
    let mut ahead = order.under[x].intersection(all);
    while ahead.inhabited() {
        let y = ahead.largest();
        let fewer = order.under[y].intersection(all);
        x = y;
        ahead = fewer;
    }
    x
}

// Where the next part starts.
fn start_of(order: &Compared, series: bool, s: Block) -> usize
    requires { exists (has s) (below 128) ≡ true }
    ensures { StartsAt (holds order.now.under.now) series s result }
{
    if series {
        first_of(order, s)
    } else {
        s.jobs.smallest()
    }
}

// The parts of a set, from the first entry on, and for each job of the set the number that its part was found by.
#[derive(Drop)]
pub struct Parts {
    pub list: [Block; 128],
    pub numbers: [u8; 128],
}

impl Parts {
    // The parts of s under a relation, as they are found one after another, and how many there are.
    // A `while`: nothing is counted over a list; what is left by the part that is found tells where the next begins.
    fn split(&mut self, near: &[JobSet; 128], order: &Compared, series: bool, s: Block) -> usize
        ensures cut { Cut (holds near.now) (holds order.now.under.now) series s self.new.list result }
        ensures numbered { Numbered s self.new.list result self.old.numbers self.new.numbers }
    {
        let mut left = s;
        let mut count = 0;
        while left.jobs.inhabited() {
            let x = start_of(order, series, left);
            let part = part_of(near, left, x, (count % 256) as u8, &mut self.numbers);
            self.list[count] = part;
            left = left.without(part);
            count += 1;
        }
        count
    }

    // The parts of s for a group of this kind, in its order, and how many there are.
    pub fn split_as(&mut self, order: &Compared, series: bool, s: Block) -> usize
        ensures { Taken (close_of series (holds order.now.tied.now) (holds order.now.free.now)) (holds order.now.under.now) series s
            self.new.list result self.old.numbers self.new.numbers }
    {
        if series {
            self.split(order.free, order, true, s)
        } else {
            let count = self.split(order.tied, order, false, s);
            arrange::arrange(&mut self.list[..count]);
            count
        }
    }
}
