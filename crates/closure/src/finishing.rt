//! Rows made from the last jobs towards the first: each once, from the finished rows of the jobs that its own arcs
//! lead to.
ghost use Rattle.std.specs.Prelude.{ℕ, ◌+◌, ◌^◌, ◌<◌, ◌≤◌, ◌≡◌, true, false, ◌&&◌, ◌||◌, not, eqb, length};
ghost use Rattle.poset.specs.Lists.{exists, below};
ghost use Rattle.poset.specs.Order.{via};
ghost use Rattle.relation.specs.Table.{has, holds, members, Inside};
ghost use Rattle.closure.specs.Joins.{join_count};
ghost use Rattle.closure.specs.Rows.{Rows, Cyclic};

use relation::reduction;
use relation::set::JobSet;

// The step that joins one row into another: it adds 1 to the count.
fn join(row: JobSet, other: JobSet, joins: &mut usize) -> JobSet
    requires { joins.old + 1 < 2 ^ 64 }
    ensures by_index { (v : ℕ) → has result v ≡ (has row v || has other v) }
    ensures joins_after { joins.new ≡ joins.old + 1 }
{
    *joins += 1;
    row.union(other)
}

// The rows of some jobs joined to a row, each join counted.
fn join_each(rows: &[JobSet; 128], row: JobSet, jobs: JobSet, joins: &mut usize) -> JobSet
    requires { joins.old + length (members jobs) < 2 ^ 64 }
    ensures by_index { (v : ℕ) → has result v ≡ (has row v || exists (λ w. has jobs w && holds rows.now w v) (below 128)) }
    ensures joins_after { joins.new ≡ joins.old + length (members jobs) }
{
    let mut whole = row;
    let mut rest = jobs;
    while let Some(v) = rest.pop_first() {
        whole = join(whole, rows[v], joins);
    }
    whole
}

// A row with the rows of its jobs joined to it: first of those below 64, then of the others.
fn joined(rows: &[JobSet; 128], row: JobSet, joins: &mut usize) -> JobSet
    requires { joins.old + length (members row) < 2 ^ 64 }
    ensures by_index { (v : ℕ) → has result v ≡ (has row v || exists (λ w. has row w && holds rows.now w v) (below 128)) }
    ensures joins_after { joins.new ≡ joins.old + length (members row) }
{
    let part = join_each(rows, row, row.low(), joins);
    join_each(rows, part, row.high(), joins)
}

// The row of a job that is left, made from the rows of all that its arcs lead to, which are finished. The jobs that
// are left then: all but this one.
fn finish(
    t: &[JobSet; 128],
    made: &mut [JobSet; 128],
    left: JobSet,
    at: usize,
    joins: &mut usize,
) -> JobSet
    requires made_len { length made.old ≡ 128 }
    requires at_value { has left at ≡ true }
    requires by_index { (v : ℕ) → holds t.now at v ≡ true → has left v ≡ false }
    requires by_index_2 { (n : ℕ) × Rows n (holds t.now) made.old left joins.old }
    ensures made_len_2 { length made.new ≡ 128 }
    ensures by_index_3 { (v : ℕ) → has result v ≡ (has left v && not (eqb at v)) }
    ensures by_index_4 { (n : ℕ) → Rows n (holds t.now) made.old left joins.old
        → Rows n (holds t.now) made.new result joins.new }
{
    let row = t[at];
    let whole = joined(made, row, joins);
    made[at] = whole;
    left.difference(JobSet::only(at))
}

// The rows of a job that is left and of all that it leads to, if no cycle is met. A job waits on a stack until the
// rows of all that its arcs lead to are finished; an arc to itself or to a job on the stack is part of a cycle.
// Whether none is met; `left` then has the jobs still left: in an Option they make the closure up to an eighth
// slower. The stack is a lent list of 128, and `depth`: fixed memory, no heap.
fn follow(
    t: &[JobSet; 128],
    made: &mut [JobSet; 128],
    left: &mut JobSet,
    root: usize,
    stack: &mut [u8; 128],
    joins: &mut usize,
) -> bool
    requires made_len { (length made.old ≡ 128) × (length stack.old ≡ 128) }
    requires root_value { has left.old root ≡ true }
    requires by_index { (n : ℕ) × Rows n (holds t.now) made.old left.old joins.old }
    ensures made_len_2 { (length made.new ≡ 128) × (length stack.new ≡ 128) }
    ensures cyclic { result ≡ false → (n : ℕ) → Rows n (holds t.now) made.old left.old joins.old
        → Cyclic n (holds t.now) }
    ensures rows { result ≡ true → (n : ℕ) → Rows n (holds t.now) made.old left.old joins.old
        → Rows n (holds t.now) made.new left.new joins.new }
    ensures left_in_bounds { result ≡ true → length (members left.new) < length (members left.old) }
{
    let mut jobs = *left;
    let mut met = JobSet::EMPTY;
    let mut at = root;
    let mut depth = 0;
    loop {
        let next = t[at].intersection(jobs);
        if next.inhabited() {
            let more = met.union(JobSet::only(at));
            if next.intersection(more).inhabited() {
                return false;
            }
            met = more;
            stack[depth] = at as u8;
            depth += 1;
            at = next.largest();
        } else {
            jobs = finish(t, made, jobs, at, joins);
            if depth == 0 {
                *left = jobs;
                return true;
            }
            depth -= 1;
            at = usize::from(stack[depth]);
        }
    }
}

// All rows into a table of empty ones, and the joins that they take, if there is no cycle; a job with no arc has its
// row already. Whether there is no cycle. The count goes into a lent number: in an Option or a struct beside the rows
// the closure is up to an eighth slower.
pub fn finish_all(t: &[JobSet; 128], made: &mut [JobSet; 128], n: usize, joins: &mut usize) -> bool
    requires n_bound { (n ≤ 128) × (length made.old ≡ 128) }
    requires inside { Inside n t.now }
    requires by_index { (u v : ℕ) → holds made.old u v ≡ false }
    ensures cyclic { result ≡ false → Cyclic n (holds t.now) }
    ensures v_after { result ≡ true → (u v : ℕ) → holds made.new u v ≡ via (holds t.now) n u v }
    ensures joins_after { result ≡ true → joins.new ≡ join_count n (holds t.now) }
{
    let mut stack = [0u8; 128];
    let mut left = reduction::domain(t, n);
    *joins = 0;
    while left.inhabited() {
        let root = left.largest();
        if !follow(t, made, &mut left, root, &mut stack, joins) {
            return false;
        }
    }
    true
}
