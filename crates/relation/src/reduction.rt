//! The transitive reduction of an order, and the pairs of a table, counted and written.
ghost use Rattle.std.specs.Prelude.{ℕ, ◌+◌, ◌*◌, ◌<◌, ◌≤◌, ◌≡◌, ◌&&◌, map, ltb, length};
ghost use Rattle.std.proofs.lemmas.List.Edits.{sets};
ghost use Rattle.poset.specs.Lists.{exists, below};
ghost use Rattle.poset.specs.Order.{Strict, covers, pairs_of};
ghost use Rattle.relation.specs.Table.{bit, has, holds, members, Inside};
ghost use Rattle.poset.specs.Areas.{overlay, arc_bytes};

use crate::set::{self, JobSet};

// The jobs from start on, below end, whose row is not empty, as a word: job start + i is bit i.
fn inhabited_rows(t: &[JobSet; 128], start: usize, end: usize) -> u64
    requires { (start ≤ end) × (end ≤ start + 64) × (end ≤ 128) }
    ensures { (i : ℕ) → i < 64 → bit result i ≡ (ltb (start + i) end && exists (holds t.now (start + i)) (below 128)) }
{
    let mut jobs = 0;
    for u in start..end {
        jobs = jobs | (1 << (u - start)) & set::mask(t[u].inhabited());
    }
    jobs
}

// The domain of a relation: the jobs whose row is not empty.
pub fn domain(t: &[JobSet; 128], n: usize) -> JobSet
    requires n_bound { n ≤ 128 }
    requires inside { Inside n t.now }
    ensures { (w : ℕ) → has result w ≡ exists (holds t.now w) (below 128) }
{
    let half = if n < 64 { n } else { 64 };
    JobSet::from_words([inhabited_rows(t, 0, half), inhabited_rows(t, half, n)])
}

// The jobs that are after some job after u. Nothing is added by a job outside the domain, nor by one that is found
// already. Not one member after the other: a step takes the first and the last, and leaves out what both have found.
fn beyond(t: &[JobSet; 128], dom: JobSet, u: usize, n: usize) -> JobSet
    requires n_bound { (n ≤ 128) × (u < n) }
    requires strict { Strict n (holds t.now) }
    requires inside { Inside n t.now }
    requires by_index { (w : ℕ) → has dom w ≡ exists (holds t.now w) (below 128) }
    ensures { (v : ℕ) → has result v ≡ exists (λ w. holds t.now u w && holds t.now w v) (below n) }
{
    let mut far = JobSet::EMPTY;
    let mut rest = t[u].intersection(dom);
    while rest.inhabited() {
        let w = rest.smallest();
        let x = rest.largest();
        let joined = far.union(t[w]).union(t[x]);
        rest = rest.without_smallest().difference(joined);
        far = joined;
    }
    far
}

// The transitive reduction of an order on the jobs below n.
pub fn reduced(t: [JobSet; 128], n: usize) -> [JobSet; 128]
    requires n_bound { n ≤ 128 }
    requires strict { Strict n (holds t) }
    requires inside { Inside n t }
    ensures { (u v : ℕ) → holds result u v ≡ covers n (holds t) u v }
{
    let mut r = [JobSet::EMPTY; 128];
    let dom = domain(&t, n);
    for u in 0..n {
        let far = beyond(&t, dom, u, n);
        r[u] = t[u].difference(far);
    }
    r
}

// How many pairs a table holds.
pub fn pair_count(t: &[JobSet; 128], n: usize) -> usize
    requires n_bound { n ≤ 128 }
    requires inside { Inside n t.now }
    ensures { result ≡ length (pairs_of n (holds t.now)) }
{
    let mut count = 0;
    for row in &t[..n] {
        count += row.size();
    }
    count
}

// Writes the pairs from u to each job of the set, two bytes for each; the place after them.
fn write_each(u: usize, jobs: JobSet, at: usize, area: &mut [u8]) -> usize
    requires { (u < 128) × (at + 2 * length (members jobs) ≤ length area.old) }
    ensures value { result ≡ at + 2 * length (members jobs) }
    ensures area_after { area.new ≡ sets area.old at (arc_bytes (map (λ v. (u, v)) (members jobs))) }
{
    let mut k = at;
    let mut rest = jobs;
    while let Some(v) = rest.pop_first() {
        area[k] = u as u8;
        area[k + 1] = v as u8;
        k += 2;
    }
    k
}

// As write_each, one word of the row after the other, which is quicker: the other word is known to be 0.
fn write_row(u: usize, row: JobSet, at: usize, area: &mut [u8]) -> usize
    requires { (u < 128) × (at + 2 * length (members row) ≤ length area.old) }
    ensures value { result ≡ at + 2 * length (members row) }
    ensures area_after { area.new ≡ sets area.old at (arc_bytes (map (λ v. (u, v)) (members row))) }
{
    let middle = write_each(u, row.low(), at, area);
    write_each(u, row.high(), middle, area)
}

// Writes the pairs that a table holds, by first job, then second, two bytes for each. The bytes after them stay.
pub fn write_pairs(t: &[JobSet; 128], n: usize, area: &mut [u8])
    requires n_bound { n ≤ 128 }
    requires inside { Inside n t.now }
    requires t_in_bounds { 2 * length (pairs_of n (holds t.now)) ≤ length area.old }
    ensures { area.new ≡ overlay (arc_bytes (pairs_of n (holds t.now))) area.old }
{
    let mut at = 0;
    for (u, row) in t[..n].iter().enumerate() {
        at = write_row(u, *row, at, area);
    }
}
