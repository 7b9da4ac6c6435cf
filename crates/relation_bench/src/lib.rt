//! The steps of crates `closure` and `relation`, for bench/closure, bench/relation and tests/compare, to which
//! `relation_bench_c` exports them. Arcs that do not fit are refused.

#![tactic(auto)]

ghost use Rattle.std.specs.Prelude.{◌≤◌, ◌≡◌, length};
ghost use Rattle.poset.specs.Order.{Within, before, first_n_of};
ghost use Rattle.poset.specs.Areas.{overlay, arc_bytes};
ghost use Rattle.relation.specs.Table.{holds, Inside};
ghost use Rattle.relation.specs.Arcs.{pairs};
ghost use Rattle.relation_bench.specs.Steps.{fits, acyclic, joins_of, pass_joins_of, reduced_arcs, packed, packed_n};

use closure::passes;
use relation::set::JobSet;
use relation::{arcs, order, reduction, search};

// Whether there are at most 128 jobs and the arcs name them alone.
pub fn fits(arcs: &[u16], n: u16) -> bool
    ensures { result ≡ fits n (pairs arcs.now) }
{
    arcs::first_outside(arcs, n).is_none() && n <= 128
}

// The closure of the arcs.
pub fn closed(arcs: &[u16], n: usize) -> [JobSet; 128]
    requires n_bound { n ≤ 128 }
    requires within { Within n (pairs arcs.now) }
    ensures result_value { holds result ≡ before n (pairs arcs.now) }
    ensures inside { Inside n result }
{
    let mut joins = 0;
    closure::transitive_closure(arcs::table_of(arcs), n, &mut joins)
}

// Whether no job is before itself.
pub fn acyclic(after: [JobSet; 128], n: usize) -> bool
    requires { n ≤ 128 }
    ensures { result ≡ acyclic n (holds after) }
{
    order::first_on_cycle(after, n).is_none()
}

// The closure, made once and as many times again, and how many joins it takes; 0 where the arcs do not fit.
pub fn bench_joins(arcs: &[u16], n: u16, again: u16) -> usize
    ensures { result ≡ joins_of n (pairs arcs.now) }
{
    if !fits(arcs, n) {
        return 0;
    }
    let table = arcs::table_of(arcs);
    let mut joins = 0;
    closure::transitive_closure(table, usize::from(n), &mut joins);
    for _ in 0..again {
        closure::transitive_closure(table, usize::from(n), &mut joins);
    }
    joins
}

// The same by Warshall's passes, cycle or not. Beside the function above: one for both would take a trait or a closure
// whose clauses are longer than this body.
pub fn bench_passes(arcs: &[u16], n: u16, again: u16) -> usize
    ensures { result ≡ pass_joins_of n (pairs arcs.now) }
{
    if !fits(arcs, n) {
        return 0;
    }
    let table = arcs::table_of(arcs);
    let mut joins = 0;
    passes::passed(&table, usize::from(n), &mut joins);
    for _ in 0..again {
        passes::passed(&table, usize::from(n), &mut joins);
    }
    joins
}

// Closure and reduction: the reduced arcs as bytes in the area, and how many there are.
pub fn bench_reduce(arcs: &[u16], n: u16, area: &mut [u8]) -> usize
    ensures value { result ≡ length (reduced_arcs (length area.old) n (pairs arcs.now)) }
    ensures area_after { area.new
        ≡ overlay (arc_bytes (reduced_arcs (length area.old) n (pairs arcs.now))) area.old }
{
    if !fits(arcs, n) {
        return 0;
    }
    let jobs = usize::from(n);
    let after = closed(arcs, jobs);
    if !acyclic(after, jobs) {
        return 0;
    }
    let covers = reduction::reduced(after, jobs);
    let count = reduction::pair_count(&covers, jobs);
    if area.len() / 2 < count {
        return 0;
    }
    reduction::write_pairs(&covers, jobs, area);
    count
}

// The first N of a closure: its jobs, a byte each from the lowest, or 2^32 where there is none.
fn searched(after: [JobSet; 128], n: usize) -> u64
    requires n_bound { n ≤ 128 }
    requires inside { Inside n after }
    ensures { result ≡ packed (first_n_of n (holds after)) }
{
    let under = order::transposed(after, n);
    match search::first_n(after, &under, n) {
        Some((a, b, c, d)) => {
            (a % 256 + 256 * (b % 256) + 65536 * (c % 256) + 16777216 * (d % 256)) as u64
        }
        None => 0x1_0000_0000,
    }
}

// The first N of arcs.
pub fn bench_first_n(arcs: &[u16], n: u16) -> u64
    ensures { result ≡ packed_n n (pairs arcs.now) }
{
    if !fits(arcs, n) {
        return 0x1_0000_0000;
    }
    let after = closed(arcs, usize::from(n));
    searched(after, usize::from(n))
}
