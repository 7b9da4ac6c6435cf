//! The steps of crate `relation_bench`, exported to C, with their clauses.

#![tactic(auto)]

ghost use Rattle.std.specs.Prelude.{◌≡◌, length};
ghost use Rattle.poset.specs.Areas.{overlay, arc_bytes};
ghost use Rattle.relation.specs.Arcs.{pairs};
ghost use Rattle.relation_bench.specs.Steps.{joins_of, pass_joins_of, reduced_arcs, packed_n};

// The closure, made once and as many times again, and how many joins it takes; 0 where the arcs do not fit.
#[unsafe(no_mangle)]
pub extern "C" fn bench_joins(arcs: &[u16], n: u16, again: u16) -> usize
    ensures { result ≡ joins_of n (pairs arcs.now) }
{
    relation_bench::bench_joins(arcs, n, again)
}

// The same by Warshall's passes, cycle or not.
#[unsafe(no_mangle)]
pub extern "C" fn bench_passes(arcs: &[u16], n: u16, again: u16) -> usize
    ensures { result ≡ pass_joins_of n (pairs arcs.now) }
{
    relation_bench::bench_passes(arcs, n, again)
}

// Closure and reduction: the reduced arcs as bytes in the area, and how many there are.
#[unsafe(no_mangle)]
pub extern "C" fn bench_reduce(arcs: &[u16], n: u16, area: &mut [u8]) -> usize
    ensures value { result ≡ length (reduced_arcs (length area.old) n (pairs arcs.now)) }
    ensures area_after { area.new
        ≡ overlay (arc_bytes (reduced_arcs (length area.old) n (pairs arcs.now))) area.old }
{
    relation_bench::bench_reduce(arcs, n, area)
}

// The first N of arcs.
#[unsafe(no_mangle)]
pub extern "C" fn bench_first_n(arcs: &[u16], n: u16) -> u64
    ensures { result ≡ packed_n n (pairs arcs.now) }
{
    relation_bench::bench_first_n(arcs, n)
}
