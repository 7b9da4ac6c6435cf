//! The writing of crate `writer`, called from C by bench/writer. Arcs that do not fit are refused.

#![tactic(auto)]

ghost use Rattle.std.specs.Prelude.{ℕ, ◌*◌, ◌<◌, ◌≤◌, ◌^◌, ◌≡◌};
ghost use Rattle.poset.specs.Order.{Strict};
ghost use Rattle.poset.specs.Decompose.{tree_of};
ghost use Rattle.record.specs.Bits.{AllBelow};
ghost use Rattle.record.specs.Layout.{hours_bits};
ghost use Rattle.relation.specs.Table.{holds, Inside};
ghost use Rattle.relation.specs.Arcs.{pairs};
ghost use Rattle.writer.specs.Written.{written};
ghost use Rattle.writer_bench.specs.Rounds.{count_of, bytes_written};

use relation::order;
use relation::set::JobSet;
use writer::writing;

// The record of an order, written so many times over: its bytes in all, 0 where there is none.
fn repeated(
    after: [JobSet; 128],
    under: &[JobSet; 128],
    n: usize,
    hours: &[u16; 128],
    rounds: usize,
) -> usize
    requires n_nonzero { (0 < n) × (n ≤ 128) × (rounds ≤ 1000000) }
    requires strict { Strict n (holds after) }
    requires inside { Inside n after }
    requires by_index { (u v : ℕ) → holds under.now u v ≡ holds after v u }
    requires all_below { AllBelow (2 ^ hours_bits) hours.now }
    ensures { result ≡ rounds * count_of (written n hours.now (tree_of n (holds after))) }
{
    let mut sum = 0;
    for _round in 0..rounds {
        if let Some(w) = writing::write_record(after, under, n, hours) {
            sum += w.count;
        }
    }
    sum
}

// The record of the arcs' order, each of the n jobs with n hours, written so many times over: its bytes in all. At most
// a million rounds, and one job at least.
#[unsafe(no_mangle)]
pub extern "C" fn bench_write(arcs: &[u16], n: u16, rounds: usize) -> usize
    ensures { result ≡ bytes_written rounds n (pairs arcs.now) }
{
    if n < 1 {
        return 0;
    }
    if 1000000 < rounds {
        return 0;
    }
    if !relation_bench::fits(arcs, n) {
        return 0;
    }
    let jobs = usize::from(n);
    let after = relation_bench::closed(arcs, jobs);
    if !relation_bench::acyclic(after, jobs) {
        return 0;
    }
    let under = order::transposed(after, jobs);
    let hours = [n; 128];
    repeated(after, &under, jobs, &hours, rounds)
}
