//! What is looked for in the closure of a table, and a table turned round.
//! A table and its n stay apart, here and in what takes tables, with their bounds as clauses: in a struct with these as
//! its invariant the rows are copied in and out, and the smallest sheets took 1.05 to 1.09 times as long.
ghost use Rattle.std.specs.Prelude.{ℕ, ◌≤◌, ◌≡◌};
ghost use Rattle.poset.specs.Order.{first_on_cycle_of};
ghost use Rattle.relation.specs.Table.{holds, Inside};

use crate::set::JobSet;
use crate::turning;

// The smallest job below n that is before itself.
pub fn first_on_cycle(t: [JobSet; 128], n: usize) -> Option<usize>
    requires { n ≤ 128 }
    ensures { result ≡ first_on_cycle_of n (holds t) }
{
    for u in 0..n {
        if t[u].contains(u) {
            return Some(u);
        }
    }
    None
}

// The relation the other way round, by a step for each binary digit of the jobs' numbers.
pub fn transposed(t: [JobSet; 128], n: usize) -> [JobSet; 128]
    requires n_bound { n ≤ 128 }
    requires inside { Inside n t }
    ensures { (u v : ℕ) → holds result u v ≡ holds t v u }
{
    let w = turning::digits(n);
    let mut r = t;
    for e in 0..w {
        turning::step(&mut r, e, w);
    }
    r
}
