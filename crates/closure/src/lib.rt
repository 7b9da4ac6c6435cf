//! The transitive closure of a table, and how many joins of one row into another it takes.

#![tactic(auto)]

mod finishing;
pub mod passes;

ghost use Rattle.std.specs.Prelude.{ℕ, ◌≤◌, ◌≡◌};
ghost use Rattle.poset.specs.Order.{via};
ghost use Rattle.relation.specs.Table.{holds, Inside};
ghost use Rattle.closure.specs.Joins.{join_count};

use relation::set::JobSet;

// The transitive closure among the jobs below n, and how many joins of a row into another made it. Without a cycle it
// is made from the last jobs towards the first, a join for each pair of the table; with one by Warshall's passes,
// whose joins alone are counted then. The count goes into a number that is lent: in a struct beside the rows it makes
// the closure of a series in any order but its own a sixth slower.
pub fn transitive_closure(t: [JobSet; 128], n: usize, joins: &mut usize) -> [JobSet; 128]
    requires n_bound { n ≤ 128 }
    requires inside { Inside n t }
    ensures by_index { (u v : ℕ) → holds result u v ≡ via (holds t) n u v }
    ensures joins_after { joins.new ≡ join_count n (holds t) }
{
    let mut made = [JobSet::EMPTY; 128];
    if finishing::finish_all(&t, &mut made, n, joins) {
        return made;
    }
    passes::passed(&t, n, joins)
}
