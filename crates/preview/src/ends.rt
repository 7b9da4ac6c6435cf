//! The arcs of a list and, at its end, those of another.
ghost use Rattle.std.specs.Prelude.{ℕ, ◌+◌, ◌<◌, ◌^◌, ◌≡◌, ◌++◌};
ghost use Rattle.std.specs.Prelude.{Some, option_map};
ghost use Rattle.std.specs.Option.{option_or};
ghost use Rattle.poset.specs.Order.{Within, arc};
ghost use Rattle.relation.specs.Table.{holds};
ghost use Rattle.relation.specs.Arcs.{pairs, place, outside, loop};

use relation::arcs;
use relation::set::JobSet;

// The first of two places, the second in a list that has so many arcs ahead of it.
fn first_of(ahead: Option<usize>, behind: Option<usize>, count: usize) -> Option<usize>
    requires { (count < 2 ^ 63) × ((k : ℕ) → behind ≡ Some k → k < 2 ^ 63) }
    ensures { result ≡ option_or ahead (option_map (λ k. count + k) behind) }
{
    ahead.or(behind.map(|k| count + k))
}

// The place of the first arc that names a job not below n.
pub fn first_outside(list: &[u16], last: &[u16], n: u16) -> Option<usize>
    ensures { result ≡ place (outside n) (pairs list.now ++ pairs last.now) }
{
    first_of(
        arcs::first_outside(list, n),
        arcs::first_outside(last, n),
        list.len() / 2,
    )
}

// The place of the first arc from a job to itself.
pub fn first_loop(list: &[u16], last: &[u16]) -> Option<usize>
    ensures { result ≡ place loop (pairs list.now ++ pairs last.now) }
{
    first_of(
        arcs::first_loop(list),
        arcs::first_loop(last),
        list.len() / 2,
    )
}

// The table of the arcs. The list at the end is short: its arcs are put in one by one.
pub fn table_of(list: &[u16], last: &[u16]) -> [JobSet; 128]
    requires { Within 128 (pairs list.now ++ pairs last.now) }
    ensures { (u v : ℕ) → holds result u v ≡ arc (pairs list.now ++ pairs last.now) u v }
{
    let mut t = arcs::table_of(list);
    let (arcs, _) = last.as_chunks::<2>();
    for [u, v] in arcs {
        t[usize::from(*u)].insert(usize::from(*v));
    }
    t
}
