//! Arcs as a flat list, two numbers for each: what is wrong with them, and the table that they make.
ghost use Rattle.std.specs.Prelude.{ℕ, Bool, ◌+◌, ◌*◌, ◌≤◌, ◌<◌, ◌≡◌, ◌&&◌, ◌||◌, [], eqb, length, get_or};
ghost use Rattle.poset.specs.Lists.{exists};
ghost use Rattle.poset.specs.Order.{Arc, Within, arc};
ghost use Rattle.relation.specs.Table.{holds};
ghost use Rattle.relation.specs.Arcs.{pairs, place, outside, loop};

use crate::set::JobSet;

// The greatest number of a list, or 0. A loop with no exit in it, for several numbers at a time.
fn greatest(list: &[u16]) -> u16
    ensures { (i : ℕ) → get_or list.now i 0 ≤ result }
{
    let mut top = 0;
    for number in list {
        top = top.max(*number);
    }
    top
}

// Whether some arc leads from a job to itself. A loop with no exit in it, for several arcs at a time.
fn some_loop(arcs: &[u16]) -> bool
    ensures { result ≡ exists loop (pairs arcs.now) }
{
    let mut some = false;
    for k in 0..arcs.len() / 2 {
        if arcs[2 * k] == arcs[2 * k + 1] {
            some = true;
        }
    }
    some
}

// The place of the first arc that passes a test.
fn first_that<F: Fn(u16, u16) -> bool>(arcs: &[u16], test: F) -> Option<usize>
    requires { F.IsAlwaysCallable test }
    ensures { (p : Arc → Bool) → ((u v : ℕ) (b : Bool) → F.post test u v b → b ≡ p (u, v)) → result ≡ place p (pairs arcs.now) }
{
    for k in 0..arcs.len() / 2 {
        if test(arcs[2 * k], arcs[2 * k + 1]) {
            return Some(k);
        }
    }
    None
}

// The place of the first arc that names a job not below n.
pub fn first_outside(arcs: &[u16], n: u16) -> Option<usize>
    ensures { result ≡ place (outside n) (pairs arcs.now) }
{
    if greatest(arcs) < n {
        return None;
    }
    first_that(arcs, |u, v| u >= n || v >= n)
}

// The place of the first arc from a job to itself.
pub fn first_loop(arcs: &[u16]) -> Option<usize>
    ensures { result ≡ place loop (pairs arcs.now) }
{
    if !some_loop(arcs) {
        return None;
    }
    first_that(arcs, |u, v| u == v)
}

// The arc at place k into a table.
fn put(t: &mut [JobSet; 128], arcs: &[u16], k: usize)
    requires within { Within 128 (pairs arcs.now) }
    requires k_in_bounds { 2 * k + 1 < length arcs.now }
    ensures { (u v : ℕ) → holds t.new u v ≡ (holds t.old u v
        || (eqb (get_or arcs.now (2 * k) 0) u && eqb (get_or arcs.now (2 * k + 1) 0) v)) }
{
    let u = usize::from(arcs[2 * k]);
    let v = usize::from(arcs[2 * k + 1]);
    t[u].insert(v);
}

// The table of the arcs. A step takes one arc of each quarter, since arcs side by side are often of one row, and the
// second would wait for the first. The quarters are those of one arc more where that makes a multiple of four: the
// last is one arc short then, and the arcs at the ends of the others are put in after the loop. Where neither number
// is a multiple of four, quarters overlap.
pub fn table_of(arcs: &[u16]) -> [JobSet; 128]
    requires { Within 128 (pairs arcs.now) }
    ensures { (u v : ℕ) → holds result u v ≡ arc (pairs arcs.now) u v }
{
    let mut t = [JobSet::EMPTY; 128];
    let quarter = (arcs.len() / 2 + 1) / 4;
    let last = arcs.len() / 2 - 3 * quarter;
    for i in 0..last {
        put(&mut t, arcs, i);
        put(&mut t, arcs, quarter + i);
        put(&mut t, arcs, 2 * quarter + i);
        put(&mut t, arcs, 3 * quarter + i);
    }
    if last < quarter {
        put(&mut t, arcs, last);
        put(&mut t, arcs, quarter + last);
        put(&mut t, arcs, 2 * quarter + last);
    }
    t
}
