//! The first N of an order: jobs a, b, c, d with a before c, b before c and d, and a b, c d, a d incomparable.
ghost use Rattle.std.specs.Prelude.{ℕ, ◌-◌, ◌<◌, ◌≤◌, ◌≡◌, true, false, ◌&&◌};
ghost use Rattle.std.specs.Prelude.{Some};
ghost use Rattle.poset.specs.Lists.{exists, first, below, only_if};
ghost use Rattle.poset.specs.Order.{is_n, first_n_of};
ghost use Rattle.relation.specs.Table.{has, holds, members, apart, Twins, Inside};

use crate::set::JobSet;

// The jobs a, b, c and d of an N.
pub type FourJobs = (usize, usize, usize, usize);

// The table of the incomparable jobs: for each job those below n that are not itself, nor after it, nor before it.
fn incomparabilities(after: &[JobSet; 128], under: &[JobSet; 128], n: usize) -> [JobSet; 128]
    requires n_bound { n ≤ 128 }
    requires by_index { (u v : ℕ) → holds under.now u v ≡ holds after.now v u }
    ensures { (u v : ℕ) → holds result u v ≡ apart n (holds after.now) u v }
{
    let all = JobSet::all_below(n);
    let mut r = [JobSet::EMPTY; 128];
    for u in 0..n {
        let near = JobSet::only(u).union(after[u].union(under[u]));
        r[u] = all.difference(near);
    }
    r
}

// The smallest job of cs whose row has a job of ds.
fn first_meeting(t: &[JobSet; 128], cs: JobSet, ds: JobSet) -> Option<usize>
    ensures { result ≡ first (λ c. only_if (exists (λ d. has ds d && holds t.now c d) (below 128)) c) (members cs) }
{
    let mut rest = cs;
    while let Some(c) = rest.pop_first() {
        if ds.intersection(t[c]).inhabited() {
            return Some(c);
        }
    }
    None
}

// As first_meeting, one word of cs after the other, which is quicker: the other word is known to be 0.
fn first_by_words(t: &[JobSet; 128], cs: JobSet, ds: JobSet) -> Option<usize>
    ensures { result ≡ first (λ c. only_if (exists (λ d. has ds d && holds t.now c d) (below 128)) c) (members cs) }
{
    if let Some(c) = first_meeting(t, cs.low(), ds) {
        return Some(c);
    }
    first_meeting(t, cs.high(), ds)
}

// The jobs a, b, c and the smallest of a set, if there is one.
fn with_smallest(a: usize, b: usize, c: usize, s: JobSet) -> Option<FourJobs>
    ensures { result ≡ first (λ d. Some (a, b, c, d)) (members s) }
{
    if !s.inhabited() {
        return None;
    }
    Some((a, b, c, s.smallest()))
}

// The first N with a and b: its c is among cs, which both are before, and its d among ds, which are after b and
// incomparable to a.
fn first_with_b(
    after: &[JobSet; 128],
    free: &[JobSet; 128],
    n: usize,
    a: usize,
    b: usize,
) -> Option<FourJobs>
    requires n_bound { (n ≤ 128) × (apart n (holds after.now) a b ≡ true) }
    requires inside { Inside n after.now }
    requires by_index { (u v : ℕ) → holds free.now u v ≡ apart n (holds after.now) u v }
    ensures { result
        ≡ first (λ c. first (λ d. only_if (is_n (holds after.now) a b c d) (a, b, c, d)) (below n)) (below n) }
{
    let ds = after[b].intersection(free[a]);
    let cs = after[a].intersection(after[b]);
    if !ds.inhabited() {
        return None;
    }
    let c = first_by_words(free, cs, ds)?;
    with_smallest(a, b, c, ds.intersection(free[c]))
}

// The first N with a: its b is incomparable to a.
fn first_with_a(after: &[JobSet; 128], free: &[JobSet; 128], n: usize, a: usize) -> Option<FourJobs>
    requires n_bound { (n ≤ 128) × (a < n) }
    requires inside { Inside n after.now }
    requires by_index { (u v : ℕ) → holds free.now u v ≡ apart n (holds after.now) u v }
    ensures { result
        ≡ first (λ b. first (λ c. first (λ d. only_if (is_n (holds after.now) a b c d) (a, b, c, d)) (below n)) (below n)) (below n) }
{
    let mut bs = free[a];
    while let Some(b) = bs.pop_first() {
        if let Some(jobs) = first_with_b(after, free, n, a, b) {
            return Some(jobs);
        }
    }
    None
}

// Whether a stands to every job as the one numbered just below it does.
fn twin(after: &[JobSet; 128], under: &[JobSet; 128], a: usize) -> bool
    requires a_bound { a < 128 }
    requires by_index { (u v : ℕ) → holds under.now u v ≡ holds after.now v u }
    ensures { result ≡ true → (0 < a) × Twins (holds after.now) (a - 1) a }
{
    if a == 0 {
        return false;
    }
    after[a - 1].same(after[a]) && under[a - 1].same(under[a])
}

// As first_with_a, where no N begins with a job below a: then none begins with a twin of the one just below it either.
fn first_unless_twin(
    after: &[JobSet; 128],
    under: &[JobSet; 128],
    free: &[JobSet; 128],
    n: usize,
    a: usize,
) -> Option<FourJobs>
    requires n_bound { (n ≤ 128) × (a < n) }
    requires inside { Inside n after.now }
    requires by_index { (u v : ℕ) → holds under.now u v ≡ holds after.now v u }
    requires by_index_2 { (u v : ℕ) → holds free.now u v ≡ apart n (holds after.now) u v }
    requires by_index_3 { (i : ℕ) → i < a → (b c d : ℕ) → b < n → c < n → d < n → is_n (holds after.now) i b c d ≡ false }
    ensures { result
        ≡ first (λ b. first (λ c. first (λ d. only_if (is_n (holds after.now) a b c d) (a, b, c, d)) (below n)) (below n)) (below n) }
{
    if twin(after, under, a) {
        return None;
    }
    first_with_a(after, free, n, a)
}

// The first N of the order that one table holds and the other holds transposed.
pub fn first_n(after: [JobSet; 128], under: &[JobSet; 128], n: usize) -> Option<FourJobs>
    requires n_bound { n ≤ 128 }
    requires inside { Inside n after }
    requires by_index { (u v : ℕ) → holds under.now u v ≡ holds after v u }
    ensures { result ≡ first_n_of n (holds after) }
{
    let free = incomparabilities(&after, under, n);
    for a in 0..n {
        if let Some(jobs) = first_unless_twin(&after, under, &free, n, a) {
            return Some(jobs);
        }
    }
    None
}
