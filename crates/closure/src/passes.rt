//! Warshall's passes, one through each job: they serve a relation with a cycle too.
ghost use Rattle.std.specs.Prelude.{ℕ, ◌<◌, ◌≤◌, ◌≡◌, true, false, ◌&&◌, ◌||◌, length, get_or};
ghost use Rattle.poset.specs.Lists.{exists, keep, below};
ghost use Rattle.poset.specs.Order.{via};
ghost use Rattle.relation.specs.Table.{bit, has, holds, Inside};
ghost use Rattle.closure.specs.Joins.{joins_at, pass_joins};
ghost use Rattle.closure.specs.Columns.{columns, Joins};

use relation::set::{self, JobSet};

// The words of the rows below n into two columns.
fn split(t: &[JobSet; 128], low: &mut [u64; 128], high: &mut [u64; 128], n: usize)
    requires n_bound { (n ≤ 128) × (length low.old ≡ 128) × (length high.old ≡ 128) }
    requires inside { Inside n t.now }
    requires by_index { (u : ℕ) → (get_or low.old u 0 ≡ 0) × (get_or high.old u 0 ≡ 0) }
    ensures low_len { (length low.new ≡ 128) × (length high.new ≡ 128) }
    ensures by_index_2 { (u v : ℕ) → columns low.new high.new u v ≡ holds t.now u v }
{
    for i in 0..n {
        let [first, second] = t[i].words();
        low[i] = first;
        high[i] = second;
    }
}

// The table of the rows below n whose words two columns have.
fn table(low: &[u64; 128], high: &[u64; 128], n: usize) -> [JobSet; 128]
    requires n_bound { n ≤ 128 }
    requires by_index { (u v : ℕ) → columns low.now high.now u v ≡ true → u < n }
    ensures { (u v : ℕ) → holds result u v ≡ columns low.now high.now u v }
{
    let mut r = [JobSet::EMPTY; 128];
    for i in 0..n {
        r[i] = JobSet::from_words([low[i], high[i]]);
    }
    r
}

// Where a word of a column has a bit, the word a goes into it, and the word b into the one beside it in the other
// column. How many have it.
fn spread(
    col: &mut [u64; 128],
    other: &mut [u64; 128],
    at: usize,
    a: u64,
    b: u64,
    n: usize,
) -> usize
    requires n_bound { (n ≤ 128) × (at < 64) × (length col.old ≡ 128) × (length other.old ≡ 128) }
    requires by_index { (u : ℕ) → n ≤ u → bit (get_or col.old u 0) at ≡ false }
    ensures col_len { (length col.new ≡ 128) × (length other.new ≡ 128) }
    ensures joins { Joins col.old at a col.old col.new }
    ensures joins_2 { Joins col.old at b other.old other.new }
    ensures value { result ≡ length (keep (λ u. bit (get_or col.old u 0) at) (below n)) }
{
    let mut joins = 0;
    for i in 0..n {
        let word = col[i];
        let tested = word >> at & 1;
        let m = set::mask(tested == 1);
        col[i] = word | a & m;
        other[i] = other[i] | b & m;
        joins += tested as usize;
    }
    joins
}

// One pass: the row of k joined to the row of each job that is before k. How many joins it takes: none where the row
// is empty.
fn pass(low: &mut [u64; 128], high: &mut [u64; 128], k: usize, n: usize) -> usize
    requires n_bound { (n ≤ 128) × (k < n) × (length low.old ≡ 128) × (length high.old ≡ 128) }
    requires by_index { (u v : ℕ) → columns low.old high.old u v ≡ true → (u < n) × (v < n) }
    ensures low_len { (length low.new ≡ 128) × (length high.new ≡ 128) }
    ensures by_index_2 { (u v : ℕ) → columns low.new high.new u v
        ≡ (columns low.old high.old u v
        || (columns low.old high.old u k && columns low.old high.old k v)) }
    ensures value { result ≡ joins_at n (columns low.old high.old) k }
{
    let a = low[k];
    let b = high[k];
    if !JobSet::from_words([a, b]).inhabited() {
        return 0;
    }
    if k < 64 {
        spread(low, high, k, a, b, n)
    } else {
        spread(high, low, k - 64, b, a, n)
    }
}

// The range of a relation: the jobs that some job is before.
fn range(t: &[JobSet; 128], n: usize) -> JobSet
    requires { n ≤ 128 }
    ensures { (v : ℕ) → has result v ≡ exists (λ u. holds t.now u v) (below n) }
{
    let mut jobs = JobSet::EMPTY;
    for row in &t[..n] {
        jobs = jobs.union(*row);
    }
    jobs
}

// The transitive closure among the jobs below n, and how many joins it takes. Within, a column of words lies
// together, for several rows at a time. A pass through a job that no job is before would change nothing. The count
// goes into a lent number: in an Option or a struct beside the rows the closure is up to an eighth slower.
pub fn passed(t: &[JobSet; 128], n: usize, joins: &mut usize) -> [JobSet; 128]
    requires n_bound { n ≤ 128 }
    requires inside { Inside n t.now }
    ensures by_index { (u v : ℕ) → holds result u v ≡ via (holds t.now) n u v }
    ensures joins_after { joins.new ≡ pass_joins n (holds t.now) }
{
    let mut low = [0u64; 128];
    let mut high = [0u64; 128];
    split(t, &mut low, &mut high, n);
    let reached = range(t, n);
    let mut count = 0;
    for k in 0..n {
        if reached.contains(k) {
            count += pass(&mut low, &mut high, k, n);
        }
    }
    *joins = count;
    table(&low, &high, n)
}
