//! The order of two sequences: one job is before another where it stands ahead of it in both.
ghost use Rattle.std.specs.Prelude.{ℕ, ◌≤◌, ◌≡◌, ◌&&◌, length, take};
ghost use Rattle.poset.specs.Lists.{occurrences, ahead_in};
ghost use Rattle.relation.specs.Table.{holds};
ghost use Rattle.record.specs.Bits.{AllBelow};

use relation::set::JobSet;

// For each job those that stand later in a sequence, from the last job back.
fn later(jobs: &[u8]) -> [JobSet; 128]
    requires { AllBelow 128 jobs.now }
    ensures { (length result ≡ 128) × ((u v : ℕ) → holds result u v ≡ ahead_in u v jobs.now) }
{
    let mut rows = [JobSet::EMPTY; 128];
    let mut passed = JobSet::EMPTY;
    for job in jobs.iter().rev() {
        let job = usize::from(*job);
        rows[job] = passed;
        passed = passed.union(JobSet::only(job));
    }
    rows
}

// The table of the order that the first n entries of both sequences give, which have the same jobs, each once: the
// rows of the first, each cut down to what stands later in the second.
pub fn order_of(forward: &[u8; 128], reverse: &[u8; 128], n: usize) -> [JobSet; 128]
    requires n_bound { (n ≤ 128) × (length forward.now ≡ 128) × (length reverse.now ≡ 128) }
    requires all_below { AllBelow 128 (take n forward.now) × ((u : ℕ) → occurrences u (take n forward.now) ≤ 1)
        × ((u : ℕ) → occurrences u (take n reverse.now) ≡ occurrences u (take n forward.now)) }
    ensures { (u v : ℕ) → holds result u v
        ≡ (ahead_in u v (take n forward.now) && ahead_in u v (take n reverse.now)) }
{
    let mut rows = later(&forward[..n]);
    let mut behind = JobSet::EMPTY;
    for job in reverse[..n].iter().rev() {
        let job = usize::from(*job);
        rows[job] = rows[job].intersection(behind);
        behind = behind.union(JobSet::only(job));
    }
    rows
}
