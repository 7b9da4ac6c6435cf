//! The jobs of an order compared with one another.
ghost use Rattle.std.specs.Prelude.{ℕ, ◌<◌, ◌≤◌, ◌≡◌, ◌&&◌, ◌||◌, not, eqb, ltb, length};
ghost use Rattle.relation.specs.Table.{holds};
ghost use Rattle.writer.specs.Compared.{Tables};

use relation::set::JobSet;

// An order of n jobs: which are comparable, which incomparable, and which are before which.
#[derive(Clone, Copy)]
pub struct Compared<'a> {
    pub n: usize,
    pub tied: &'a [JobSet; 128],
    pub free: &'a [JobSet; 128],
    pub under: &'a [JobSet; 128],
    ghost tables: { Tables n (holds under.now) (holds tied.now) (holds free.now) },
    ghost rows: { length under.now ≡ 128 },
}

// Which jobs are comparable, and which incomparable, among those below n. Into two lists that are lent: handing them
// back copies 4,096 bytes, an eighth of the time of a small order.
pub fn compare(
    after: &[JobSet; 128],
    under: &[JobSet; 128],
    n: usize,
    tied: &mut [JobSet; 128],
    free: &mut [JobSet; 128],
)
    requires { n ≤ 128 }
    ensures by_index { (u v : ℕ) → u < n → holds tied.new u v
        ≡ (holds after.now u v || holds under.now u v) }
    ensures by_index_2 { (u v : ℕ) → u < n → holds free.new u v
        ≡ (ltb v n && (not (eqb u v) && not (holds after.now u v || holds under.now u v))) }
{
    let all = JobSet::all_below(n);
    for u in 0..n {
        let near = after[u].union(under[u]);
        let others = all.difference(JobSet::only(u));
        tied[u] = near;
        free[u] = others.difference(near);
    }
}
