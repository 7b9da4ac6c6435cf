//! The jobs of a run in a list.
ghost use Rattle.std.specs.Prelude.{ℕ, ◌≡◌, List};
ghost use Rattle.longest.specs.Stack.{Linked, Shown};

// How many, and these; then zeros: a list of a fixed length, since nothing is on the heap.
#[derive(Clone, Copy)]
pub struct Showing {
    pub count: usize,
    pub jobs: [u8; 128],
}

// The jobs from the first to the last, each followed by its next: a walk that ends at a job, so that no list or range
// is there to go over.
pub fn shown(next: &[u8; 128], first: u8, last: u8) -> Showing
    requires { (jobs : List ℕ) × Linked next.now first last jobs }
    ensures { (jobs : List ℕ) → Linked next.now first last jobs → Shown jobs result }
{
    let mut jobs = [0u8; 128];
    let mut count = 0;
    let mut present = first;
    while present != last {
        jobs[count] = present;
        present = next[usize::from(present)];
        count += 1;
    }
    jobs[count] = last;
    Showing {
        count: count + 1,
        jobs: jobs,
    }
}
