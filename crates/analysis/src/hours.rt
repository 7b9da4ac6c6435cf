//! The hours of jobs.
ghost use Rattle.std.specs.Prelude.{◌≤◌, ◌≡◌, ltb, length};
ghost use Rattle.std.specs.List.{list_any};
ghost use Rattle.poset.specs.Areas.{padded};
ghost use Rattle.relation.specs.Arcs.{place};
ghost use Rattle.record.specs.Layout.{most_hours};

// More hours than a job may have.
fn large(hours: u16) -> bool
    ensures { result ≡ ltb most_hours hours }
{
    record::MOST_HOURS < hours
}

// Whether some job has more. A loop with no exit in it, for several jobs at a time.
fn some_large(hours: &[u16]) -> bool
    ensures { result ≡ list_any (ltb most_hours) hours.now }
{
    let mut some = false;
    for job in hours {
        if large(*job) {
            some = true;
        }
    }
    some
}

// The first job with more.
pub fn first_large(hours: &[u16]) -> Option<usize>
    ensures { result ≡ place (ltb most_hours) hours.now }
{
    if !some_large(hours) {
        return None;
    }
    hours.iter().position(|job| large(*job))
}

// The hours with an entry for each of 128 jobs.
pub fn padded(hours: &[u16]) -> [u16; 128]
    requires { length hours.now ≤ 128 }
    ensures { result ≡ padded hours.now }
{
    let mut all = [0; 128];
    all[..hours.len()].copy_from_slice(hours);
    all
}
