//! Parts of a record: what is read of a tree or of the children of a group, and the work lists beside it.
ghost use Rattle.std.specs.Prelude.{◌≡◌, ◌≤◌, ◌<◌};
ghost use Rattle.poset.specs.Tree.{outranks};
ghost use Rattle.reader.specs.Parts.{kind_by, front, LeafRead, linked_part, linked_lists};
ghost use Rattle.reader.specs.Whole.{Blank};

// Of a part of a record: the leaves and the groups of the record up to its end, its smallest job, and the ends of its
// part of the reverse sequence.
#[derive(Clone, Copy)]
pub struct Part {
    pub done: u8,
    pub groups: u8,
    pub least: u8,
    pub first: u8,
    pub last: u8,
}

// What is filled while a tree is read: a mark for each job that was named, the forward sequence, and for each job the
// one after it in the reverse sequence, and its hours.
// `seen` has a byte a job, 1 for one that was named, as `LeafRead`, `Free` and `Blank` speak of it.
#[derive(Drop)]
pub struct Lists {
    pub seen: [u8; 128],
    pub forward: [u8; 128],
    pub next: [u8; 128],
    pub hours: [u16; 128],
}

impl Lists {
    pub fn new() -> Lists
        ensures { Blank result }
    {
        Lists {
            seen: [0; 128],
            forward: [0; 128],
            next: [0; 128],
            hours: [0; 128],
        }
    }

    // A leaf after `done` others: its job is below the count, and named for the first time.
    pub fn leaf(&mut self, count: u8, job: u8, hours: u16, done: u8, groups: u8) -> Option<Part>
        requires { count ≤ 128 }
        ensures { LeafRead count job hours done groups self.old self.new result }
    {
        if job >= count {
            return None;
        }
        if done >= count {
            return None;
        }
        let mark = usize::from(job);
        if self.seen[mark] != 0 {
            return None;
        }
        self.seen[mark] = 1;
        let place = usize::from(done);
        self.forward[place] = job;
        self.hours[mark] = hours;
        Some(Part {
            done: done + 1,
            groups,
            least: job,
            first: job,
            last: job,
        })
    }

    // The children of a group that were read, and the next one: in the reverse sequence it follows those of a chain,
    // and stands ahead of those of a side group.
    pub fn joined<const SERIES: bool>(&mut self, part: Part, child: Part) -> Part
        requires { (front (kind_by SERIES) part child).last < 128 }
        ensures value { result ≡ linked_part (kind_by SERIES) part child }
        ensures lists { self.new ≡ linked_lists (kind_by SERIES) self.old part child }
    {
        let (front, behind) = if SERIES { (part, child) } else { (child, part) };
        self.next[usize::from(front.last)] = behind.first;
        Part {
            done: child.done,
            groups: child.groups,
            least: part.least.min(child.least),
            first: front.first,
            last: behind.last,
        }
    }
}

// Whether a child of a side group with so many jobs and this smallest one goes ahead of the next: most jobs first, of
// as many by the smallest.
pub fn outranks(size: u8, least: u8, jobs: u8, smallest: u8) -> bool
    ensures { result ≡ outranks size least jobs smallest }
{
    if size == jobs {
        least < smallest
    } else {
        jobs < size
    }
}
