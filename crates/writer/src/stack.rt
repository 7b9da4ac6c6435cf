//! The sets of jobs that are still to be taken apart.
ghost use Rattle.std.specs.Prelude.{◌<◌, ◌≡◌, ◌+◌, ◌++◌, ◌≤◌, length};
ghost use Rattle.writer.specs.Parts.{size_of};
ghost use Rattle.writer.specs.Stack.{held, jobs_of, start_at, opened};

use crate::block::Block;

// A set of jobs, where it begins in the reverse sequence, and whether it is to become a series group.
// `series` is a bool, not an enum: `start_at`, `close_of` and `laid_out` speak of a Bool.
#[derive(Clone, Copy)]
pub struct Entry {
    pub set: Block,
    pub start: usize,
    pub series: bool,
}

impl Entry {
    // Where a part of the set begins in the reverse sequence, by its jobs and those of the parts after it. A series
    // goes from left to right there, a parallel group from right to left.
    pub fn start_of(&self, later: usize, size: usize) -> usize
        requires whole_bound { self.now.start + size_of self.now.set ≤ 128 }
        requires size_bound { later + size ≤ size_of self.now.set }
        ensures { result ≡ start_at self.now.series self.now.start (size_of self.now.set) later size }
    {
        if self.series {
            let set = &self.set;
            self.start + set.size - later - size
        } else {
            self.start + later
        }
    }
}

// The parts of an entry onto a stack of this height, the first on top: each is to become a group of the other kind. The
// height then.
pub fn spread(entries: &mut [Entry; 128], height: usize, e: Entry, parts: &[Block]) -> usize
    requires room { height + length parts.now ≤ 128 }
    requires fits { e.start + size_of e.set ≤ 128 }
    requires same_jobs { jobs_of parts.now ≡ size_of e.set }
    ensures value { result ≡ height + length parts.now }
    ensures rows { length entries.new ≡ 128 }
    ensures these { held entries.new result ≡ opened e parts.now ++ held entries.old height }
{
    let mut top = height;
    let mut later = 0;
    for i in (0..parts.len()).rev() {
        let set = parts[i];
        let size = set.size;
        let start = e.start_of(later, size);
        entries[top] = Entry {
            set,
            start,
            series: !e.series,
        };
        top += 1;
        later += size;
    }
    top
}
