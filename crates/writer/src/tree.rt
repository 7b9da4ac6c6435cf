//! The canonical tree of an order, written as its fields, node before children, from a stack of sets still to be taken
//! apart.
ghost use Rattle.std.specs.Prelude.{ℕ, ◌+◌, ◌-◌, ◌<◌, ◌≤◌, ◌≡◌};
ghost use Rattle.relation.specs.Table.{holds, Inside};
ghost use Rattle.poset.specs.Order.{Strict};
ghost use Rattle.poset.specs.Decompose.{tree_of};
ghost use Rattle.writer.specs.Parts.{size_of};
ghost use Rattle.writer.specs.Shapes.{shape};
ghost use Rattle.writer.specs.Stack.{group_field_of};
ghost use Rattle.writer.specs.Turns.{state_at, state, Blank, TopRoom, SpreadRoom, Grouped, Leafed, Rooted, Stepped};

use crate::block::Block;
use crate::compared::Compared;
use crate::draft::{Draft, Progress};
use crate::parts::Parts;
use crate::stack::Entry;
use crate::{compared, stack};
use record::NODE_ROOM;
use relation::set::JobSet;

// The field of a group: 256, 128 for a parallel group, and its children minus 1.
// A number, made of a bool, as `group_field_of` says it; `Shape` has 16 bits a field.
fn group_field(series: bool, children: usize) -> u16
    requires { (0 < children) × (children ≤ 128) }
    ensures { result ≡ group_field_of series (children - 1) }
{
    if series {
        ((256 + (children - 1)) % 65536) as u16
    } else {
        ((384 + (children - 1)) % 65536) as u16
    }
}

// A tree: its fields and groups, and the two sequences. Lists with a count: fixed memory, no heap.
#[derive(Clone, Copy)]
pub struct Shape {
    pub fields: [u16; NODE_ROOM],
    pub count: usize,
    pub groups: usize,
    pub forward: [u8; 128],
    pub reverse: [u8; 128],
}

impl Draft {
    // A single job, as a leaf: its field, and its place in both sequences.
    fn put_leaf(&mut self, e: Entry, p: Progress) -> Progress
        requires room { TopRoom e (state self.old p) }
        requires one { size_of e.set ≡ 1 }
        ensures { Leafed e (state self.old p) (state self.new result) }
    {
        let set = e.set;
        let job = set.jobs.smallest();
        self.fields[p.count] = (job % 65536) as u16;
        self.forward[p.placed] = (job % 256) as u8;
        self.reverse[e.start] = (job % 256) as u8;
        Progress {
            height: p.height,
            count: p.count + 1,
            groups: p.groups,
            placed: p.placed + 1,
        }
    }

    // A set of so many parts, which are listed, as a group: its field, and the parts in its place.
    fn open(&mut self, e: Entry, count: usize, p: Progress) -> Progress
        requires { SpreadRoom count self.old.parts.list e (state self.old p) }
        ensures { Grouped count self.old.parts.list e (state self.old p) (state self.new result) }
    {
        self.fields[p.count] = group_field(e.series, count);
        let height = stack::spread(&mut self.entries, p.height, e, &self.parts.list[..count]);
        Progress {
            height,
            count: p.count + 1,
            groups: p.groups + 1,
            placed: p.placed,
        }
    }

    // All jobs; if they come apart as a series, they become the root group.
    fn begin(&mut self, order: &Compared) -> Progress
        requires { Blank (state_at self.old 0 0 0 0) }
        ensures { Rooted order.now.n (holds order.now.free.now) (holds order.now.under.now)
            (state_at self.old 0 0 0 0) (state self.new result) }
    {
        let all = Block::below(order.n);
        let count = self.parts.split_as(order, true, all);
        let root = Entry {
            set: all,
            start: 0,
            series: 1 < count,
        };
        if count < 2 {
            self.entries[0] = root;
            return Progress {
                height: 1,
                count: 0,
                groups: 0,
                placed: 0,
            };
        }
        let p = Progress {
            height: 0,
            count: 0,
            groups: 0,
            placed: 0,
        };
        self.open(root, count, p)
    }

    // A set is put as a leaf, or becomes a group; or it cannot be taken apart, as its kind asks.
    fn turn(&mut self, order: &Compared, e: Entry, p: Progress) -> Option<Progress>
        requires { TopRoom e (state self.old p) }
        ensures { Stepped (holds order.now.tied.now) (holds order.now.free.now) (holds order.now.under.now)
            e (state self.old p) self.new result }
    {
        let set = e.set;
        if set.size == 1 {
            return Some(self.put_leaf(e, p));
        }
        let count = self.parts.split_as(order, e.series, set);
        if count < 2 {
            return None;
        }
        Some(self.open(e, count, p))
    }
}

// The canonical tree of an order, if it has one, from its root on, one set of the stack after another. A set of two
// jobs or more that cannot be taken apart, as its kind asks, has an N.
pub fn shape_of(after: [JobSet; 128], under: &[JobSet; 128], n: usize) -> Option<Shape>
    requires n_nonzero { (0 < n) × (n ≤ 128) }
    requires strict { Strict n (holds after) }
    requires inside { Inside n after }
    requires by_index { (u v : ℕ) → holds under.now u v ≡ holds after v u }
    ensures { result ≡ shape (tree_of n (holds after)) }
{
    let mut tied = [JobSet::EMPTY; 128];
    let mut free = [JobSet::EMPTY; 128];
    compared::compare(&after, under, n, &mut tied, &mut free);
    let order = Compared {
        n,
        tied: &tied,
        free: &free,
        under,
    };
    let none = Block::below(0);
    let blank = Entry {
        set: none,
        start: 0,
        series: false,
    };
    let mut draft = Draft {
        entries: [blank; 128],
        parts: Parts {
            list: [none; 128],
            numbers: [0; 128],
        },
        fields: [0; NODE_ROOM],
        forward: [0; 128],
        reverse: [0; 128],
    };
    let mut p = draft.begin(&order);
    while 0 < p.height {
        p.height -= 1;
        let e = draft.entries[p.height];
        p = draft.turn(&order, e, p)?;
    }
    let fields = draft.fields;
    let forward = draft.forward;
    let reverse = draft.reverse;
    Some(Shape {
        fields,
        count: p.count,
        groups: p.groups,
        forward,
        reverse,
    })
}
