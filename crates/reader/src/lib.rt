//! A record read back: its job count, groups, sequences and hours, or its nodes, or that the bytes are no record; and
//! the order of the sequences.

#![tactic(auto)]

pub mod ahead;
mod groups;
mod listing;
mod nodes;
mod parts;

ghost use Rattle.std.specs.Prelude.{◌≡◌, ◌≤◌, option_map, replicate};
ghost use Rattle.record.specs.Bits.{AllBelow};
ghost use Rattle.record.specs.Decode.{decode};
ghost use Rattle.reader.specs.Answer.{reading, nodes};
ghost use Rattle.reader.specs.Parts.{walk};
ghost use Rattle.reader.specs.Whole.{Blank, WholeRead};
ghost use Rattle.poset.specs.Areas.{padded};

use groups::{place, tree};
use listing::list_nodes;
use nodes::{field, filled};
use parts::{Lists, Part};
use record::{NODE_ROOM, RECORD_ROOM};

// The job count, the number of groups, the sequences and the hours of each job, whose entries from the count on are 0.
// Lists with a count: fixed memory, no heap.
#[derive(Clone, Copy)]
pub struct Reading {
    pub count: usize,
    pub groups: usize,
    pub forward: [u8; 128],
    pub reverse: [u8; 128],
    pub hours: [u16; 128],
}

// The `count` jobs from `first` on, each followed by its next. Written by index: of a part of an array that is written
// through an iterator a proof knows no element.
fn in_turn(next: &[u8; 128], first: usize, count: usize) -> [u8; 128]
    requires { (count ≤ 128) × AllBelow 128 (walk next.now count first) }
    ensures { result ≡ padded (walk next.now count first) }
{
    let mut jobs = [0u8; 128];
    let mut job = first;
    for i in 0..count {
        jobs[i] = job as u8;
        job = usize::from(next[job]);
    }
    jobs
}

// The part that the tree of a record is, if the bytes are one; then the lists, lent as zeros, are filled.
fn read_whole(bytes: &[u8], lists: &mut Lists) -> Option<Part>
    requires { Blank lists.old }
    ensures { WholeRead bytes.now lists.new result }
{
    if bytes.len() == 0 || bytes.len() > RECORD_ROOM {
        return None;
    }
    let count = field(bytes, 0, 7) + 1;
    let part = tree(bytes, count as u8, lists)?;
    if usize::from(part.done) != count {
        return None;
    }
    if !filled(bytes, place(part.done, part.groups)) {
        return None;
    }
    Some(part)
}

// No next job. Never inlined: as one part of blank lists these zeros would be a call of C's `memset`.
#[inline(never)]
fn no_jobs() -> [u8; 128]
    ensures { result ≡ replicate 128 0 }
{
    [0; 128]
}

// Reads a record, if the bytes are one.
pub fn read_record(bytes: &[u8]) -> Option<Reading>
    ensures { result ≡ option_map reading (decode bytes.now) }
{
    let mut lists = Lists {
        next: no_jobs(),
        ..Lists::new()
    };
    let part = read_whole(bytes, &mut lists)?;
    let count = usize::from(part.done);
    let groups = usize::from(part.groups);
    let first = usize::from(part.first);
    let reverse = in_turn(&lists.next, first, count);
    let forward = lists.forward;
    let hours = lists.hours;
    Some(Reading {
        count,
        groups,
        forward,
        reverse,
        hours,
    })
}

// The job count, how many nodes the tree has, these in their order, node before children, as tokens (a leaf is its
// job; a group is 256, 128 for a side group, and its children minus 1), and the hours of each job; the entries after
// them are 0. Lists with a count: fixed memory, no heap.
#[derive(Clone, Copy)]
pub struct NodeList {
    pub jobs: usize,
    pub count: usize,
    pub tokens: [u16; NODE_ROOM],
    pub hours: [u16; 128],
}

// Reads the nodes of a record, if the bytes are one.
pub fn read_nodes(bytes: &[u8]) -> Option<NodeList>
    ensures { result ≡ option_map nodes (decode bytes.now) }
{
    let mut lists = Lists::new();
    let part = read_whole(bytes, &mut lists)?;
    let jobs = usize::from(part.done);
    let groups = usize::from(part.groups);
    let count = jobs + groups;
    let tokens = list_nodes(bytes, count);
    let hours = lists.hours;
    Some(NodeList {
        jobs,
        count,
        tokens,
        hours,
    })
}
