//! The readers of groups. Inside a series group (document 01: a chain) stand leaves and parallel groups, inside a
//! parallel group (a side group) leaves and series groups, so the two readers call each other, each over a reader of
//! one child; from the one reader to the other the bits left fall. A record has fewer groups than jobs, so reading
//! stops at a group too many.
//!
//! The two are twins by need: one reader whose kind is an argument reads a record of small groups in 1.25 times the
//! time, and of a reader with a const parameter, which would call itself at the other constant, the prover makes no
//! proof.
ghost use Rattle.std.specs.Prelude.{◌<◌, ◌≡◌};
ghost use Rattle.poset.specs.Tree.{series, parallel};
ghost use Rattle.record.specs.Bits.{bits_of};
ghost use Rattle.reader.specs.Parts.{place, Ready, TreeRead, ChildRead, ChildrenRead};

use crate::nodes::{Node, node_at};
use crate::parts::{Lists, Part, outranks};

// Where the next node begins. The two counts stay two arguments: with a struct of both a reading takes up to 1.15
// times the time.
pub fn place(done: u8, groups: u8) -> usize
    ensures { result ≡ place done groups }
{
    7 + record::LEAF_BITS * usize::from(done) + 9 * usize::from(groups)
}

// `more` + 1 children of a chain.
// Here and below `bytes` and `count` stay two arguments: a struct of a record's bytes and jobs names them no better.
#[cycle(groups)]
fn chain(bytes: &[u8], count: u8, more: u8, done: u8, groups: u8, lists: &mut Lists) -> Option<Part>
    requires { (more < 128) × Ready bytes.now count done groups lists.old }
    ensures { ChildrenRead series more (bits_of bytes.now) count done groups lists.old lists.new result }
{
    let mut part = None;
    let mut here = done;
    let mut there = groups;
    for _i in 0..more + 1 {
        let child = chain_child(bytes, count, here, there, lists)?;
        let longer = match part {
            None => child,
            Some(read) => lists.joined::<true>(read, child),
        };
        part = Some(longer);
        here = child.done;
        there = child.groups;
    }
    part
}

// A child of a chain: a leaf or a side group.
#[cycle(groups)]
fn chain_child(bytes: &[u8], count: u8, done: u8, groups: u8, lists: &mut Lists) -> Option<Part>
    requires { Ready bytes.now count done groups lists.old }
    ensures { ChildRead series (bits_of bytes.now) count done groups lists.old lists.new result }
{
    match node_at(bytes, place(done, groups))? {
        Node::Leaf(job, hours) => lists.leaf(count, job, hours, done, groups),
        Node::Chain(_) => None,
        Node::Side(more) => {
            if groups + 1 >= count {
                return None;
            }
            side(bytes, count, more, done, groups + 1, lists)
        }
    }
}

// `more` + 1 children of a side group, each going ahead of the next. Of the one read last it keeps how many jobs it
// has and the smallest.
#[cycle(groups)]
fn side(bytes: &[u8], count: u8, more: u8, done: u8, groups: u8, lists: &mut Lists) -> Option<Part>
    requires { (more < 128) × Ready bytes.now count done groups lists.old }
    ensures { ChildrenRead parallel more (bits_of bytes.now) count done groups lists.old lists.new result }
{
    let mut part = None;
    let mut size = 0;
    let mut least = 0;
    let mut here = done;
    let mut there = groups;
    for _i in 0..more + 1 {
        let child = side_child(bytes, count, here, there, lists)?;
        let jobs = child.done - here;
        let longer = match part {
            None => child,
            Some(read) => {
                if !outranks(size, least, jobs, child.least) {
                    return None;
                }
                lists.joined::<false>(read, child)
            }
        };
        part = Some(longer);
        size = jobs;
        least = child.least;
        here = child.done;
        there = child.groups;
    }
    part
}

// A child of a side group: a leaf or a chain.
#[cycle(groups)]
fn side_child(bytes: &[u8], count: u8, done: u8, groups: u8, lists: &mut Lists) -> Option<Part>
    requires { Ready bytes.now count done groups lists.old }
    ensures { ChildRead parallel (bits_of bytes.now) count done groups lists.old lists.new result }
{
    match node_at(bytes, place(done, groups))? {
        Node::Leaf(job, hours) => lists.leaf(count, job, hours, done, groups),
        Node::Chain(more) => {
            if groups + 1 >= count {
                return None;
            }
            chain(bytes, count, more, done, groups + 1, lists)
        }
        Node::Side(_) => None,
    }
}

// The tree after the job count. One that is no chain is read as the only child of one, so that the side reader is
// called from one place.
pub fn tree(bytes: &[u8], count: u8, lists: &mut Lists) -> Option<Part>
    requires { Ready bytes.now count 0 0 lists.old }
    ensures { TreeRead (bits_of bytes.now) count 0 0 lists.old lists.new result }
{
    match node_at(bytes, 7)? {
        Node::Chain(more) => {
            if count == 1 {
                return None;
            }
            chain(bytes, count, more, 0, 1, lists)
        }
        _ => chain(bytes, count, 0, 0, 0, lists),
    }
}
