//! A tree on the way: its lists, and how far they are filled.
ghost use Rattle.std.specs.Prelude.{◌≤◌, ◌≡◌, length};

use crate::parts::Parts;
use crate::stack::Entry;
use record::NODE_ROOM;

// How far a tree is written: sets on the stack, fields, groups, and jobs in the forward sequence. Handed from step to
// step apart from the lists, since the numbers stay in registers so: as fields beside arrays they make the writing 5 to
// 12 % slower (bench/writer).
#[derive(Clone, Copy)]
pub struct Progress {
    pub height: usize,
    pub count: usize,
    pub groups: usize,
    pub placed: usize,
    ghost low: { height ≤ 128 },
}

// The lists of a tree on the way: the sets that are still to be taken apart, the parts of one, the fields and the two
// sequences.
#[derive(Drop)]
pub struct Draft {
    pub entries: [Entry; 128],
    pub parts: Parts,
    pub fields: [u16; NODE_ROOM],
    pub forward: [u8; 128],
    pub reverse: [u8; 128],
    ghost rows: { length entries ≡ 128 },
}
