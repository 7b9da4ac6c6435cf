//! The bytes of a record: see specs/ and proofs/Theorems.antt.

#![tactic(auto)]

ghost use Rattle.record.specs.Tokens.{Tells};

// No record has more bytes.
pub const RECORD_ROOM: usize = 464;

// No tree of 128 jobs has more nodes.
pub const NODE_ROOM: usize = 256;

// The bits of a job's hours.
pub const HOURS_BITS: usize = 12;

// The bits of a leaf: a 0, 7 bits for its job, and its hours.
pub const LEAF_BITS: usize = 8 + HOURS_BITS;

// The most hours that a job may have.
pub const MOST_HOURS: u16 = (1 << HOURS_BITS) - 1;

// A node of a tree: a leaf's job, or how many children a group has, minus 1.
#[derive(Clone, Copy)]
pub enum Token {
    Leaf(u8),
    Chain(u8),
    Side(u8),
}

// Of a number, a leaf is its job, and a group is 256, 128 more for a side group, and its children minus 1.
impl From<u16> for Token {
    ghost from_gives = { λ x t. Tells x t };

    fn from(number: u16) -> Token {
        if number < 256 {
            Token::Leaf(number as u8)
        } else if number < 384 {
            Token::Chain((number % 128) as u8)
        } else {
            Token::Side((number % 128) as u8)
        }
    }
}
