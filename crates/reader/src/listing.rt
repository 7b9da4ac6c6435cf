//! The nodes of a record in their order.
ghost use Rattle.std.specs.Prelude.{◌≡◌};
ghost use Rattle.poset.specs.Tree.{Tree};
ghost use Rattle.record.specs.Tokens.{tokens, listing};
ghost use Rattle.reader.specs.Nodes.{HasNodes};

use crate::nodes::field;
use record::{LEAF_BITS, NODE_ROOM};

// The `count` nodes of a record, as tokens. Where a node begins, 9 bits are a group's token, or 8 bits of a leaf, its
// job, and one of its hours.
// Tokens as numbers, 16 bits a node, as `listing` has them; from a `record::Token` no way leads back to a number.
pub fn list_nodes(bytes: &[u8], count: usize) -> [u16; NODE_ROOM]
    requires { (t : Tree) × HasNodes bytes.now count t }
    ensures { (t : Tree) → HasNodes bytes.now count t → result ≡ listing (tokens t) }
{
    let mut tokens = [0u16; NODE_ROOM];
    let mut at = 7;
    for i in 0..count {
        let x = field(bytes, at, 9);
        if x < 256 {
            tokens[i] = (x / 2) as u16;
            at += LEAF_BITS;
        } else {
            tokens[i] = x as u16;
            at += 9;
        }
    }
    tokens
}
