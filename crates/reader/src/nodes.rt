//! The bit fields of a record.
ghost use Rattle.std.specs.Prelude.{◌≡◌, ◌+◌, ◌*◌, ◌≤◌, ◌<◌, length, drop};
ghost use Rattle.record.specs.Bits.{bits_of};
ghost use Rattle.record.specs.Layout.{most_record_bytes};
ghost use Rattle.record.specs.Decode.{fills};
ghost use Rattle.reader.specs.Fields.{FieldAt, LeafAt, NodeAt};

// What a node begins with: a leaf's job and its hours, or how many children a group has, minus 1.
#[derive(Clone, Copy)]
pub enum Node {
    Leaf(u8, u16),
    Chain(u8),
    Side(u8),
}

// The number in two bytes.
fn pair(bytes: &[u8], i: usize) -> usize
    requires { (i + 2 ≤ length bytes.now) × (length bytes.now ≤ most_record_bytes) }
    ensures { FieldAt (bits_of bytes.now) (8 * i) 16 result }
{
    usize::from(bytes[i]) * 256 + usize::from(bytes[i + 1])
}

// The number in the `width` bits from `at` on, of at most 9 bits: two bytes hold them.
pub fn field(bytes: &[u8], at: usize, width: usize) -> usize
    requires { (0 < width) × (width ≤ 9) × (at + width ≤ 8 * length bytes.now) × (length bytes.now ≤ most_record_bytes) }
    ensures { FieldAt (bits_of bytes.now) at width result }
{
    let i = at / 8;
    let end = at % 8 + width;
    if end <= 8 {
        return (usize::from(bytes[i]) >> (8 - end)) % (1usize << width);
    }
    (pair(bytes, i) >> (16 - end)) % (1usize << width)
}

// The number in as many bits from `at` on as a leaf has, if there are so many: four bytes hold them, or the last
// three. The second pair of the four is read first: with the pair that the three have too ahead of it, the compiler
// would not load the four at once.
fn leaf_at(bytes: &[u8], at: usize) -> Option<usize>
    requires { (at ≤ 8 * most_record_bytes) × (length bytes.now ≤ most_record_bytes) }
    ensures { LeafAt (bits_of bytes.now) at result }
{
    let i = at / 8;
    let end = at % 8 + record::LEAF_BITS;
    if i + 4 <= bytes.len() {
        let low = pair(bytes, i + 2);
        let four = pair(bytes, i) * 65536 + low;
        return Some((four >> (32 - end)) % (1usize << record::LEAF_BITS));
    }
    if 8 * bytes.len() < at + record::LEAF_BITS {
        return None;
    }
    let three = pair(bytes, i) * 256 + usize::from(bytes[i + 2]);
    Some((three >> (24 - end)) % (1usize << record::LEAF_BITS))
}

// The node at `at`, if there is one. No tree has fewer bits than a leaf, and no group one child.
pub fn node_at(bytes: &[u8], at: usize) -> Option<Node>
    requires { (at ≤ 8 * most_record_bytes) × (length bytes.now ≤ most_record_bytes) }
    ensures { NodeAt (bits_of bytes.now) at result }
{
    let x = leaf_at(bytes, at)?;
    let first = x >> record::HOURS_BITS;
    if first < 128 {
        let job = first as u8;
        let hours = (x % (1usize << record::HOURS_BITS)) as u16;
        return Some(Node::Leaf(job, hours));
    }
    let more = (x >> (record::HOURS_BITS - 1)) % 128;
    if more == 0 {
        return None;
    }
    if first < 192 {
        return Some(Node::Chain(more as u8));
    }
    Some(Node::Side(more as u8))
}

// Whether the bits from `at` on fill the last byte with zeros, and no byte follows.
pub fn filled(bytes: &[u8], at: usize) -> bool
    requires { (at ≤ 8 * length bytes.now) × (length bytes.now ≤ most_record_bytes) }
    ensures { result ≡ fills (drop at (bits_of bytes.now)) }
{
    let left = 8 * bytes.len() - at;
    if left == 0 {
        return true;
    }
    if left >= 8 {
        return false;
    }
    field(bytes, at, left) == 0
}
