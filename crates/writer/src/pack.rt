//! Bit fields, one after another, as bytes.
ghost use mathlib.Core.List.{List, [], ◌++◌, flat_map};
ghost use Rattle.std.specs.Prelude.{ℕ, ◌+◌, ◌*◌, ◌-◌, ◌<◌, ◌≤◌, ◌^◌, length};
ghost use Rattle.record.specs.Bits.{AllBelow, bits};
ghost use Rattle.record.specs.Layout.{hours_bits, most_record_bytes};
ghost use Rattle.record.specs.Tokens.{field_bits};
ghost use Rattle.writer.specs.Packing.{Holds, Ready, Takes, Moves, Puts, Ends};

// So many whole bytes, and some bits more in hand: the last ones of a value. Handed from step to step apart from the
// bytes, so that it stays in registers, as Progress does.
#[derive(Clone, Copy)]
pub struct Packing {
    pub at: usize,
    pub have: usize,
    pub value: usize,
}

// So many bits more in hand.
fn taken(p: Packing, width: usize, field: usize) -> Packing
    requires { (p.have + width < 64) × (field < 2 ^ width) }
    ensures { Takes (bits width field) p result }
{
    Packing {
        at: p.at,
        have: p.have + width,
        value: (p.value << width) + field,
    }
}

// The first eight bits in hand go to their place as a byte.
fn moved(bytes: &mut [u8; record::RECORD_ROOM], p: Packing) -> Packing
    requires { (8 ≤ p.have) × (p.have < 64) × (p.at < most_record_bytes) }
    ensures { Moves bytes.old p bytes.new result }
{
    let at = p.at;
    let rest = p.have - 8;
    bytes[at] = ((p.value >> rest) % 256) as u8;
    Packing {
        at: at + 1,
        have: rest,
        value: p.value,
    }
}

// The same, if there are eight.
fn moved_if_full(bytes: &mut [u8; record::RECORD_ROOM], p: Packing) -> Packing
    requires { (p.have < 16) × (8 ≤ p.have → p.at < most_record_bytes) }
    ensures { Puts [] bytes.old p bytes.new result }
{
    if p.have < 8 {
        return p;
    }
    moved(bytes, p)
}

// One field more: a leaf with its job's hours, or a group.
// The field is a number, as `field_bits` has it: its bits go into the record as they are.
fn put_field(
    bytes: &mut [u8; record::RECORD_ROOM],
    p: Packing,
    field: usize,
    hours: &[u16; 128],
) -> Packing
    requires ready { Ready p (length (field_bits hours.now field)) }
    requires all_below { AllBelow (2 ^ hours_bits) hours.now }
    ensures { Puts (field_bits hours.now field) bytes.old p bytes.new result }
{
    if field < 128 {
        let job = taken(p, 8, field);
        let leaf = taken(job, record::HOURS_BITS, usize::from(hours[field]));
        let one = moved(bytes, leaf);
        let two = moved(bytes, one);
        moved_if_full(bytes, two)
    } else {
        let group = taken(p, 9, 256 + field % 256);
        let one = moved(bytes, group);
        moved_if_full(bytes, one)
    }
}

// The bits in hand, filled with zeros, as a last byte; and how many bytes there are.
fn finish(bytes: &mut [u8; record::RECORD_ROOM], p: Packing) -> usize
    requires { Ready p 0 }
    ensures { (bs : List ℕ) → Holds bs bytes.old p → Ends bs bytes.new result }
{
    let at = p.at;
    let have = p.have;
    if have == 0 {
        return at;
    }
    bytes[at] = ((p.value << (8 - have)) % 256) as u8;
    at + 1
}

#[derive(Clone, Copy)]
pub struct Packed {
    pub bytes: [u8; record::RECORD_ROOM],
    pub count: usize,
}

// The bytes of a record: 7 bits for the count of jobs minus 1, then the fields.
pub fn pack(n: usize, fields: &[u16], hours: &[u16; 128]) -> Packed
    requires n_nonzero { (0 < n) × (n ≤ 128) }
    requires fields_bound { 7 + length (flat_map (field_bits hours.now) fields.now) ≤ 8 * most_record_bytes }
    requires all_below { AllBelow (2 ^ hours_bits) hours.now }
    ensures { Ends (bits 7 (n - 1) ++ flat_map (field_bits hours.now) fields.now) result.bytes result.count }
{
    let mut bytes = [0; record::RECORD_ROOM];
    let mut p = Packing {
        at: 0,
        have: 7,
        value: n - 1,
    };
    for field in fields {
        p = put_field(&mut bytes, p, usize::from(*field), hours);
    }
    let count = finish(&mut bytes, p);
    Packed { bytes, count }
}
