//! Areas lent for what is written.
ghost use Rattle.std.specs.Prelude.{◌≤◌, ◌≡◌, length, take};
ghost use Rattle.poset.specs.Areas.{overlay};
ghost use Rattle.record.specs.Layout.{most_record_bytes};

// The first bytes of a record into an area that has room for them; the area's other bytes stay.
pub fn copy(bytes: &[u8; record::RECORD_ROOM], count: usize, area: &mut [u8])
    requires { (count ≤ most_record_bytes) × (length bytes.now ≡ most_record_bytes) × (count ≤ length area.old) }
    ensures { area.new ≡ overlay (take count bytes.now) area.old }
{
    area[..count].copy_from_slice(&bytes[..count]);
}
