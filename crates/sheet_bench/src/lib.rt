//! The reader of sheets for a C program that measures it.

#![tactic(auto)]

ghost use Rattle.std.specs.Prelude.{◌≡◌};
ghost use Rattle.sheet.specs.Scan.{scan};
ghost use Rattle.sheet.specs.Listing.{result_of, hours_in, arcs_in, hours_listing, listing};
ghost use Rattle.sheet_bench.specs.Packed.{packed};

// Reads a sheet into the lists, as far as they have room: how many arcs there are plus 2^20 times one more than the
// count, or the place of the fault. One number, as its C caller takes it.
#[unsafe(no_mangle)]
pub extern "C" fn sheet_bench_read(s: &[u8], hours: &mut [u16], list: &mut [u16]) -> u64
    ensures { (result ≡ packed (result_of (scan s.now)))
        × (hours.new ≡ hours_listing (hours_in (scan s.now)) hours.old)
        × (list.new ≡ listing (arcs_in (scan s.now)) list.old) }
{
    match sheet::read_sheet(s, hours, list) {
        Ok(sheet) => (sheet.arcs % 1048576) as u64 + 1048576 * (1 + u64::from(sheet.jobs)),
        Err(broken) => (broken.at % 1048576) as u64,
    }
}
