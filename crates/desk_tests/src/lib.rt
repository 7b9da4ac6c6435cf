//! For tests alone: the desk's calls, and beside them what the desk does not hand out: the sequences, the hours that
//! are read back, and the analysis of a pair list.

#![tactic(auto)]

ghost use Rattle.std.specs.Prelude.{◌≡◌, [], ◌++◌, length, take, drop};
ghost use Rattle.poset.specs.Areas.{padded};
ghost use Rattle.analysis.specs.Outcome.{sheet_outcome, pair_outcome, record_outcome};
ghost use Rattle.analysis.specs.Result.{analysis_answer, rooms};
ghost use Rattle.desk.specs.Packed.{packed, cut};
ghost use Rattle.desk_tests.specs.Shown.{forward_of, reverse_of, hours_of, entered, Shown};

use analysis::answer::Answer;
use analysis::{Analysis, Refusal};
use desk::answer;

// As many of the entries as the area has room for.
fn enter<T: Copy>(entries: &[T], area: &mut [T])
    ensures { area.new ≡ take (length area.old) entries.now ++ drop (length entries.now) area.old }
{
    let count = entries.len().min(area.len());
    area[..count].copy_from_slice(&entries[..count]);
}

// Both sequences and the hours, zeros of a refusal.
fn entries(found: Result<Analysis, Refusal>) -> ([u8; 128], [u8; 128], [u16; 128])
    ensures { result ≡ (forward_of found, reverse_of found, hours_of found) }
{
    match found {
        Ok(made) => {
            let forward = made.forward;
            let reverse = made.reverse;
            let hours = made.hours;
            (forward, reverse, hours)
        }
        Err(_) => ([0; 128], [0; 128], [0; 128]),
    }
}

// The sequences into two areas, and the answer as one number.
fn shown(found: Result<Analysis, Refusal>, forward: &mut [u8], reverse: &mut [u8]) -> u64
    ensures { (result ≡ packed (cut (analysis_answer found)))
        × (forward.new ≡ entered (forward_of found) forward.old)
        × (reverse.new ≡ entered (reverse_of found) reverse.old) }
{
    let (ahead, back, _) = entries(found);
    enter(&ahead, forward);
    enter(&back, reverse);
    answer::packed(Answer::from(found))
}

#[unsafe(no_mangle)]
pub extern "C" fn ordersheet_test_sheet(
    sheet: &[u8],
    bytes: &mut [u8],
    area: &mut [u8],
    forward: &mut [u8],
    reverse: &mut [u8],
) -> u64
    ensures { Shown (sheet_outcome (rooms bytes.old area.old) sheet.now)
        bytes.old area.old forward.old reverse.old
        result bytes.new area.new forward.new reverse.new }
{
    let found = analysis::analyse_sheet(sheet, bytes, area);
    shown(found, forward, reverse)
}

#[unsafe(no_mangle)]
pub extern "C" fn ordersheet_test_pairs(
    count: u16,
    list: &[u16],
    hours: &[u16],
    bytes: &mut [u8],
    area: &mut [u8],
    forward: &mut [u8],
    reverse: &mut [u8],
) -> u64
    ensures { Shown (pair_outcome (rooms bytes.old area.old) count hours.now list.now)
        bytes.old area.old forward.old reverse.old
        result bytes.new area.new forward.new reverse.new }
{
    let found = analysis::analyse_pairs(count, list, hours, bytes, area);
    shown(found, forward, reverse)
}

#[unsafe(no_mangle)]
pub extern "C" fn ordersheet_test_read(
    bytes: &[u8],
    area: &mut [u8],
    hours: &mut [u16],
    forward: &mut [u8],
    reverse: &mut [u8],
) -> u64
    ensures hours_after { hours.new
        ≡ entered (padded (record_outcome (length area.old) bytes.now).hours) hours.old }
    ensures shown { Shown (record_outcome (length area.old) bytes.now)
        [] area.old forward.old reverse.old
        result [] area.new forward.new reverse.new }
{
    let found = analysis::analyse_record(bytes, area);
    let (_, _, times) = entries(found);
    enter(&times, hours);
    shown(found, forward, reverse)
}
