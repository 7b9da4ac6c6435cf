//! The planning desk's calls, exported to C: each is that of crate `desk`, with its clauses.

#![tactic(auto)]

ghost use Rattle.std.specs.Prelude.{◌≡◌, [], length};
ghost use Rattle.analysis.specs.Outcome.{sheet_outcome, record_outcome};
ghost use Rattle.analysis.specs.Result.{rooms};
ghost use Rattle.longest.specs.Outcome.{run_outcome};
ghost use Rattle.gangs.specs.Outcome.{gang_outcome};
ghost use Rattle.reason.specs.Outcome.{reason_outcome};
ghost use Rattle.preview.specs.Outcome.{previewed};
ghost use Rattle.desk.specs.Packed.{packed};
ghost use Rattle.desk.specs.Told.{Told, RunTold, GangsTold, ReasonTold};

use desk::{Plan, Reason, Run};

// The analysis of a sheet: the record and the reduced orders into the two areas.
#[unsafe(no_mangle)]
pub extern "C" fn ordersheet_analyse(sheet: &[u8], bytes: &mut [u8], area: &mut [u8]) -> u64
    ensures { Told (sheet_outcome (rooms bytes.old area.old) sheet.now)
        bytes.old area.old result bytes.new area.new }
{
    desk::ordersheet_analyse(sheet, bytes, area)
}

// The reading of a record: the reduced orders into the area.
#[unsafe(no_mangle)]
pub extern "C" fn ordersheet_read(bytes: &[u8], area: &mut [u8]) -> u64
    ensures { Told (record_outcome (length area.old) bytes.now)
        [] area.old result [] area.new }
{
    desk::ordersheet_read(bytes, area)
}

// The longest run of work of a record.
#[unsafe(no_mangle)]
pub extern "C" fn ordersheet_longest_run(bytes: &[u8]) -> Run
    ensures { RunTold (run_outcome bytes.now) result }
{
    desk::ordersheet_longest_run(bytes)
}

// The fewest gangs of a record.
#[unsafe(no_mangle)]
pub extern "C" fn ordersheet_gangs(bytes: &[u8]) -> Plan
    ensures { GangsTold (gang_outcome bytes.now) result }
{
    desk::ordersheet_gangs(bytes)
}

// The reason between two jobs of a record.
#[unsafe(no_mangle)]
pub extern "C" fn ordersheet_reason(bytes: &[u8], first: u16, second: u16) -> Reason
    ensures { ReasonTold (reason_outcome bytes.now first second) result }
{
    desk::ordersheet_reason(bytes, first, second)
}

// The answer on a pair list with one more order at its end: two numbers for each order, and the hours of each job.
#[unsafe(no_mangle)]
pub extern "C" fn ordersheet_preview(
    count: u16,
    list: &[u16],
    hours: &[u16],
    first: u16,
    second: u16,
) -> u64
    ensures { result ≡ packed (previewed count hours.now list.now first second) }
{
    desk::ordersheet_preview(count, list, hours, first, second)
}
