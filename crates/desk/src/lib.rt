//! The planning desk's calls, for C (crate `desk_c` exports them): an answer is one number. An analysis hands back no
//! sequences and no hours.

#![tactic(auto)]

pub mod answer;

ghost use Rattle.std.specs.Prelude.{◌≡◌, [], length};
ghost use Rattle.analysis.specs.Outcome.{sheet_outcome, record_outcome};
ghost use Rattle.analysis.specs.Result.{rooms};
ghost use Rattle.longest.specs.Outcome.{run_outcome};
ghost use Rattle.gangs.specs.Outcome.{gang_outcome};
ghost use Rattle.reason.specs.Outcome.{reason_outcome};
ghost use Rattle.preview.specs.Outcome.{previewed};
ghost use Rattle.desk.specs.Packed.{packed};
ghost use Rattle.desk.specs.Told.{Told, RunTold, GangsTold, ReasonTold};

use analysis::answer::Answer;

// Numbers go to C by `as`: std has no `From` of `usize` for `u64`. A refusal beside lists goes out by `return`: as one
// of two values of a match, the lists would be zeroed and copied once more.

// Acceptance as a number, where no record is written: its places are 0.
const ACCEPTED: u64 = 0;

// The analysis of a sheet: the record and the reduced orders into the two areas.
pub fn ordersheet_analyse(sheet: &[u8], bytes: &mut [u8], area: &mut [u8]) -> u64
    ensures { Told (sheet_outcome (rooms bytes.old area.old) sheet.now)
        bytes.old area.old result bytes.new area.new }
{
    let found = analysis::analyse_sheet(sheet, bytes, area);
    answer::packed(Answer::from(found))
}

// The reading of a record: the reduced orders into the area.
pub fn ordersheet_read(bytes: &[u8], area: &mut [u8]) -> u64
    ensures { Told (record_outcome (length area.old) bytes.now)
        [] area.old result [] area.new }
{
    let found = analysis::analyse_record(bytes, area);
    answer::packed(Answer::from(found))
}

// The longest run: its answer, the total of hours, how many jobs it has, and these, earliest first, then zeros.
#[repr(C)]
#[derive(Clone, Copy)]
pub struct Run {
    pub answer: u64,
    pub total: u64,
    pub count: u64,
    pub jobs: [u8; 128],
}

// The longest run of work of a record.
pub fn ordersheet_longest_run(bytes: &[u8]) -> Run
    ensures { RunTold (run_outcome bytes.now) result }
{
    let run = match longest::longest_run(bytes) {
        Ok(run) => run,
        Err(refusal) => {
            return Run {
                answer: answer::packed(Answer::from(refusal)),
                total: 0,
                count: 0,
                jobs: [0; 128],
            };
        }
    };
    let jobs = run.jobs;
    Run {
        answer: ACCEPTED,
        total: run.total as u64,
        count: run.count as u64,
        jobs,
    }
}

// The gangs: the answer, how many, the hours of each gang's jobs together, and the gang of each job, then zeros.
#[repr(C)]
#[derive(Clone, Copy)]
pub struct Plan {
    pub answer: u64,
    pub count: u64,
    pub hours: [u32; 128],
    pub gangs: [u8; 128],
}

// The fewest gangs of a record.
pub fn ordersheet_gangs(bytes: &[u8]) -> Plan
    ensures { GangsTold (gang_outcome bytes.now) result }
{
    let plan = match gangs::fewest_gangs(bytes) {
        Ok(plan) => plan,
        Err(refusal) => {
            return Plan {
                answer: answer::packed(Answer::from(refusal)),
                count: 0,
                hours: [0; 128],
                gangs: [0; 128],
            };
        }
    };
    let hours = plan.hours;
    let gangs = plan.gangs;
    Plan {
        answer: ACCEPTED,
        count: plan.count as u64,
        hours,
        gangs,
    }
}

// The reason: the answer, the rule, the position of the lowest group over both jobs, and how many jobs are under it.
#[repr(C)]
#[derive(Clone, Copy)]
pub struct Reason {
    pub answer: u64,
    pub rule: u64,
    pub position: u64,
    pub jobs: u64,
}

// The reason between two jobs of a record.
pub fn ordersheet_reason(bytes: &[u8], first: u16, second: u16) -> Reason
    ensures { ReasonTold (reason_outcome bytes.now first second) result }
{
    match reason::reason_between(bytes, first, second) {
        Ok(found) => Reason {
            answer: ACCEPTED,
            rule: u64::from(found.rule),
            position: found.position as u64,
            jobs: found.jobs as u64,
        },
        Err(refusal) => Reason {
            answer: answer::packed(Answer::from(refusal)),
            rule: 0,
            position: 0,
            jobs: 0,
        },
    }
}

// The answer on a pair list with one more order at its end: two numbers for each order, and the hours of each job.
pub fn ordersheet_preview(count: u16, list: &[u16], hours: &[u16], first: u16, second: u16) -> u64
    ensures { result ≡ packed (previewed count hours.now list.now first second) }
{
    let found = preview::preview_order(count, list, hours, first, second);
    answer::packed(Answer::from(found))
}
