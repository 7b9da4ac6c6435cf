//! The text of what the analysis gives.
ghost use Rattle.analysis.specs.Outcome.{roomy, sheet_outcome};
ghost use Rattle.printer.specs.Text.{printed};
ghost use Rattle.printer.specs.Buffer.{Prints};

use crate::{accepted_text, refused_text};

// The whole text for a sheet, at the start of the buffer. Returns its length.
pub fn sheet_text(sheet: &[u8], out: &mut [u8; 40000]) -> usize
    ensures { Prints out.old (printed (sheet_outcome roomy sheet.now)) out.new result }
{
    let mut bytes = [0u8; record::RECORD_ROOM];
    let mut area = [0u8; 8192];
    match analysis::analyse_sheet(sheet, &mut bytes, &mut area) {
        Ok(made) => {
            let accepted = made.accepted;
            let ends = 2 * accepted.arcs;
            // a record's first 7 bits are the job count minus 1
            let jobs = usize::from(bytes[0]) / 2 + 1;
            accepted_text(
                accepted.arcs,
                accepted.groups,
                &bytes[..accepted.bytes],
                &area[..ends],
                &made.forward[..jobs],
                &made.reverse[..jobs],
                out,
            )
        }
        Err(refusal) => refused_text(refusal, out),
    }
}
