//! A record read back.
ghost use Rattle.std.specs.Prelude.{[], length};
ghost use Rattle.analysis.specs.Outcome.{record_outcome};
ghost use Rattle.analysis.specs.Result.{Gives};

use crate::{Accepted, Analysis, Refusal};
use reader::ahead;
use relation::reduction;

// The order is that of the two sequences; its reduced orders are written once they are known to fit.
pub fn of_bytes(bytes: &[u8], area: &mut [u8]) -> Result<Analysis, Refusal>
    ensures { Gives (record_outcome (length area.old) bytes.now)
        [] area.old result [] area.new }
{
    let Some(read) = reader::read_record(bytes) else {
        return Err(Refusal::NoRecord);
    };
    let after = ahead::order_of(&read.forward, &read.reverse, read.count);
    let reduced = reduction::reduced(after, read.count);
    let count = reduction::pair_count(&reduced, read.count);
    if area.len() < 2 * count {
        return Err(Refusal::ArcRoom);
    }
    reduction::write_pairs(&reduced, read.count, area);
    Ok(Analysis {
        accepted: Accepted {
            bytes: bytes.len(),
            arcs: count,
            groups: read.groups,
        },
        forward: read.forward,
        reverse: read.reverse,
        hours: read.hours,
    })
}
