//! For benchmarks alone: a record read as the product reads it, whole.

#![tactic(auto)]

ghost use Rattle.std.specs.Prelude.{◌≡◌, option_map, replicate};
ghost use Rattle.record.specs.Decode.{decode};
ghost use Rattle.reader.specs.Answer.{reading};
ghost use Rattle.reader_bench.specs.Handed.{Handed};

// What reading a record gives; all 0 where the bytes are none.
#[repr(C)]
#[derive(Clone, Copy)]
pub struct Read {
    pub count: u64,
    pub groups: u64,
    pub forward: [u8; 128],
    pub reverse: [u8; 128],
    pub hours: [u16; 128],
}

// No sequence. Never inlined: so many zeros as a blank `Read` has in one would be a call of C's `memset`.
#[inline(never)]
fn no_jobs() -> [u8; 128]
    ensures { result ≡ replicate 128 0 }
{
    [0; 128]
}

#[unsafe(no_mangle)]
pub extern "C" fn reader_bench_read(bytes: &[u8]) -> Read
    ensures { Handed (option_map reading (decode bytes.now)) result }
{
    let Some(read) = reader::read_record(bytes) else {
        return Read {
            count: 0,
            groups: 0,
            forward: [0; 128],
            reverse: no_jobs(),
            hours: [0; 128],
        };
    };
    let forward = read.forward;
    let reverse = read.reverse;
    let hours = read.hours;
    Read {
        count: read.count as u64,
        groups: read.groups as u64,
        forward,
        reverse,
        hours,
    }
}
