//! An answer as one number, as C takes it.
ghost use Rattle.std.specs.Prelude.{◌≡◌};
ghost use Rattle.analysis.specs.Result.{answer_told};
ghost use Rattle.desk.specs.Packed.{packed, cut};

use analysis::answer::Answer;

// An answer, its number and each place in the bits that are left for it.
pub fn packed(told: Answer) -> u64
    ensures { result ≡ packed (cut (answer_told told)) }
{
    (told.number % 256
        + 256 * (told.first % 65536)
        + 16777216 * (told.second % 65536)
        + 1099511627776 * (told.third % 256)
        + 281474976710656 * (told.fourth % 65536)) as u64
}
