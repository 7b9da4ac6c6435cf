//! An answer in the papers' numbers.
ghost use Rattle.std.specs.Prelude.{◌≡◌};
ghost use Rattle.analysis.specs.Answer.{answer};
ghost use Rattle.analysis.specs.Result.{answer_told, accepted_answer, refusal_answer, answer_of, analysis_answer};

use crate::{Accepted, Analysis, Refusal};

// The number, 0 for acceptance, and the four places; those that are not named are 0.
#[derive(Clone, Copy)]
pub struct Answer {
    pub number: usize,
    pub first: usize,
    pub second: usize,
    pub third: usize,
    pub fourth: usize,
}

fn told(number: usize, first: usize, second: usize, third: usize, fourth: usize) -> Answer
    ensures { answer_told result ≡ answer number first second third fourth }
{
    Answer {
        number,
        first,
        second,
        third,
        fourth,
    }
}

impl From<Accepted> for Answer {
    ghost from_gives = { λ accepted told. answer_told told ≡ accepted_answer accepted };

    fn from(accepted: Accepted) -> Answer {
        told(0, accepted.bytes, accepted.arcs, accepted.groups, 0)
    }
}

impl From<Refusal> for Answer {
    ghost from_gives = { λ refusal told. answer_told told ≡ refusal_answer refusal };

    fn from(refusal: Refusal) -> Answer {
        match refusal {
            Refusal::Long => told(1, 0, 0, 0, 0),
            Refusal::Broken(at) => told(2, at, 0, 0, 0),
            Refusal::Count => told(3, 0, 0, 0, 0),
            Refusal::Many => told(4, 0, 0, 0, 0),
            Refusal::Outside(i) => told(5, i, 0, 0, 0),
            Refusal::Loop(i) => told(6, i, 0, 0, 0),
            Refusal::Cycle(u) => told(7, u, 0, 0, 0),
            Refusal::Crossed(a, b, c, d) => told(8, a, b, c, d),
            Refusal::RecordRoom => told(9, 0, 0, 0, 0),
            Refusal::ArcRoom => told(10, 0, 0, 0, 0),
            Refusal::NoRecord => told(11, 0, 0, 0, 0),
            Refusal::HoursLength => told(12, 0, 0, 0, 0),
            Refusal::HoursLarge(j) => told(13, j, 0, 0, 0),
            Refusal::NoJob => told(14, 0, 0, 0, 0),
        }
    }
}

impl From<Result<Accepted, Refusal>> for Answer {
    ghost from_gives = { λ outcome told. answer_told told ≡ answer_of outcome };

    fn from(outcome: Result<Accepted, Refusal>) -> Answer {
        match outcome {
            Ok(accepted) => Answer::from(accepted),
            Err(refusal) => Answer::from(refusal),
        }
    }
}

// Beside the one above: a generic one for both would say by cases what is one equation here.
impl From<Result<Analysis, Refusal>> for Answer {
    ghost from_gives = { λ outcome told. answer_told told ≡ analysis_answer outcome };

    fn from(outcome: Result<Analysis, Refusal>) -> Answer {
        match outcome {
            Ok(analysis) => Answer::from(analysis.accepted),
            Err(refusal) => Answer::from(refusal),
        }
    }
}
