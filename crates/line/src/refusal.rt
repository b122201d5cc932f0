//! What a line refuses.

ghost use Rattle.line.specs.Calls.{report_of};

use reports::{Refusal, Report};

/// Why a line did not encode or decode.
#[derive(Clone, Copy, PartialEq, Eq, Debug)]
pub enum LineRefusal {
    /// The line does not take this length, or the output has another length than is needed.
    WrongLength,
    /// An octet of the input, or the last bit, is neither 0 nor 1.
    NotABit,
}

impl Refusal for LineRefusal {
    ghost report_of = { report_of };

    fn report(self) -> Report {
        match self {
            LineRefusal::WrongLength => Report::number_alone(12),
            LineRefusal::NotABit => Report::number_alone(13),
        }
    }
}
