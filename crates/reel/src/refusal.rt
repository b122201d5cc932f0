//! What is refused of a reel, and with which number.

ghost use Rattle.reel.specs.Refusals.{report_of};

use reports::{Refusal, Report};

/// Why octets are no reel.
#[derive(Clone, Copy, PartialEq, Eq, Debug)]
pub enum ReelRefusal {
    /// A number of the header does not end, has a needless group or is above its limit.
    Number,
    /// The form or the mark of the line is unknown.
    Unknown,
}

impl Refusal for ReelRefusal {
    ghost report_of = { report_of };

    fn report(self) -> Report {
        match self {
            ReelRefusal::Number => Report::number_alone(24),
            ReelRefusal::Unknown => Report::number_alone(25),
        }
    }
}
