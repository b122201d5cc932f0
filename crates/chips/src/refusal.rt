//! What is refused of a block.

ghost use Rattle.std.specs.Prelude.{◌≡◌};
ghost use Rattle.chips.specs.Refusals.{report_of};

use reports::{Refusal, Report};

/// Why octets are no block.
#[derive(Clone, Copy, PartialEq, Eq, Debug)]
pub enum BlockRefusal {
    /// There are not 512 octets.
    WrongLength,
}

impl Refusal for BlockRefusal {
    ghost report_of = { report_of };

    fn report(self) -> Report {
        match self {
            BlockRefusal::WrongLength => Report::number_alone(15),
        }
    }
}
