//! What is refused of a take, and with which number.

ghost use Rattle.std.specs.Prelude.{◌≡◌};
ghost use Rattle.round.specs.Refusals.{report_of, of_frame};

use frame::FrameRefusal;
use reports::{Refusal, Report};

/// Why a take was not accepted. Half and Content ID stay the numbers that are reported: they are public, and any number may stand there.
#[derive(Clone, Copy, PartialEq, Eq, Debug)]
pub enum TakeRefusal {
    /// Neither unique word lies within six places.
    UniqueWord,
    /// No codeword lies within six places of a half.
    Codeword { half: u8 },
    /// The codeword nearest to a half has a wrong CRC.
    Crc { half: u8 },
    /// The unique word is the same as that of the last accepted take.
    SameUniqueWord,
    /// The identifier is not lawful, or is not that of the open round.
    Identifier,
    /// A half's Content ID other than 0 is out of order.
    ContentId { half: u8, id: u8 },
    /// No lawful value has the words up to this half's.
    NoValue { half: u8, id: u8 },
    /// A half's Content ID 0 breaks off a telephone or a message.
    BrokenOff { half: u8, id: u8 },
}

impl Refusal for TakeRefusal {
    ghost report_of = { report_of };

    fn report(self) -> Report {
        match self {
            TakeRefusal::UniqueWord => Report::number_alone(16),
            TakeRefusal::Codeword { half } => Report::in_half(17, half),
            TakeRefusal::Crc { half } => Report::in_half(18, half),
            TakeRefusal::SameUniqueWord => Report::number_alone(19),
            TakeRefusal::Identifier => Report::number_alone(20),
            TakeRefusal::ContentId { half, id } => Report::in_half_at_place(21, half, id),
            TakeRefusal::NoValue { half, id } => Report::in_half_at_place(22, half, id),
            TakeRefusal::BrokenOff { half, id } => Report::in_half_at_place(23, half, id),
        }
    }
}

impl From<FrameRefusal> for TakeRefusal {
    ghost from_gives = { λ e r. r ≡ of_frame e };

    fn from(refusal: FrameRefusal) -> TakeRefusal {
        match refusal {
            FrameRefusal::UniqueWord => TakeRefusal::UniqueWord,
            FrameRefusal::Codeword { half } => TakeRefusal::Codeword { half },
            FrameRefusal::Crc { half } => TakeRefusal::Crc { half },
        }
    }
}
