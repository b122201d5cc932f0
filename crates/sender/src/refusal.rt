//! What a sender refuses, and with which number.

ghost use Rattle.std.specs.Prelude.{◌≡◌};
ghost use Rattle.sender.specs.Refusals.{report_of, of_block};

use chips::BlockRefusal;
use reports::{Refusal, Report};

/// Why a sender was not made, or did not write a block.
#[derive(Clone, Copy, PartialEq, Eq, Debug)]
pub enum SenderRefusal {
    /// The line does not take the 244 bits of a frame.
    FrameNotTaken,
    /// The last bit on the line is neither 0 nor 1.
    LastBit,
    /// The frame number is above the last, 999,999,999.
    FrameNumber,
    /// The output is not a block of 512 octets.
    BlockLength,
}

impl Refusal for SenderRefusal {
    ghost report_of = { report_of };

    fn report(self) -> Report {
        match self {
            SenderRefusal::FrameNotTaken => Report::number_alone(12),
            SenderRefusal::LastBit => Report::number_alone(13),
            SenderRefusal::FrameNumber => Report::number_alone(14),
            SenderRefusal::BlockLength => Report::number_alone(15),
        }
    }
}

impl From<BlockRefusal> for SenderRefusal {
    ghost from_gives = { λ e r. r ≡ of_block e };

    fn from(refusal: BlockRefusal) -> SenderRefusal {
        match refusal {
            BlockRefusal::WrongLength => SenderRefusal::BlockLength,
        }
    }
}
