//! What a reader refuses, and with which number.

ghost use Rattle.std.specs.Prelude.{◌≡◌};
ghost use Rattle.carrier.specs.Refusals.{report_of, of_block};
ghost use Rattle.carrier.specs.declared.refusal.ReaderRefusal.TheVariants.{Take};

use chips::BlockRefusal;
use reports::{Refusal, Report};
use round::TakeRefusal;

/// Why a reader was not made, or did not accept a block or the take that the block ends.
#[derive(Clone, Copy, PartialEq, Eq, Debug)]
pub enum ReaderRefusal {
    /// The line does not take the 244 bits of a frame.
    FrameNotTaken,
    /// The octets are no block of 512.
    BlockLength,
    /// The take is refused.
    Take(TakeRefusal),
}

impl Refusal for ReaderRefusal {
    ghost report_of = { report_of };

    fn report(self) -> Report {
        match self {
            ReaderRefusal::FrameNotTaken => Report::number_alone(12),
            ReaderRefusal::BlockLength => Report::number_alone(15),
            ReaderRefusal::Take(refusal) => refusal.report(),
        }
    }
}

impl From<BlockRefusal> for ReaderRefusal {
    ghost from_gives = { λ e r. r ≡ of_block e };

    fn from(refusal: BlockRefusal) -> ReaderRefusal {
        match refusal {
            BlockRefusal::WrongLength => ReaderRefusal::BlockLength,
        }
    }
}

impl From<TakeRefusal> for ReaderRefusal {
    ghost from_gives = { λ e r. r ≡ Take e };

    fn from(refusal: TakeRefusal) -> ReaderRefusal {
        ReaderRefusal::Take(refusal)
    }
}
