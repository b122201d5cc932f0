//! What is refused of received frames, and with which number.

ghost use Rattle.frame.specs.Refusals.{report_of};

use reports::{Refusal, Report};

/// Why received bits are no frame. A half stays the number, 1 or 2, that is reported: it is public, and any number may stand there.
#[derive(Clone, Copy, PartialEq, Eq, Debug)]
pub enum FrameRefusal {
    /// Neither unique word lies within six places.
    UniqueWord,
    /// No codeword lies within six places of a half.
    Codeword { half: u8 },
    /// The codeword nearest to a half has a wrong CRC.
    Crc { half: u8 },
}

impl Refusal for FrameRefusal {
    ghost report_of = { report_of };

    fn report(self) -> Report {
        match self {
            FrameRefusal::UniqueWord => Report::number_alone(16),
            FrameRefusal::Codeword { half } => Report::in_half(17, half),
            FrameRefusal::Crc { half } => Report::in_half(18, half),
        }
    }
}
