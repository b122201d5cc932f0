//! The frames of a card, and their bits.

ghost use Rattle.std.specs.Prelude.{◌≡◌, ℕ, ◌*◌, ◌%◌, ◌<◌, ◌≤◌, length, take, drop, if◌then◌else◌, nat_eq};
ghost use Rattle.card.specs.Card.{value_of};
ghost use Rattle.frame.specs.Frame.{frame_of, frame_bits};
ghost use Rattle.frame.specs.Judging.{JudgedAsSent};

use crate::bits::append_number;
use crate::carried::{FRAME_BITS, Frame};
use crate::half::Said;
use buffers::Buffer;
use card::Card;
use content::Sequence;

/// The unique word of even frame numbers.
pub(crate) const EVEN: u32 = 0x147147;
/// The unique word of odd frame numbers.
pub(crate) const ODD: u32 = 0x2B8EB8;

impl Frame {
    /// What the frame with this number carries: two neighbours of the card's sequence, round after round.
    pub fn of(card: &Card, number: u32) -> Frame
        ensures { result ≡ frame_of (value_of card.now) number }
    {
        let sequence = Sequence::of(card);
        let entries = sequence.entries();
        let at = entry_of(number, sequence.frames());
        Frame {
            unique: unique_of(number),
            identifier: card.identifier().octets(),
            first: entries[at],
            second: entries[at + 1],
        }
    }

    /// The 244 bits of the frame: the unique word, half 1, half 2. Bits within six places of them are judged as this frame.
    pub fn bits(&self) -> [u8; 244]
        ensures is { result ≡ frame_bits self.now }
        ensures sent { JudgedAsSent }
    {
        let (high, low) = halves(&self.identifier);
        let mut bits = Buffer::<FRAME_BITS>::new();
        append_number(&mut bits, 22, unique_word(self.unique));
        bits.extend(&Said::of(&high, self.first).coded());
        bits.extend(&Said::of(&low, self.second).coded());
        *bits.as_array()
    }
}

/// The unique word of even frame numbers, or of odd ones.
pub(crate) fn unique_word(unique: u8) -> u32
    ensures { result ≡ (if nat_eq unique 0 then 0x147147 else 0x2B8EB8) }
{
    if unique == 0 { EVEN } else { ODD }
}

/// Which unique word a frame number has.
fn unique_of(number: u32) -> u8
    ensures { result ≡ number % 2 }
{
    (number % 2) as u8
}

/// The place in the sequence at which a frame's two entries begin.
fn entry_of(number: u32, frames: usize) -> usize
    requires { (0 < frames) × (frames ≤ 7) }
    ensures { result ≡ 2 * (number % frames) }
{
    2 * (number as usize % frames)
}

/// The octets of half 1, and those of half 2.
fn halves(identifier: &[u8; 8]) -> ([u8; 4], [u8; 4])
    ensures high { result.0 ≡ take 4 identifier.now }
    ensures low { result.1 ≡ drop 4 identifier.now }
{
    let [a, b, c, d, e, f, g, h] = *identifier;
    ([a, b, c, d], [e, f, g, h])
}
