//! Two rounds of a card, from a sender through the air to a reader.

ghost use Rattle.std.specs.Prelude.{◌≡◌, ℕ, ◌+◌, ◌*◌, ◌<◌, ◌≤◌, IfOk, if◌then◌else◌, Ok, Err, nat_le};
ghost use Rattle.std.specs.Option.{option_map};
ghost use Rattle.card.specs.Card.{value_of, on_ok};
ghost use Rattle.content.specs.Sequence.{round_length};
ghost use Rattle.sender.specs.declared.refusal.SenderRefusal.TheVariants.{FrameNumber};
ghost use Rattle.carrier.specs.Passing.{two_rounds_answer, CameOf};
ghost use Rattle.carrier.specs.Guarantee.{Guarantee};

use crate::air::Air;
use crate::passing::pass_blocks;
use crate::reader::Reader;
use card::Card;
use content::Sequence;
use line::Line;
use sender::{LAST_NUMBER, Sender, SenderRefusal};

/// How many frame numbers there are.
const FRAME_NUMBERS: usize = LAST_NUMBER as usize + 1;

/// What came of two rounds.
#[derive(Clone, Copy, PartialEq, Eq, Debug)]
pub struct Reception {
    /// How many takes were refused.
    pub refused: usize,
    /// How many cards were closed.
    pub closed: usize,
    /// The card closed last.
    pub card: Option<Card>,
}

/// Sends two rounds of the card over the line, from the frame with this number on, and lets a fresh reader receive what the air
/// makes of the blocks. In as far as the air keeps within the line's bound in each take, nothing is refused, and one card is
/// closed, which is the card.
pub fn send_two_rounds<L: Line + Copy, A: Air>(
    card: &Card,
    line: L,
    number: u32,
    last: u8,
    air: &mut A,
) -> Result<Reception, SenderRefusal>
    ensures answer { on_ok (λ _. tt) result ≡ two_rounds_answer (L.Line.model line) (value_of card.now) number last }
    ensures came { IfOk result (λ x. CameOf (L.Line.model line) (value_of card.now) number last x.refused x.closed (option_map value_of x.card)) }
    ensures guarantee { Guarantee }
{
    let mut sender = Sender::new(*card, line, number, last)?;
    let frames = frames_of_two_rounds(card);
    check_numbers(number, frames)?;
    let Ok(mut reader) = Reader::new(line) else {
        return Err(SenderRefusal::FrameNotTaken);
    };
    reader.reset();
    let blocks = frames * reader.size;
    let tally = pass_blocks(&mut sender, &mut reader, air, blocks)?;
    Ok(Reception {
        refused: tally.refused,
        closed: tally.closed,
        card: reader.card(),
    })
}

/// The number of frames in two rounds of the card.
fn frames_of_two_rounds(card: &Card) -> usize
    ensures is { result ≡ 2 * round_length (value_of card.now) }
    ensures most { result ≤ 14 }
{
    2 * Sequence::of(card).frames()
}

/// Whether there are so many frame numbers from this one on.
fn check_numbers(number: u32, frames: usize) -> Result<(), SenderRefusal>
    requires { frames ≤ 14 }
    ensures { result ≡ (if nat_le (number + frames) 1_000_000_000 then Ok tt else Err FrameNumber) }
{
    if number as usize + frames > FRAME_NUMBERS {
        return Err(SenderRefusal::FrameNumber);
    }
    Ok(())
}
