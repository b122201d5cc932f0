//! Takes from a sender to a reader.

use carrier::{Reader, ReaderRefusal};
use example_cards::bare_card;
use example_sending::next_block;
use lines::MarkedLine;
use reports::Refusal;
use round::Answer;
use sender::Sender;
use std::process::Abort;
use std::test::Fail;

/// The blocks of a take over the bench's line.
pub const BLOCKS: usize = 976;

/// An answer without its card, or the number of a refusal.
#[derive(Clone, Copy, PartialEq, Eq, Debug)]
pub enum Told {
    Counted,
    PassedOver,
    Taken,
    Closed,
    Refused(u8),
}

/// A sender of the card without fields over the bench's line, from the frame with this number on.
pub fn bare_sender(number: u32) -> Result<Sender<MarkedLine>, Fail> {
    Ok(Sender::new(bare_card()?, MarkedLine::Bench, number, 0)?)
}

/// What is told of an answer.
pub fn tell(answer: Result<Answer, ReaderRefusal>) -> Told {
    match answer {
        Ok(Answer::Counted) => Told::Counted,
        Ok(Answer::PassedOver) => Told::PassedOver,
        Ok(Answer::Taken) => Told::Taken,
        Ok(Answer::Closed { .. }) => Told::Closed,
        Err(refusal) => Told::Refused(refusal.number()),
    }
}

/// Sends so many blocks, and tells the answer to the last.
pub fn pass(
    rt: &impl Abort,
    sender: &mut Sender<MarkedLine>,
    reader: &mut Reader<MarkedLine>,
    blocks: usize,
) -> Result<Told, Fail> {
    let mut last = Told::Counted;
    for _ in 0..blocks {
        assert_eq!(rt; last, Told::Counted);
        last = tell(reader.receive(&next_block(sender)?));
    }
    Ok(last)
}
