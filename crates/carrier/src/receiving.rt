//! Making a reader, and receiving blocks.

ghost use Rattle.std.specs.Prelude.{◌≡◌, ◌<◌, ◌≤◌, [], replicate, IfOk, MatchOption};
ghost use Rattle.std.specs.Option.{option_map};
ghost use Rattle.card.specs.Card.{value_of, on_ok};
ghost use Rattle.buffers.specs.Buffer.{text_of};
ghost use Rattle.line.specs.Calls.{decode_output};
ghost use Rattle.frame.specs.Judging.{judged};
ghost use Rattle.round.specs.Rounds.{fresh};
ghost use Rattle.round.specs.Views.{answer_of, reading_of};
ghost use Rattle.carrier.specs.Receiving.{receiving_of, fresh_of, started, on_block};
ghost use Rattle.carrier.specs.Hearing.{Counted, Completed};

use crate::reader::{Heard, Reader};
use crate::refusal::ReaderRefusal;
use card::Card;
use chips::despread;
use frame::{FRAME_BITS, Frame, FrameRefusal, judge};
use line::Line;
use round::{Answer, RoundReader};

impl<L: Line> Reader<L> {
    /// A fresh reader of what arrives over the line.
    pub fn new(line: L) -> Result<Reader<L>, ReaderRefusal>
    where
        L: Drop,
        ensures receiving { on_ok receiving_of result ≡ started (L.Line.model line) }
        ensures line { IfOk result (λ s. s.line ≡ line) }
    {
        let Some(size) = line.line_length(FRAME_BITS) else {
            return Err(ReaderRefusal::FrameNotTaken);
        };
        Ok(Reader::fresh(line, size))
    }

    /// A fresh reader of takes of `size` blocks.
    fn fresh(line: L, size: usize) -> Reader<L>
        requires { (0 < size) × (size ≤ 4096) }
        ensures line { result.line ≡ line }
        ensures size { result.size ≡ size }
        ensures heard { text_of result.heard ≡ [] }
        ensures rounds { reading_of result.rounds ≡ fresh }
    {
        Reader {
            line,
            size,
            heard: Heard::new(),
            rounds: RoundReader::new(),
        }
    }

    /// Receives a block. The last one of a take brings the answer to the take, or its refusal.
    pub fn receive(&mut self, block: &[u8]) -> Result<Answer, ReaderRefusal>
        ensures answer { on_ok answer_of result ≡ (on_block (L.Line.model self.old.line) (receiving_of self.old) block.now).answer }
        ensures after { receiving_of self.new ≡ (on_block (L.Line.model self.old.line) (receiving_of self.old) block.now).after }
        ensures line { self.new.line ≡ self.old.line }
    {
        let bit = despread(block)?;
        match self.hear(bit) {
            None => Ok(Answer::Counted),
            Some(take) => Ok(self.rounds.take(judge_bits(&self.line, take.as_slice()))?),
        }
    }

    /// Hears one line bit more, and hands out those of the take if it is whole.
    fn hear(&mut self, bit: u8) -> Option<Heard>
        ensures heard { MatchOption result (Counted (text_of self.old.heard) self.old.size bit (text_of self.new.heard)) (λ take. Completed (text_of self.old.heard) self.old.size bit (text_of take) (text_of self.new.heard)) }
        ensures size { self.new.size ≡ self.old.size }
        ensures rounds { self.new.rounds ≡ self.old.rounds }
        ensures line { self.new.line ≡ self.old.line }
    {
        if self.heard.len() + 1 < self.size {
            self.heard.push(bit);
            return None;
        }
        let mut take = self.heard;
        take.push(bit);
        self.heard.clear();
        Some(take)
    }

    /// Makes the reader fresh: the take, the round and the closed card are gone.
    pub fn reset(&mut self)
        ensures receiving { receiving_of self.new ≡ fresh_of (receiving_of self.old).size }
        ensures line { self.new.line ≡ self.old.line }
    {
        self.heard.clear();
        self.rounds = RoundReader::new();
    }

    /// The card closed last, if there is one.
    pub fn card(&self) -> Option<Card>
        ensures { option_map value_of result ≡ (receiving_of self.now).reading.card }
    {
        self.rounds.card()
    }
}

/// The frame that the line bits of a whole take are judged as.
fn judge_bits<L: Line>(line: &L, bits: &[u8]) -> Result<Frame, FrameRefusal>
    ensures { result ≡ judged (decode_output (L.Line.model line.now) bits.now (replicate 244 0)) }
{
    let mut word = [0; FRAME_BITS];
    let _ = line.decode(bits, &mut word);
    judge(&word)
}
