//! Making a sender, and writing its blocks.

ghost use Rattle.std.specs.Prelude.{◌≡◌, ℕ, ◌+◌, ◌<◌, ◌≤◌, length, take, replicate, IfOk, if◌then◌else◌, nat_eq, slice_index};
ghost use Rattle.card.specs.Card.{value_of, on_ok};
ghost use Rattle.line.specs.Calls.{encode_output};
ghost use Rattle.sender.specs.Sending.{sending_of, started, with_left, begun, to_send, start_answer, call_answer, next_answer, next_output, next_sending};
ghost use Rattle.sender.specs.Takes.{SendsTakes};
ghost use Rattle.sender.specs.Signal.{StandardSignal};

use crate::refusal::SenderRefusal;
use crate::sender::Sender;
use card::Card;
use chips::{BLOCK_OCTETS, spread};
use frame::{FRAME_BITS, Frame};
use line::{LONGEST, Line};

/// The last frame number.
pub const LAST_NUMBER: u32 = 999_999_999;

impl<L: Line> Sender<L> {
    /// A sender for the card over the line, from the frame with this number on; `last` is the last bit on the line before it.
    pub fn new(card: Card, line: L, number: u32, last: u8) -> Result<Sender<L>, SenderRefusal>
    where
        L: Drop,
        ensures sending { on_ok sending_of result ≡ started (L.Line.model line) (value_of card) number last }
        ensures line { IfOk result (λ s. s.line ≡ line) }
    {
        let Some(size) = line.line_length(FRAME_BITS) else {
            return Err(SenderRefusal::FrameNotTaken);
        };
        check_start(number, last)?;
        Ok(Sender::between_takes(line, card, number, last, size))
    }

    /// A sender between takes of `size` line bits; number and last bit come one by one, as `new` takes them.
    fn between_takes(line: L, card: Card, number: u32, last: u8, size: usize) -> Sender<L>
        requires { (0 < size) × (size ≤ 4096) }
        ensures line { result.line ≡ line }
        ensures card { result.card ≡ card }
        ensures number { result.number ≡ number }
        ensures last { result.last ≡ last }
        ensures size { result.size ≡ size }
        ensures sent { result.sent ≡ size }
    {
        Sender {
            line,
            card,
            number,
            last,
            size,
            sent: size,
            bits: [0; LONGEST],
        }
    }

    /// Writes the next block, take after take. From between takes on, the blocks are those of the card's frames in their order;
    /// on the standard's line they are the standard's signal.
    pub fn next_block(&mut self, out: &mut [u8]) -> Result<(), SenderRefusal>
        ensures answer { result ≡ next_answer (sending_of self.old) (length out.old) }
        ensures output { out.new ≡ next_output (L.Line.model self.old.line) (sending_of self.old) out.old }
        ensures sending { sending_of self.new ≡ next_sending (L.Line.model self.old.line) (sending_of self.old) (length out.old) }
        ensures line { self.new.line ≡ self.old.line }
        ensures takes { SendsTakes }
        ensures standard { StandardSignal }
    {
        check_call(self.number, out.len())?;
        self.ready();
        spread(self.first_left(), out)?;
        Ok(())
    }

    /// Begins the take of the next frame.
    fn begin(&mut self)
        ensures sending { sending_of self.new ≡ with_left (begun (L.Line.model self.old.line) (sending_of self.old)) (sending_of self.old) }
        ensures start { self.new.sent ≡ 0 }
        ensures line { self.new.line ≡ self.old.line }
    {
        let word = Frame::of(&self.card, self.number).bits();
        self.bits = self.line_bits(&word);
        self.sent = 0;
    }

    /// What the line makes of a frame's bits, in the first `size` places.
    fn line_bits(&self, word: &[u8; FRAME_BITS]) -> [u8; LONGEST]
        ensures { take self.now.size result ≡ encode_output (L.Line.model self.now.line) word.now self.now.last (replicate self.now.size 0) }
    {
        let mut bits = [0; LONGEST];
        encode_into(&self.line, word, self.last, &mut bits[0..self.size]);
        bits
    }

    /// Begins the next take where no line bit is left of the last one.
    fn ready(&mut self)
        ensures sending { sending_of self.new ≡ with_left (to_send (L.Line.model self.old.line) (sending_of self.old)) (sending_of self.old) }
        ensures within { self.new.sent < self.new.size }
        ensures line { self.new.line ≡ self.old.line }
    {
        if self.sent == self.size {
            self.begin();
        }
    }

    /// Takes the first of the line bits that are left.
    fn first_left(&mut self) -> u8
        requires { (self.old.sent < self.old.size) × (self.old.number ≤ 999_999_999) }
        ensures bit { result ≡ slice_index self.old.bits self.old.sent }
        ensures sent { self.new.sent ≡ self.old.sent + 1 }
        ensures number { self.new.number ≡ (if nat_eq (self.old.sent + 1) self.old.size then self.old.number + 1 else self.old.number) }
        ensures last { self.new.last ≡ (if nat_eq (self.old.sent + 1) self.old.size then result else self.old.last) }
        ensures card { self.new.card ≡ self.old.card }
        ensures size { self.new.size ≡ self.old.size }
        ensures bits { self.new.bits ≡ self.old.bits }
        ensures line { self.new.line ≡ self.old.line }
    {
        let bit = self.bits[self.sent];
        self.sent += 1;
        if self.sent == self.size {
            self.number += 1;
            self.last = bit;
        }
        bit
    }
}

/// Whether a sender can start after this last bit from this frame number on.
fn check_start(number: u32, last: u8) -> Result<(), SenderRefusal>
    ensures { result ≡ start_answer number last }
{
    if last > 1 {
        return Err(SenderRefusal::LastBit);
    }
    if number > LAST_NUMBER {
        return Err(SenderRefusal::FrameNumber);
    }
    Ok(())
}

/// Whether a block of the frame with this number can be written into so many octets.
fn check_call(number: u32, room: usize) -> Result<(), SenderRefusal>
    ensures { result ≡ call_answer number room }
{
    if room != BLOCK_OCTETS {
        return Err(SenderRefusal::BlockLength);
    }
    if number > LAST_NUMBER {
        return Err(SenderRefusal::FrameNumber);
    }
    Ok(())
}

/// Lets the line write what it makes of a frame's bits; a line that does not take them writes nothing.
fn encode_into<L: Line>(line: &L, word: &[u8; FRAME_BITS], last: u8, out: &mut [u8])
    ensures { out.new ≡ encode_output (L.Line.model line.now) word.now last out.old }
{
    let _ = line.encode(word, last, out);
}
