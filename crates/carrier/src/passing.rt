//! Blocks on their way from a sender to a reader.

ghost use Rattle.std.specs.Prelude.{◌≡◌, ℕ, ◌+◌, ◌*◌, ◌^◌, ◌<◌, ◌≤◌, true, cond, List, [], ◌∷◌, length, is_ok, IfOk, Ok};
ghost use Rattle.card.specs.Card.{value_of, on_ok};
ghost use Rattle.chips.specs.Laws.{IsBlock};
ghost use Rattle.sender.specs.Sending.{sending_of, next_answer, next_sending};
ghost use Rattle.sender.specs.Takes.{after_calls};
ghost use Rattle.round.specs.Views.{answer_of};
ghost use Rattle.carrier.specs.Receiving.{receiving_of, on_block};
ghost use Rattle.carrier.specs.Passing.{OneMore, Passed, refused_by, closed_by};

use crate::air::Air;
use crate::reader::Reader;
use crate::refusal::ReaderRefusal;
use chips::BLOCK_OCTETS;
use line::Line;
use round::Answer;
use sender::{Sender, SenderRefusal};

/// How many takes a reader refused, and how many cards it closed.
#[derive(Clone, Copy, Default)]
pub(crate) struct Tally {
    pub(crate) refused: usize,
    pub(crate) closed: usize,
}

impl Tally {
    /// With one answer more.
    fn with(self, answer: &Result<Answer, ReaderRefusal>) -> Tally
        requires { (self.refused < 2 ^ 32) × (self.closed < 2 ^ 32) }
        ensures refused { result.refused ≡ self.refused + refused_by (on_ok answer_of answer.now) }
        ensures closed { result.closed ≡ self.closed + closed_by (on_ok answer_of answer.now) }
    {
        match answer {
            Err(_) => Tally {
                refused: self.refused + 1,
                ..self
            },
            Ok(Answer::Closed { .. }) => Tally {
                closed: self.closed + 1,
                ..self
            },
            Ok(_) => self,
        }
    }
}

/// Lets one block pass, and tells what the reader answers to it.
fn pass_block<L: Line, A: Air>(
    sender: &mut Sender<L>,
    reader: &mut Reader<L>,
    air: &mut A,
) -> Result<Result<Answer, ReaderRefusal>, SenderRefusal>
    ensures answer { on_ok (λ _. tt) result ≡ next_answer (sending_of sender.old) 512 }
    ensures sending { sending_of sender.new ≡ next_sending (L.Line.model sender.old.line) (sending_of sender.old) 512 }
    ensures heard { IfOk result (λ a. OneMore (L.Line.model reader.old.line) (receiving_of reader.old) (on_ok answer_of a) (receiving_of reader.new)) }
    ensures sender_line { sender.new.line ≡ sender.old.line }
    ensures reader_line { reader.new.line ≡ reader.old.line }
{
    let mut block = [0; BLOCK_OCTETS];
    sender.next_block(&mut block)?;
    air.carry(&mut block);
    Ok(receive_block(reader, &block))
}

/// Lets the reader receive a block.
fn receive_block<L: Line>(
    reader: &mut Reader<L>,
    block: &[u8; BLOCK_OCTETS],
) -> Result<Answer, ReaderRefusal>
    ensures heard { OneMore (L.Line.model reader.old.line) (receiving_of reader.old) (on_ok answer_of result) (receiving_of reader.new) }
    ensures line { reader.new.line ≡ reader.old.line }
{
    reader.receive(block)
}

/// Lets so many blocks pass, and counts the answers.
pub(crate) fn pass_blocks<L: Line, A: Air>(
    sender: &mut Sender<L>,
    reader: &mut Reader<L>,
    air: &mut A,
    blocks: usize,
) -> Result<Tally, SenderRefusal>
    requires few { blocks < 2 ^ 32 }
    requires writes { (i : ℕ) → i < blocks → next_answer (after_calls (L.Line.model sender.old.line) i (sending_of sender.old)) 512 ≡ Ok tt }
    ensures ok { is_ok result ≡ true }
    ensures passed { IfOk result (λ t. Passed (L.Line.model reader.old.line) blocks (receiving_of reader.old) t.refused t.closed (receiving_of reader.new)) }
{
    let mut tally = Tally::default();
    for _i in 0..blocks {
        let answer = pass_block(sender, reader, air)?;
        tally = tally.with(&answer);
    }
    Ok(tally)
}
