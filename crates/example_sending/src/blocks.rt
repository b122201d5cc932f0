//! The blocks of a sender, one by one.

ghost use Rattle.std.specs.Prelude.{◌≡◌, replicate};
ghost use Rattle.card.specs.Card.{on_ok};
ghost use Rattle.sender.specs.Sending.{sending_of, next_answer, next_output, next_sending};

use line::Line;
use sender::{Sender, SenderRefusal};

/// The next block, in an array of its own.
pub fn next_block<L: Line>(sender: &mut Sender<L>) -> Result<[u8; 512], SenderRefusal>
    ensures block { result ≡ on_ok (λ _. next_output (L.Line.model sender.old.line) (sending_of sender.old) (replicate 512 0)) (next_answer (sending_of sender.old) 512) }
    ensures sending { sending_of sender.new ≡ next_sending (L.Line.model sender.old.line) (sending_of sender.old) 512 }
    ensures line { sender.new.line ≡ sender.old.line }
{
    let mut out = [0; 512];
    sender.next_block(&mut out)?;
    Ok(out)
}
