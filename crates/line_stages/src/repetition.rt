//! Repetition: four copies of the word, which vote.

ghost use Rattle.std.specs.Prelude.{◌≡◌, ◌<◌};
ghost use Rattle.line.specs.Stages.{repetition as repetition_model, vote};
ghost use Rattle.line.proofs.RepetitionRules.{repetition_rules};

use crate::checks::{check_bits, check_word};
use line::{LONGEST, Line, LineRefusal};

/// Sends the word four times over, and lets the four copies of a bit vote.
#[derive(Clone, Copy, PartialEq, Eq, Debug)]
pub struct Repetition;

impl Line for Repetition {
    ghost model = { λ _. repetition_model };

    ghost rules = { λ x. repetition_rules };

    fn line_length(&self, n: usize) -> Option<usize> {
        if n <= LONGEST / 4 { Some(4 * n) } else { None }
    }

    fn encode(&self, word: &[u8], last: u8, out: &mut [u8]) -> Result<(), LineRefusal> {
        check_word(self.line_length(word.len()), word, last, out)?;
        let n = word.len();
        out[..n].copy_from_slice(word);
        out[n..2 * n].copy_from_slice(word);
        out[2 * n..3 * n].copy_from_slice(word);
        out[3 * n..].copy_from_slice(word);
        Ok(())
    }

    fn decode(&self, bits: &[u8], out: &mut [u8]) -> Result<(), LineRefusal> {
        check_bits(self.line_length(out.len()), bits, out)?;
        let n = out.len();
        // by place: a proof knows nothing of `out` after a zip with its `iter_mut`
        for (i, bit) in out.iter_mut().enumerate() {
            *bit = majority(bits[i], bits[n + i], bits[2 * n + i], bits[3 * n + i]);
        }
        Ok(())
    }
}

/// The bit that more than half of four bits have, or 0 at a tie.
fn majority(a: u8, b: u8, c: u8, d: u8) -> u8
    requires { (a < 2) × ((b < 2) × ((c < 2) × (d < 2))) }
    ensures { result ≡ vote a b c d }
{
    if a + b + c + d > 2 { 1 } else { 0 }
}
