//! Differential coding: the changes of the line bit carry the word.

ghost use Rattle.line.specs.Stages.{differential as differential_model};
ghost use Rattle.line.proofs.DifferentialRules.{differential_rules};

use crate::bits::sum;
use crate::checks::{check_bits, check_word};
use line::{LONGEST, Line, LineRefusal};

/// Sends a bit as a change of the line bit, or none. It begins with the last bit of the line.
#[derive(Clone, Copy, PartialEq, Eq, Debug)]
pub struct Differential;

impl Line for Differential {
    ghost model = { λ _. differential_model };

    ghost rules = { λ x. differential_rules };

    fn line_length(&self, n: usize) -> Option<usize> {
        if n < LONGEST { Some(n + 1) } else { None }
    }

    fn encode(&self, word: &[u8], last: u8, out: &mut [u8]) -> Result<(), LineRefusal> {
        check_word(self.line_length(word.len()), word, last, out)?;
        let mut line_bit = last;
        out[0] = line_bit;
        // by place: of what a zip with `iter_mut` writes a proof knows nothing (tried)
        for (i, bit) in word.iter().enumerate() {
            line_bit = sum(line_bit, *bit);
            out[i + 1] = line_bit;
        }
        Ok(())
    }

    fn decode(&self, bits: &[u8], out: &mut [u8]) -> Result<(), LineRefusal> {
        check_bits(self.line_length(out.len()), bits, out)?;
        // by place: a proof knows nothing of `out` after a zip with its `iter_mut`
        for (i, bit) in out.iter_mut().enumerate() {
            *bit = sum(bits[i], bits[i + 1]);
        }
        Ok(())
    }
}
