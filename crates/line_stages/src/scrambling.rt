//! Scrambling: a fixed sequence is added to the word.

ghost use Rattle.std.specs.Prelude.{◌≡◌, ◌+◌, true, [], ◌∷◌, ◌++◌, drop, length, slice_index};
ghost use Rattle.coding.specs.Bits.{are_bits, plus};
ghost use Rattle.line.specs.Stages.{scrambling as scrambling_model, scrambled, listed, sequence};
ghost use Rattle.line.proofs.ScramblingRules.{scrambling_rules};

use crate::bits::sum;
use crate::checks::{check_bits, check_word};
use line::{LONGEST, Line, LineRefusal};

/// The first bits of a word go as they are.
const UNSCRAMBLED: usize = 22;

/// Adds a fixed sequence to all but the first 22 bits of a word, so that no word makes long runs of one bit.
#[derive(Clone, Copy, PartialEq, Eq, Debug)]
pub struct Scrambling;

impl Line for Scrambling {
    ghost model = { λ _. scrambling_model };

    ghost rules = { λ x. scrambling_rules };

    fn line_length(&self, n: usize) -> Option<usize> {
        if n <= LONGEST { Some(n) } else { None }
    }

    fn encode(&self, word: &[u8], last: u8, out: &mut [u8]) -> Result<(), LineRefusal> {
        check_word(self.line_length(word.len()), word, last, out)?;
        scramble(word, out);
        Ok(())
    }

    fn decode(&self, bits: &[u8], out: &mut [u8]) -> Result<(), LineRefusal> {
        check_bits(self.line_length(out.len()), bits, out)?;
        scramble(bits, out);
        Ok(())
    }
}

/// Writes `word` with the scrambling sequence added after the first bits.
fn scramble(word: &[u8], out: &mut [u8])
    requires { (are_bits word.now ≡ true) × (length out.old ≡ length word.now) }
    ensures { out.new ≡ scrambled word.now }
{
    out.copy_from_slice(word);
    let first = word.len().min(UNSCRAMBLED);
    add_sequence(&mut out[first..]);
}

/// Adds the scrambling sequence to bits.
fn add_sequence(bits: &mut [u8])
    requires { are_bits bits.old ≡ true }
    ensures { bits.new ≡ listed (λ i. plus (slice_index bits.old i) (sequence (i + 9))) (length bits.old) }
{
    let mut sequence = Sequence::new();
    for bit in bits.iter_mut() {
        *bit = sum(*bit, sequence.next_bit());
    }
}

/// The scrambling sequence, by the nine bits before the next one, the oldest first.
#[derive(Drop)]
struct Sequence {
    register: [u8; 9],
    ghost bits: { are_bits register ≡ true },
}

impl Sequence {
    /// The sequence from its first bit on.
    fn new() -> Sequence
        ensures { result.register ≡ listed sequence 9 }
    {
        Sequence {
            register: [0, 0, 1, 0, 0, 0, 0, 0, 1],
        }
    }

    /// The next bit: the sum of the ninth before it and the fifth.
    fn next_bit(&mut self) -> u8
        ensures bit { result ≡ plus (slice_index self.old.register 0) (slice_index self.old.register 4) }
        ensures register { self.new.register ≡ drop 1 self.old.register ++ (result ∷ []) }
    {
        // nine names: a rotation in place would hide which bits are added
        let [a, b, c, d, e, f, g, h, i] = self.register;
        let next = sum(a, e);
        self.register = [b, c, d, e, f, g, h, i, next];
        next
    }
}
