//! Lines: how a word of bits goes onto the line as line bits, and comes off it.

#![tactic(auto)]

ghost use Rattle.std.specs.Prelude.{◌≡◌};
ghost use Rattle.line.specs.Line.{Model, LineRules};
ghost use Rattle.line.specs.Calls.{length_of, encode_answer, encode_output, decode_answer, decode_output};

pub mod laws;
mod refusal;

pub use refusal::LineRefusal;

/// The most bits that a word has, and the most line bits.
pub const LONGEST: usize = 4096;

/// A line: turns words of bits into line bits and back. A bit is an octet 0 or 1.
pub trait Line {
    ghost model: { Self → Model };

    /// The number of line bits of a word of `n` bits, or `None` if the line does not take words of that length.
    fn line_length(&self, n: usize) -> Option<usize>
        ensures { result ≡ length_of (model self.now) n };

    /// Writes the line bits of `word`. `last` is the last bit that went over the line before; it comes beside the output, since a decode has none.
    fn encode(&self, word: &[u8], last: u8, out: &mut [u8]) -> Result<(), LineRefusal>
        ensures answer { result ≡ encode_answer (model self.now) word.now last out.old }
        ensures output { out.new ≡ encode_output (model self.now) word.now last out.old };

    /// Writes the word that `bits` give, damaged or not.
    fn decode(&self, bits: &[u8], out: &mut [u8]) -> Result<(), LineRefusal>
        ensures answer { result ≡ decode_answer (model self.now) bits.now out.old }
        ensures output { out.new ≡ decode_output (model self.now) bits.now out.old };

    ghost rules: { (x : Self) → LineRules (model x) };
}
