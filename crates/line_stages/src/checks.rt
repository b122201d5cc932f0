//! What every stage refuses: lengths first, then octets that are no bits.

ghost use Rattle.std.specs.Prelude.{◌≡◌, length};
ghost use Rattle.line.specs.Line.{Model};
ghost use Rattle.line.specs.Calls.{length_of, encode_answer, decode_answer};

use coding::are_bits;
use line::LineRefusal;

// Two checks and not one: a word comes with a last bit and its length is `word`'s, of line bits it is `out`'s.

/// The answer to encoding `word` into `out`, where a word of that length needs so many places.
pub(crate) fn check_word(
    needed: Option<usize>,
    word: &[u8],
    last: u8,
    out: &[u8],
) -> Result<(), LineRefusal>
    ghost model: { Model }
    requires { needed ≡ length_of model (length word.now) }
    ensures { result ≡ encode_answer model word.now last out.now }
{
    if needed != Some(out.len()) {
        return Err(LineRefusal::WrongLength);
    }
    if !are_bits(word) || last > 1 {
        return Err(LineRefusal::NotABit);
    }
    Ok(())
}

/// The answer to decoding `bits` into `out`, where a word of that length has so many line bits.
pub(crate) fn check_bits(needed: Option<usize>, bits: &[u8], out: &[u8]) -> Result<(), LineRefusal>
    ghost model: { Model }
    requires { needed ≡ length_of model (length out.now) }
    ensures { result ≡ decode_answer model bits.now out.now }
{
    if needed != Some(bits.len()) {
        return Err(LineRefusal::WrongLength);
    }
    if !are_bits(bits) {
        return Err(LineRefusal::NotABit);
    }
    Ok(())
}
