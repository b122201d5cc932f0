//! The systematic encoder: 69 data bits, then the 42 bits of their remainder by the generator.

ghost use Rattle.std.specs.Prelude.{◌≡◌, ℕ, suc, ◌^◌, ◌<◌, ◌≤◌, true, List, ◌++◌, drop, Ok};
ghost use Rattle.std.proofs.Common.{lit<};
ghost use Rattle.coding.specs.Bits.{are_bits, bits, number};
ghost use Rattle.coding.specs.Distance.{distance};
ghost use Rattle.coding.specs.Polynomial.{OnlyRemainder};
ghost use Rattle.field.specs.Field.{exp, value};
ghost use Rattle.field.specs.Code.{generator, parity as parity_of, Codeword};
ghost use Rattle.field.proofs.Roots.{generator_degree};
ghost use Rattle.bch.specs.Codec.{encoded};

use crate::word::CodeRefusal;
use coding::{Divisor, are_bits, remainder, write_long};

/// The generator, of degree 42: the product of the six polynomials of degree 7.
struct Generator;

impl Divisor for Generator {
    const DEGREE: u32 = 42;

    const TERMS: u64 = 0b111_1011_0010_1011_1110_0101_1010_1111_0011_0111_0111;

    ghost DEGREE = { 42 };

    ghost TERMS = { generator };

    ghost fits = { lit< tt };

    ghost high = { generator_degree.0 };

    ghost low = { generator_degree.1 };
}

/// The codeword of 69 data bits. Its last 42 bits are the one remainder by the generator, c to c^12 are its roots, and no
/// other codeword lies within 12 places.
pub fn encode(data: &[u8; 69]) -> Result<[u8; 111], CodeRefusal>
    ensures is { result ≡ encoded «data».now }
    ensures only { (w : List ℕ) → result ≡ Ok w → OnlyRemainder 42 generator 0 «data».now (number (drop 69 w)) }
    ensures roots { (w : List ℕ) → result ≡ Ok w → (i : ℕ) → i < 12 → value (exp (suc i)) w ≡ 0 }
    ensures far { (w v : List ℕ) → result ≡ Ok w → Codeword v → distance w v ≤ 12 → w ≡ v }
{
    if !are_bits(data) {
        return Err(CodeRefusal::NotBits);
    }
    Ok(with_parity(data, parity(data)))
}

/// The data bits, and the bits of their parity behind them.
fn with_parity(data: &[u8; 69], parity: u64) -> [u8; 111]
    ensures { result ≡ «data».now ++ bits 42 parity }
{
    let mut word = [0; 111];
    word[..69].copy_from_slice(data);
    write_long(parity, &mut word[69..]);
    word
}

/// The parity of data bits: their remainder by the generator.
pub(crate) fn parity(data: &[u8]) -> u64
    requires { are_bits «data».now ≡ true }
    ensures { result ≡ parity_of «data».now }
{
    remainder::<Generator>(0, data)
}
