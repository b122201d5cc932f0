//! CRC-8, the check of identifiers and of halves.

ghost use Rattle.std.specs.Prelude.{◌≡◌, ℕ, ◌<◌, if◌then◌else◌, Some, None};
ghost use Rattle.std.proofs.Common.{lit<, lit≤};
ghost use Rattle.coding.specs.Bits.{are_bits, bits as bits_of, octet_bits};
ghost use Rattle.coding.specs.Polynomial.{remainder as remainder_of, OnlyRemainder};
ghost use Rattle.coding.specs.Crc.{crc8 as crc, divisor};

use crate::bits::are_bits;
use crate::remainders::{Divisor, remainder};
use crate::values::write_bits;

/// x^8 + x^7 + x^6 + x^4 + x^2 + 1.
struct CrcPolynomial;

impl Divisor for CrcPolynomial {
    const DEGREE: u32 = 8;

    const TERMS: u64 = 0b1_1101_0101;

    ghost DEGREE = { 8 };

    ghost TERMS = { divisor };

    ghost fits = { lit< tt };

    ghost high = { lit≤ tt };

    ghost low = { lit< tt };
}

/// What is left before the first bit.
const START: u64 = 0xFF;

/// The CRC-8 of the bits of `octets`, each octet's high bit first. It is the one remainder by the divisor, the start in front
/// of the bits.
pub fn crc8(octets: &[u8]) -> u8
    ensures is { result ≡ crc (octet_bits octets.now) }
    ensures only { OnlyRemainder 8 divisor 0xFF (octet_bits octets.now) result }
{
    let mut rest = START;
    for octet in octets {
        rest = after_octet(rest, *octet);
    }
    rest as u8
}

/// The CRC-8 of a word of bits, or nothing where an octet is not a bit.
pub fn crc8_of_bits(bits: &[u8]) -> Option<u8>
    ensures is { result ≡ (if are_bits bits.now then Some (crc bits.now) else None) }
    ensures only { (p : ℕ) → result ≡ Some p → OnlyRemainder 8 divisor 0xFF bits.now p }
{
    if !are_bits(bits) {
        return None;
    }
    Some(remainder::<CrcPolynomial>(START, bits) as u8)
}

/// What is left after the eight bits of an octet.
fn after_octet(rest: u64, octet: u8) -> u64
    requires { rest < 256 }
    ensures is { result ≡ remainder_of 8 divisor rest (bits_of 8 octet) }
    ensures small { result < 256 }
{
    let mut bits = [0; 8];
    write_bits(u32::from(octet), &mut bits);
    remainder::<CrcPolynomial>(rest, &bits)
}
