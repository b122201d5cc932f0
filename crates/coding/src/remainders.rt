//! Long division of polynomials over the field of two elements.

ghost use Rattle.std.specs.Prelude.{◌≡◌, ℕ, suc, ◌*◌, ◌^◌, ◌<◌, ◌≤◌, true, bit_xor};
ghost use Rattle.coding.specs.Bits.{are_bits};
ghost use Rattle.coding.specs.Polynomial.{reduced, remainder as remainder_of};

/// A polynomial to divide by.
pub trait Divisor {
    const DEGREE: u32;

    /// Its coefficients, that of x^i being the bit i.
    const TERMS: u64;

    ghost DEGREE: { ℕ };

    ghost TERMS: { ℕ };

    ghost fits: { DEGREE < 64 };

    ghost high: { 2 ^ DEGREE ≤ TERMS };

    ghost low: { TERMS < 2 ^ suc DEGREE };
}

/// What long division leaves of some bits, each a coefficient and the first the highest, `start` being what is left before
/// the first.
pub fn remainder<D: Divisor>(start: u64, bits: &[u8]) -> u64
    ensures { start < 2 ^ D.DEGREE → are_bits bits.now ≡ true → result ≡ remainder_of D.DEGREE D.TERMS start bits.now }
{
    let mut rest = start;
    for bit in bits {
        rest = after_bit::<D>(rest, *bit);
    }
    rest
}

/// What is left when one more coefficient is brought down.
fn after_bit<D: Divisor>(rest: u64, bit: u8) -> u64
    ensures { rest < 2 ^ D.DEGREE → bit < 2 → result ≡ reduced D.DEGREE D.TERMS (bit_xor (rest * 2) (bit * 2 ^ D.DEGREE)) }
{
    let top = 1u64 << D::DEGREE;
    let moved = rest.wrapping_mul(2) ^ u64::from(bit).wrapping_mul(top);
    if moved < top { moved } else { moved ^ D::TERMS }
}
