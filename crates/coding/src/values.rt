//! Numbers to bits and back.

ghost use Rattle.std.specs.Prelude.{◌≡◌, ◌/◌, ◌%◌, ◌^◌, length};
ghost use Rattle.coding.specs.Bits.{bits as bits_of, number};

/// Fills `out` with the low bits of `value`, the highest first.
pub fn write_bits(value: u32, out: &mut [u8])
    ensures { out.new ≡ bits_of (length out.old) value }
{
    write_long(u64::from(value), out);
}

/// Fills `out` with the low bits of a long `value`, the highest first.
pub fn write_long(value: u64, out: &mut [u8])
    ensures { out.new ≡ bits_of (length out.old) value }
{
    let n = out.len();
    // the place from the end is reckoned: of what a loop over `iter_mut().rev()` writes a proof knows nothing (tried)
    for (i, bit) in out.iter_mut().enumerate() {
        *bit = bit_of(value, n - 1 - i);
    }
}

/// The bit of `value` at 2^`power`.
fn bit_of(value: u64, power: usize) -> u8
    ensures { result ≡ value / 2 ^ power % 2 }
{
    if power < 64 {
        ((value >> power) % 2) as u8
    } else {
        0
    }
}

/// The number whose bits these are, the first the highest; of more than 32 bits, its low 32.
pub fn read_bits(bits: &[u8]) -> u32
    ensures { result ≡ number bits.now % 2 ^ 32 }
{
    (read_long(bits) % 0x1_0000_0000) as u32
}

/// The number whose bits these are, the first the highest; of more than 64 bits, its low 64.
pub fn read_long(bits: &[u8]) -> u64
    ensures { result ≡ number bits.now % 2 ^ 64 }
{
    bits.iter().fold(0u64, |value, bit| {
        value.wrapping_mul(2).wrapping_add(u64::from(*bit))
    })
}
