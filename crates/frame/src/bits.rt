//! Writing numbers and octets as bits, one after the other.

ghost use Rattle.std.specs.Prelude.{◌≡◌, ◌≤◌};
ghost use Rattle.coding.specs.Bits.{bits as bits_of, octet_bits};
ghost use Rattle.buffers.specs.Buffer.{text_of, appended};

use buffers::Buffer;
use coding::write_bits;

/// The most bits of a number.
const LONGEST: usize = 32;

/// Appends the `width` low bits of `value`, as far as there is room.
pub(crate) fn append_number<const N: usize>(bits: &mut Buffer<N>, width: usize, value: u32)
    requires { width ≤ 32 }
    ensures { text_of bits.new ≡ appended N (text_of bits.old) (bits_of width value) }
{
    let mut room = [0; LONGEST];
    let number = &mut room[..width];
    write_bits(value, number);
    bits.extend(number);
}

/// Appends the bits of octets, as far as there is room.
pub(crate) fn append_octets<const N: usize>(bits: &mut Buffer<N>, octets: &[u8])
    ensures { text_of bits.new ≡ appended N (text_of bits.old) (octet_bits octets.now) }
{
    for octet in octets {
        append_number(bits, 8, u32::from(*octet));
    }
}
