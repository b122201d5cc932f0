//! Words of bits, polynomials over the field of two elements, and CRC-8.

#![tactic(auto)]

mod bits;
mod crc;
mod laws;
mod remainders;
mod values;

pub use bits::{are_bits, distance};
pub use crc::{crc8, crc8_of_bits};
pub use laws::division_law;
pub use remainders::{Divisor, remainder};
pub use values::{read_bits, read_long, write_bits, write_long};

// The checks below were computed by dividing polynomials as whole numbers, the start's eight ones before the bits.
#[cfg(test)]
mod tests {
    use super::*;

    #[test]
    fn crc_of_octets(rt: HostRuntime) {
        assert_eq!(rt; crc8(&[]), 0xFF);
        assert_eq!(rt; crc8(&[0]), 0xF9);
        assert_eq!(rt; crc8(&[0, 1, 2, 3, 4, 5, 6, 7]), 0xBE);
        assert_eq!(rt; crc8(b"123456789"), 0x7C);
    }

    #[test]
    fn crc_of_bits(rt: HostRuntime) {
        assert_eq!(rt; crc8_of_bits(&[]), Some(0xFF));
        assert_eq!(rt; crc8_of_bits(&[0, 0, 0, 0, 0, 0, 0, 0]), Some(0xF9));
        assert_eq!(rt;
            crc8_of_bits(&[1, 0, 1, 1, 0, 0, 1, 0, 1, 1, 1]),
            Some(0x52)
        );
        assert_eq!(rt; crc8_of_bits(&[1, 0, 2]), None);
    }

    #[test]
    fn words(rt: HostRuntime) {
        assert!(rt; are_bits(&[0, 1, 1]));
        assert!(rt; !are_bits(&[0, 1, 2]));
        assert_eq!(rt; distance(&[0, 1, 1, 0], &[1, 1, 0, 0]), 2);
        assert_eq!(rt; distance(&[0, 1], &[0, 0, 1, 1]), 3);
        assert_eq!(rt; distance(&[0, 1, 1], &[]), 3);
    }
}
