//! The (111, 69) code: encoded, and decoded to the codeword within six places.

#![tactic(auto)]

mod decoder;
mod encoder;
mod word;

pub use decoder::decode;
pub use encoder::encode;
pub use word::{CodeRefusal, Corrected};

// The vectors were computed apart from this code: the generator from its roots, the parity by dividing whole numbers, and
// what a word decodes to by the algorithm of Berlekamp and Massey over all 127 places.
#[cfg(test)]
mod tests {
    use super::*;
    use std::array;
    use std::test::Fail;

    // The 69 low bits of a number.
    fn data_of(number: u128) -> [u8; 69] {
        array::from_fn(|i| ((number >> (68 - i)) % 2) as u8)
    }

    // A word of 111 bits, the low bits of a number flipped in it.
    fn added(word: &[u8; 111], number: u128) -> [u8; 111] {
        array::from_fn(|i| word[i] ^ ((number >> (110 - i)) % 2) as u8)
    }

    // The errors at some powers of x.
    fn errors(powers: &[u32]) -> u128 {
        powers.iter().fold(0, |sum, p| sum ^ (1 << (*p % 111)))
    }

    #[test]
    fn encodes(rt: HostRuntime) -> Result<(), Fail> {
        let vectors: [(u128, u128); 6] = [
            (0, 0),
            (1, 0x3b2_be5a_f377),
            (0x1f_ffff_ffff_ffff_ffff, 0x342_07a3_7e3c),
            (0x10_0000_0000_0000_0000, 0x0e3_0472_c122),
            (0x00_2549_14f2_dbf2_e264, 0x19b_e6ce_226e),
            (0x06_3bf9_1587_f8ba_1161, 0x1a2_27a0_fc3d),
        ];
        for (data, parity) in vectors {
            let word = encode(&data_of(data))?;
            assert_eq!(rt; word, added(&[0; 111], (data << 42) ^ parity));
        }
        Ok(())
    }

    #[test]
    fn corrects_up_to_six(rt: HostRuntime) -> Result<(), Fail> {
        let sent = encode(&data_of(0x06_3bf9_1587_f8ba_1161))?;
        let patterns: [[u32; 6]; 3] = [
            [110, 109, 108, 107, 106, 105],
            [5, 4, 3, 2, 1, 0],
            [0, 110, 22, 88, 43, 67],
        ];
        for pattern in patterns {
            for weight in 0..7usize {
                let received = added(&sent, errors(&pattern[0..weight]));
                assert_eq!(rt;
                    decode(&received)?,
                    Corrected {
                        codeword: sent,
                        places: weight as u8,
                    }
                );
            }
        }
        Ok(())
    }

    #[test]
    fn further_than_six(rt: HostRuntime) -> Result<(), Fail> {
        let sent = encode(&data_of(0x00_2549_14f2_dbf2_e264))?;
        let seven = added(&sent, errors(&[1, 7, 27, 38, 43, 44, 59]));
        assert_eq!(rt; decode(&seven), Err(CodeRefusal::NoCodeword));
        // seven errors that lie six places from another codeword
        let astray = added(&sent, errors(&[33, 39, 56, 67, 82, 108, 109]));
        let other = added(&astray, errors(&[31, 45, 101, 103, 106, 107]));
        assert_eq!(rt;
            decode(&astray),
            Ok(Corrected {
                codeword: other,
                places: 6,
            })
        );
        let noise = added(&[0; 111], 0x751a_d98c_b2b2_be11_4fa6_2136_850e);
        assert_eq!(rt; decode(&noise), Err(CodeRefusal::NoCodeword));
        Ok(())
    }

    // In the code of length 127 these are within six places of a codeword that is not zero where the code was cut.
    #[test]
    fn errors_in_the_cut_places(rt: HostRuntime) -> Result<(), Fail> {
        let sent = encode(&data_of(0x06_3bf9_1587_f8ba_1161))?;
        for remainder in [0x1c6_08e5_8244, 0x2aa_7733_e99c, 0x3d9_5f2d_79bb] {
            assert_eq!(rt;
                decode(&added(&sent, remainder)),
                Err(CodeRefusal::NoCodeword)
            );
        }
        let six = added(&sent, errors(&[20, 26, 52, 55, 65, 69, 100]));
        assert_eq!(rt; decode(&six), Err(CodeRefusal::NoCodeword));
        Ok(())
    }

    #[test]
    fn what_is_no_bit(rt: HostRuntime) {
        assert_eq!(rt; encode(&[2; 69]), Err(CodeRefusal::NotBits));
        assert_eq!(rt; decode(&[255; 111]), Err(CodeRefusal::NotBits));
    }
}
