//! What a half says, and the bits that it is sent as.

ghost use Rattle.std.specs.Prelude.{◌≡◌, ℕ, ◌+◌, ◌≤◌, true, length, take, drop};
ghost use Rattle.coding.specs.Bits.{are_bits, number};
ghost use Rattle.coding.specs.Crc.{crc8};
ghost use Rattle.field.specs.Code.{encode as encode_of};
ghost use Rattle.frame.specs.Frame.{saying, checked};
ghost use Rattle.frame.specs.Judging.{understood};

use crate::bits::{append_number, append_octets};
use crate::carried::Half;
use bch::encode;
use buffers::Buffer;
use coding::{crc8_of_bits, read_bits};
use content::Content;

/// The 61 bits that a half says: four octets of the identifier, a Content ID and a word.
#[derive(Clone, Copy)]
pub(crate) struct Said {
    bits: [u8; 61],
    ghost are_bits: { are_bits bits ≡ true },
    ghost whole: { length bits ≡ 61 },
}

impl Said {
    /// What the half of these octets and this content says.
    pub(crate) fn of(octets: &[u8; 4], content: Content) -> Said
        ensures { result.bits ≡ saying octets.now content }
    {
        let mut bits = Buffer::<61>::new();
        append_octets(&mut bits, octets);
        append_number(&mut bits, 5, u32::from(content.id));
        append_number(&mut bits, 24, content.word);
        Said {
            bits: *bits.as_array(),
        }
    }

    /// What a codeword says.
    pub(crate) fn of_codeword(codeword: &[u8; 111]) -> Said
        requires { are_bits codeword.now ≡ true }
        ensures { result.bits ≡ take 61 codeword.now }
    {
        // copied, since this cannot fail and `try_from` would ask what then
        let mut bits = [0; 61];
        bits.copy_from_slice(&codeword[..61]);
        Said { bits }
    }

    /// The CRC-8 of the bits.
    pub(crate) fn check(&self) -> u8
        ensures { result ≡ crc8 self.now.bits }
    {
        crc8_of_bits(&self.bits).unwrap_or(0)
    }

    /// The bits with their CRC-8, and the parity of these 69.
    pub(crate) fn coded(&self) -> [u8; 111]
        ensures { result ≡ encode_of (checked self.now.bits) }
    {
        let mut bits = Buffer::<69>::new();
        bits.extend(&self.bits);
        append_number(&mut bits, 8, u32::from(self.check()));
        encode(bits.as_array()).unwrap_or([0; 111])
    }

    /// The octets and the content.
    pub(crate) fn understood(&self) -> Half
        ensures { result ≡ understood self.now.bits }
    {
        Half {
            octets: [
                self.small(0, 8),
                self.small(8, 8),
                self.small(16, 8),
                self.small(24, 8),
            ],
            content: Content {
                id: self.small(32, 5),
                word: read_bits(&self.bits[37..]),
            },
        }
    }

    /// The number of at most eight bits from a place on.
    fn small(&self, at: usize, width: usize) -> u8
        requires { (at + width ≤ 61) × (width ≤ 8) }
        ensures { result ≡ number (take width (drop at self.now.bits)) }
    {
        read_bits(&self.bits[at..at + width]) as u8
    }
}
