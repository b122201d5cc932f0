//! Despreading: the line bit that a block is heard as.

ghost use Rattle.std.specs.Prelude.{◌≡◌, ◌≤◌, length, if◌then◌else◌, nat_lt, sum_by};
ghost use Rattle.std.specs.List.{zip};
ghost use Rattle.coding.specs.Bits.{group_bits};
ghost use Rattle.coding.specs.Distance.{distance};
ghost use Rattle.chips.specs.Chips.{unlike as unlike_in};
ghost use Rattle.chips.specs.Calls.{despread_answer};
ghost use Rattle.chips.specs.Laws.{KeptBit, HeardBits};

use crate::block::check_length;
use crate::pattern::pattern_octets;
use crate::refusal::BlockRefusal;

/// Half of a block's chips.
const HALF: u32 = 2048;

/// The bit that 512 octets are heard as: 1 where more than 2,048 of their chips are unlike the pattern, otherwise 0.
pub fn despread(heard: &[u8]) -> Result<u8, BlockRefusal>
    ensures answer { result ≡ despread_answer heard.now }
    ensures kept { KeptBit }
    ensures bits { HeardBits }
{
    check_length(heard.len())?;
    Ok(majority(unlike_chips(heard)))
}

/// 1 where more than half of a block's chips are unlike the pattern, otherwise 0.
fn majority(unlike: u32) -> u8
    ensures { result ≡ (if nat_lt 2048 unlike then 1 else 0) }
{
    if unlike > HALF { 1 } else { 0 }
}

/// How many chips of a block are unlike the pattern. They are compared 64 at a time.
fn unlike_chips(heard: &[u8]) -> u32
    requires { length heard.now ≡ 512 }
    ensures { result ≡ unlike_in heard.now }
{
    let (words, _) = heard.as_chunks::<8>();
    let (pattern, _) = pattern_octets().as_chunks::<8>();
    unlike_in_words(words, pattern)
}

/// In how many bits words of eight octets differ, each from its partner.
fn unlike_in_words(words: &[[u8; 8]], partners: &[[u8; 8]]) -> u32
    requires { length words.now ≤ 64 }
    ensures { result ≡ sum_by (λ p. distance (group_bits 8 p.0) (group_bits 8 p.1)) (zip words.now partners.now) }
{
    words
        .iter()
        .zip(partners)
        .map(|(word, partner)| unlike_bits(*word, *partner))
        .sum()
}

/// In how many of their 64 bits two words of eight octets differ.
fn unlike_bits(a: [u8; 8], b: [u8; 8]) -> u32
    ensures is { result ≡ distance (group_bits 8 a) (group_bits 8 b) }
    ensures most { result ≤ 64 }
{
    (u64::from_be_bytes(a) ^ u64::from_be_bytes(b)).count_ones()
}
