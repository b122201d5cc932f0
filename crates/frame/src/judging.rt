//! Judging received bits: which frame they are.

ghost use Rattle.std.specs.Prelude.{◌≡◌, ℕ, ◌+◌, ◌≤◌, true, ◌++◌, length, take, drop};
ghost use Rattle.coding.specs.Bits.{are_bits, bits as bits_of, number};
ghost use Rattle.coding.specs.Distance.{distance as distance_of};
ghost use Rattle.frame.specs.Judging.{unique_of, checked_half, judged_half, judged};

use crate::building::{EVEN, ODD};
use crate::carried::{Frame, Half};
use crate::half::Said;
use crate::refusal::FrameRefusal;
use bch::decode;
use coding::{distance, read_bits, write_bits};

/// How many places a unique word may differ in.
const RADIUS: usize = 6;

/// The frame that 244 received bits are: the unique word within six places, and each half the codeword within six places.
pub fn judge(bits: &[u8; 244]) -> Result<Frame, FrameRefusal>
    ensures { result ≡ judged bits.now }
{
    let unique = unique_of(&bits[0..22])?;
    let first = judge_half(1, &bits[22..133])?;
    let second = judge_half(2, &bits[133..244])?;
    Ok(Frame {
        unique,
        identifier: joined(&first.octets, &second.octets),
        first: first.content,
        second: second.content,
    })
}

/// Which unique word lies within six places.
fn unique_of(word: &[u8]) -> Result<u8, FrameRefusal>
    ensures { result ≡ unique_of word.now }
{
    if differences(word, EVEN) <= RADIUS {
        return Ok(0);
    }
    if differences(word, ODD) <= RADIUS {
        return Ok(1);
    }
    Err(FrameRefusal::UniqueWord)
}

/// In how many places a word differs from the 22 bits of a unique word.
fn differences(word: &[u8], unique: u32) -> usize
    ensures { result ≡ distance_of word.now (bits_of 22 unique) }
{
    let mut bits = [0; 22];
    write_bits(unique, &mut bits);
    distance(word, &bits)
}

/// The eight octets of two halves.
fn joined(high: &[u8; 4], low: &[u8; 4]) -> [u8; 8]
    ensures { result ≡ high.now ++ low.now }
{
    let [a, b, c, d] = *high;
    let [e, f, g, h] = *low;
    [a, b, c, d, e, f, g, h]
}

/// What a half carries: the codeword within six places, and its CRC right.
fn judge_half(half: u8, bits: &[u8]) -> Result<Half, FrameRefusal>
    requires { length bits.now ≡ 111 }
    ensures { result ≡ judged_half half bits.now }
{
    let codeword = FrameRefusal::Codeword { half };
    let word = <[u8; 111]>::try_from(bits).ok().ok_or(codeword)?;
    let corrected = decode(&word).ok().ok_or(codeword)?;
    check_half(half, &corrected.codeword)
}

/// What a codeword carries, if its CRC is that of its first 61 bits.
fn check_half(half: u8, codeword: &[u8; 111]) -> Result<Half, FrameRefusal>
    requires { are_bits codeword.now ≡ true }
    ensures { result ≡ checked_half half codeword.now }
{
    let said = Said::of_codeword(codeword);
    if read_bits(&codeword[61..69]) != u32::from(said.check()) {
        return Err(FrameRefusal::Crc { half });
    }
    Ok(said.understood())
}
