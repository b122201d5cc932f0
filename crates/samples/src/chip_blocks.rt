//! Blocks: spread, damaged and despread.

use crate::refusals::refused;
use chips::{BLOCK_OCTETS, despread, spread};
use reports::{Refusal, Report};
use std::process::Abort;

/// The block of a bit.
fn block(rt: &impl Abort, bit: u8) -> [u8; BLOCK_OCTETS] {
    let mut octets = [0; 512];
    assert!(rt; spread(bit, &mut octets).is_ok());
    octets
}

/// The block of a bit with so many of its first chips flipped.
fn flipped(rt: &impl Abort, bit: u8, chips: usize) -> [u8; BLOCK_OCTETS] {
    let mut octets = block(rt, bit);
    // chip by chip: over octets the last one, flipped in part, would need a case of its own
    for chip in 0..chips {
        if let Some(octet) = octets.get_mut(chip / 8) {
            *octet ^= 128 >> (chip % 8);
        }
    }
    octets
}

/// What octets are heard as, or the number of the refusal.
fn heard(octets: &[u8]) -> Result<u8, u8> {
    despread(octets).map_err(|refusal| refusal.number())
}

#[test]
fn blocks_begin_with_the_pattern(rt: HostRuntime) {
    let zero = block(&rt, 0);
    let one = block(&rt, 1);
    assert!(rt; zero[0..4] == [0x50, 0x91, 0xE3, 0x64]);
    assert!(rt; one[0..4] == [0xAF, 0x6E, 0x1C, 0x9B]);
    assert!(rt; zero.iter().zip(&one).all(|(a, b)| a ^ b == 0xFF));
    // of a number above 1 the lowest bit is spread
    assert!(rt; block(&rt, 2) == zero);
    assert!(rt; block(&rt, 255) == one);
}

#[test]
fn other_lengths_are_refused(rt: HostRuntime) {
    let mut short = [7; 511];
    let mut long = [7; 513];
    let fifteen = Some(Report::number_alone(15));
    assert_eq!(rt; refused(spread(1, &mut short)), fifteen);
    assert_eq!(rt; refused(spread(1, &mut long)), fifteen);
    assert_eq!(rt; refused(spread(1, &mut [])), fifteen);
    assert!(rt; short == [7; 511]);
    assert!(rt; long == [7; 513]);
    assert_eq!(rt; heard(&short), Err(15));
    assert_eq!(rt; heard(&long), Err(15));
    assert_eq!(rt; heard(&[]), Err(15));
}

#[test]
fn half_of_the_chips_flipped(rt: HostRuntime) {
    for bit in 0..2u8 {
        assert_eq!(rt; heard(&flipped(&rt, bit, 0)), Ok(bit));
        assert_eq!(rt; heard(&flipped(&rt, bit, 2047)), Ok(bit));
        // as many chips are like the pattern as unlike it
        assert_eq!(rt; heard(&flipped(&rt, bit, 2048)), Ok(0));
        assert_eq!(rt; heard(&flipped(&rt, bit, 2049)), Ok(1 - bit));
        assert_eq!(rt; heard(&flipped(&rt, bit, 4096)), Ok(1 - bit));
    }
}
