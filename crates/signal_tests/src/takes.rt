//! Whole takes. The digests were computed apart from this code, by a script that was written from docs/ alone: content words, CRC-8
//! and parity by dividing whole numbers, frames, the stages of the line, and the chip pattern by its rule.

use crate::digest::digest;
use example_cards::card_of_three_frames;
use line_stages::Differential;
use lines::{BENCH, STANDARD};
use sender::Sender;
use std::test::Fail;

#[test]
fn first_take_over_the_standards_line(rt: HostRuntime) -> Result<(), Fail> {
    let mut sender = Sender::new(card_of_three_frames()?, STANDARD, 0, 0)?;
    assert_eq!(rt; digest(&mut sender, 977)?, 0xDB09_8292);
    Ok(())
}

#[test]
fn first_take_over_the_benchs_line(rt: HostRuntime) -> Result<(), Fail> {
    let mut sender = Sender::new(card_of_three_frames()?, BENCH, 0, 0)?;
    assert_eq!(rt; digest(&mut sender, 976)?, 0x9255_7F85);
    Ok(())
}

// the first of these takes ends with a 1, the last bit on the line before the second
#[test]
fn two_takes_over_differential_coding_alone(rt: HostRuntime) -> Result<(), Fail> {
    let mut sender = Sender::new(card_of_three_frames()?, Differential, 0, 0)?;
    assert_eq!(rt; digest(&mut sender, 490)?, 0x92F8_1461);
    Ok(())
}
