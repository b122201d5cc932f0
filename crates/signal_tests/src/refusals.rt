//! What a sender refuses, in which order, and that it then stays as it was.

use crate::digest::digest;
use example_cards::card_of_three_frames;
use example_sending::{SIXTEEN_COPIES, SIXTY_FOUR_COPIES};
use line::Line;
use line_stages::Differential;
use lines::STANDARD;
use reports::{Refusal, Report};
use sender::Sender;
use std::process::Abort;
use std::test::Fail;

/// What is reported where only this number is told.
fn number(number: u8) -> Option<Report> {
    Some(Report::number_alone(number))
}

/// What making a sender for the example card is refused with.
fn made<L: Line + Drop>(line: L, from: u32, last: u8) -> Result<Option<Report>, Fail> {
    let sender = Sender::new(card_of_three_frames()?, line, from, last);
    Ok(sender.err().map(|refusal| refusal.report()))
}

/// What the next block is refused with in an output of sevens, which stays as it was.
fn next<L: Line>(rt: &impl Abort, sender: &mut Sender<L>, out: &mut [u8]) -> Option<Report> {
    let answer = sender.next_block(out);
    assert!(rt; out.iter().all(|octet| *octet == 7));
    answer.err().map(|refusal| refusal.report())
}

#[test]
fn a_line_that_does_not_take_frames_comes_first(rt: HostRuntime) -> Result<(), Fail> {
    assert_eq!(rt; made(SIXTY_FOUR_COPIES, 0, 0)?, number(12));
    assert_eq!(rt; made(SIXTY_FOUR_COPIES, 1_000_000_000, 2)?, number(12));
    assert_eq!(rt; made(SIXTEEN_COPIES, 0, 0)?, None);
    Ok(())
}

#[test]
fn the_last_bit_comes_before_the_frame_number(rt: HostRuntime) -> Result<(), Fail> {
    assert_eq!(rt; made(STANDARD, 0, 2)?, number(13));
    assert_eq!(rt; made(STANDARD, 1_000_000_000, 2)?, number(13));
    assert_eq!(rt; made(STANDARD, 1_000_000_000, 1)?, number(14));
    assert_eq!(rt; made(STANDARD, 4_294_967_295, 0)?, number(14));
    assert_eq!(rt; made(STANDARD, 999_999_999, 1)?, None);
    Ok(())
}

// the digests are those of blocks 1 to 100, 101 to 245 and 246 to 490 of two takes
#[test]
fn an_output_that_is_no_block_changes_nothing(rt: HostRuntime) -> Result<(), Fail> {
    let mut sender = Sender::new(card_of_three_frames()?, Differential, 0, 0)?;
    assert_eq!(rt; next(&rt, &mut sender, &mut []), number(15));
    assert_eq!(rt; digest(&mut sender, 100)?, 0x88BA_F1D1);
    assert_eq!(rt; next(&rt, &mut sender, &mut [7; 511]), number(15));
    assert_eq!(rt; digest(&mut sender, 145)?, 0x6AE8_DB42);
    assert_eq!(rt; next(&rt, &mut sender, &mut [7; 513]), number(15));
    assert_eq!(rt; digest(&mut sender, 245)?, 0xEE31_2832);
    Ok(())
}

// frame 999,999,999 carries what frame 0 carries, after the other unique word
#[test]
fn after_the_last_frame_every_block_is_refused(rt: HostRuntime) -> Result<(), Fail> {
    let mut sender = Sender::new(card_of_three_frames()?, Differential, 999_999_999, 1)?;
    assert_eq!(rt; digest(&mut sender, 245)?, 0xF908_F476);
    for _ in 0..300u32 {
        assert_eq!(rt; next(&rt, &mut sender, &mut [7; 512]), number(14));
        assert_eq!(rt; next(&rt, &mut sender, &mut [7; 511]), number(15));
    }
    Ok(())
}
