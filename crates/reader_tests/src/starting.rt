//! Two rounds from each frame of a round on.

use carrier::{Air, send_two_rounds};
use example_cards::card_of_seven_frames;
use lines::MarkedLine;
use std::process::Abort;
use std::test::Fail;

/// Air that flips nothing.
#[derive(Drop)]
struct Still;

impl Air for Still {
    fn carry(&mut self, _block: &mut [u8]) {}
}

/// From this frame on nothing is refused, one card is closed, and it is the card sent.
fn starts(rt: &impl Abort, from: u32, last: u8) -> Result<(), Fail> {
    let card = card_of_seven_frames()?;
    let came = send_two_rounds(&card, MarkedLine::Bench, from, last, &mut Still)?;
    assert_eq!(rt; (came.refused, came.closed), (0, 1));
    assert!(rt; came.card == Some(card));
    Ok(())
}

#[test]
fn each_frame_of_a_round_of_seven(rt: HostRuntime) -> Result<(), Fail> {
    for from in 0..7u32 {
        starts(&rt, from, 0)?;
        starts(&rt, from, 1)?;
    }
    Ok(())
}

#[test]
fn the_last_frame_numbers(rt: HostRuntime) -> Result<(), Fail> {
    starts(&rt, 999_999_986, 0)
}
