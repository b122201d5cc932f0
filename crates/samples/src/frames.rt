//! Frames: built, damaged and judged.

use crate::refusals::refused;
use example_cards::card_of_seven_frames;
use frame::{Frame, FrameRefusal, judge};
use reports::{Refusal, Report};
use std::test::Fail;

/// The bits with those at some places flipped.
fn flipped(bits: &[u8; 244], places: &[usize]) -> [u8; 244] {
    let mut bits = *bits;
    for place in places {
        if let Some(bit) = bits.get_mut(*place) {
            *bit ^= 1;
        }
    }
    bits
}

#[test]
fn frames_follow_the_sequence(rt: HostRuntime) -> Result<(), Fail> {
    let card = card_of_seven_frames()?;
    let ids = [
        (0, 1),
        (2, 3),
        (4, 5),
        (6, 7),
        (8, 9),
        (10, 11),
        (12, 0),
        (0, 1),
    ];
    for (number, (first, second)) in ids.iter().enumerate() {
        let frame = Frame::of(&card, number as u32);
        assert_eq!(rt; frame.first.id, *first);
        assert_eq!(rt; frame.second.id, *second);
        assert_eq!(rt; usize::from(frame.unique), number % 2);
    }
    let last = Frame::of(&card, 999_999_999);
    assert_eq!(rt; last.unique, 1);
    assert!(rt; last.identifier == [0x00, 0x06, 0xB0, 0xFF, 0xFF, 0x01, 0xAC, 0x07]);
    Ok(())
}

#[test]
fn frames_are_judged_as_sent(rt: HostRuntime) -> Result<(), Fail> {
    let card = card_of_seven_frames()?;
    for number in 0..7u32 {
        let frame = Frame::of(&card, number);
        let bits = frame.bits();
        assert_eq!(rt; judge(&bits), Ok(frame));
        assert_eq!(rt;
            judge(&flipped(&bits, &[0, 21, 22, 132, 133, 243])),
            Ok(frame)
        );
    }
    Ok(())
}

#[test]
fn damage_beyond_six_places(rt: HostRuntime) -> Result<(), Fail> {
    let bits = Frame::of(&card_of_seven_frames()?, 3).bits();
    assert_eq!(rt;
        refused(judge(&flipped(&bits, &[0, 1, 2, 3, 4, 5, 6]))),
        Some(Report::number_alone(16))
    );
    assert_eq!(rt; FrameRefusal::UniqueWord.place(), 0);
    // seven errors in a half lie within six places of no codeword here
    assert_eq!(rt;
        refused(judge(&flipped(&bits, &[22, 40, 60, 80, 100, 110, 120]))),
        Some(Report::in_half(17, 1))
    );
    assert_eq!(rt;
        refused(judge(&flipped(&bits, &[133, 150, 170, 190, 200, 220, 243]))),
        Some(Report::in_half(17, 2))
    );
    // an octet that is no bit
    let mut bits = bits;
    bits[50] = 2;
    assert_eq!(rt; refused(judge(&bits)), Some(Report::in_half(17, 1)));
    Ok(())
}
