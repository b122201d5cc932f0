//! Content words and sequences.

use card::{Card, Coordinate, Message, Telephone};
use content::{
    Sequence, latitude_of, latitude_word, longitude_of, longitude_word, message_of, message_words,
    telephone_of, telephone_words,
};
use example_cards::bare_card;
use std::process::Abort;
use std::test::Fail;

#[test]
fn coordinates_both_ways(rt: HostRuntime) {
    let north = Coordinate {
        degrees: 89,
        hundredths: 5999,
        hemisphere: 0,
    };
    let south = Coordinate {
        degrees: 12,
        hundredths: 4590,
        hemisphere: 1,
    };
    assert_eq!(rt; latitude_word(north), 0xDABFF0);
    assert_eq!(rt; latitude_word(south), 0x1E6AE1);
    assert_eq!(rt; latitude_of(0xDABFF0), Some(north));
    assert_eq!(rt; latitude_of(0x1E6AE1), Some(south));
    let west = Coordinate {
        degrees: 179,
        hundredths: 5999,
        hemisphere: 1,
    };
    let east = Coordinate {
        degrees: 23,
        hundredths: 3445,
        hemisphere: 0,
    };
    assert_eq!(rt; longitude_word(west), 0xDB3CF9);
    assert_eq!(rt; longitude_word(east), 0x1C7F28);
    assert_eq!(rt; longitude_of(0xDB3CF9), Some(west));
    assert_eq!(rt; longitude_of(0x1C7F28), Some(east));
}

#[test]
fn words_that_no_coordinate_has(rt: HostRuntime) {
    // a bit between number and hemisphere, 60 minutes, 91 degrees, more than 24 bits
    for word in [
        0x1E6AE3,
        0x1E6AE9,
        6000 * 16,
        (91 * 10000) * 16,
        0x1000_0000,
        u32::MAX,
    ] {
        assert_eq!(rt; latitude_of(word), None);
    }
    for word in [
        0x1C7F2A,
        0x1C7F2C,
        6000 * 8,
        (181 * 10000) * 8,
        0x1000_0000,
        u32::MAX,
    ] {
        assert_eq!(rt; longitude_of(word), None);
    }
}

#[test]
fn telephone_both_ways(rt: HostRuntime) -> Result<(), Fail> {
    let words = telephone_words(&Telephone::new(b"14803332200e1835")?);
    assert!(rt; words == [0x148033, 0x32200D, 0x1835FF]);
    assert_eq!(rt;
        telephone_of(&words),
        Some(Telephone::new(b"14803332200e1835")?)
    );
    // padding alone, padding in the middle, a group that is no symbol, e first, e twice, more than 24 bits
    let none = [
        [0xFFFFFF, 0xFFFFFF, 0xFFFFFF],
        [0x14F033, 0x32200D, 0x1835FF],
        [0x14A033, 0x32200D, 0x1835FF],
        [0xD48033, 0x322001, 0x1835FF],
        [0x1D8033, 0x32200D, 0x1835FF],
        [0x1148033, 0x32200D, 0x1835FF],
    ];
    for words in none {
        assert!(rt; telephone_of(&words).is_none());
    }
    Ok(())
}

#[test]
fn message_both_ways(rt: HostRuntime) -> Result<(), Fail> {
    let words = message_words(&Message::new(b"HELLO")?);
    assert!(rt; words == [0x911664, 0xC9E000, 0, 0, 0, 0, 0]);
    assert_eq!(rt; message_of(&words), Some(Message::new(b"HELLO")?));
    // zeros alone, a character after the padding, a control character, more than 24 bits
    for words in [
        [0; 7],
        [0x911664, 0xC9E000, 0, 0, 0, 0, 0x41],
        [0x111664, 0xC9E000, 0, 0, 0, 0, 0],
        [0x1911664, 0xC9E000, 0, 0, 0, 0, 0],
    ] {
        assert!(rt; message_of(&words).is_none());
    }
    Ok(())
}

/// Whether the sequence of a card has these IDs.
fn has_ids(rt: &impl Abort, card: &Card, ids: &[u8]) {
    let sequence = Sequence::of(card);
    let entries = sequence.entries();
    assert_eq!(rt; entries.len(), ids.len());
    assert_eq!(rt; 2 * sequence.frames(), ids.len());
    assert!(rt; entries.iter().map(|entry| entry.id).eq(ids.iter().copied()));
}

#[test]
fn sequences_of_cards(rt: HostRuntime) -> Result<(), Fail> {
    let mut card = bare_card()?;
    has_ids(&rt, &card, &[0, 0]);
    card.enter_message(b"HELLO")?;
    has_ids(&rt, &card, &[0, 6, 7, 8, 9, 10, 11, 12]);
    card.enter_latitude(12, 4590, 1)?;
    card.enter_longitude(23, 3445, 0)?;
    card.enter_telephone(b"14803332200e1835")?;
    has_ids(&rt, &card, &[0, 1, 2, 3, 4, 5, 6, 7, 8, 9, 10, 11, 12, 0]);
    card.clear(4)?;
    has_ids(&rt, &card, &[0, 1, 2, 3, 4, 5]);
    card.clear(2)?;
    has_ids(&rt, &card, &[0, 1, 3, 4, 5, 0]);
    Ok(())
}
