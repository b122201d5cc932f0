//! Rounds: what each take does to the reader.

use crate::refusals::refused;
use card::Card;
use content::Content;
use example_cards::{IDENTIFIER, card_of_seven_frames};
use frame::{Frame, FrameRefusal};
use reports::{Refusal, Report};
use round::{Answer, RoundReader, TakeRefusal};
use std::test::Fail;

/// ID 0 with its word.
const ZERO: Content = Content {
    id: 0,
    word: 0x000001,
};

/// 1245.90 S.
const LATITUDE: Content = Content {
    id: 1,
    word: 0x1E6AE1,
};

/// 2334.45 E.
const LONGITUDE: Content = Content {
    id: 2,
    word: 0x1C7F28,
};

/// A word with its ID.
fn content(id: u8, word: u32) -> Content {
    Content { id, word }
}

/// A take of this identifier, under one of the two unique words.
fn take(unique: u8, identifier: [u8; 8], halves: [Content; 2]) -> Result<Frame, FrameRefusal> {
    let [first, second] = halves;
    Ok(Frame {
        unique,
        identifier,
        first,
        second,
    })
}

/// Whether a take is accepted as part of the open round.
fn taken(answer: Result<Answer, TakeRefusal>) -> bool {
    matches!(answer, Ok(Answer::Taken))
}

/// The card of an answer that closes a round.
fn closed_card(answer: Answer) -> Option<Card> {
    match answer {
        Answer::Closed { card } => Some(card),
        _ => None,
    }
}

/// The second take of a round, after ID 0 and one other, is refused; the same reader goes on to the next round.
#[test]
fn the_second_take_is_refused(rt: HostRuntime) {
    // the first two words of 14803332200e1835
    let tel_3 = content(3, 0x148033);
    let tel_4 = content(4, 0x32200D);
    let rows = [
        // not above the last
        (
            LATITUDE,
            [LATITUDE, LONGITUDE],
            Report::in_half_at_place(21, 1, 1),
        ),
        (
            LONGITUDE,
            [content(6, 0), LATITUDE],
            Report::in_half_at_place(21, 2, 1),
        ),
        // a set entered late, an ID skipped, above 12
        (
            LATITUDE,
            [LONGITUDE, tel_4],
            Report::in_half_at_place(21, 2, 4),
        ),
        (
            tel_3,
            [content(5, 0), ZERO],
            Report::in_half_at_place(21, 1, 5),
        ),
        (
            LATITUDE,
            [content(13, 0), ZERO],
            Report::in_half_at_place(21, 1, 13),
        ),
        // after the closing 0
        (ZERO, [LATITUDE, ZERO], Report::in_half_at_place(21, 1, 1)),
        // no lawful value: a bit before the hemisphere, padding before a symbol, another word of ID 0
        (
            LATITUDE,
            [content(2, 0x1C7F2C), ZERO],
            Report::in_half_at_place(22, 1, 2),
        ),
        (
            tel_3,
            [tel_4, content(5, 0x1835F5)],
            Report::in_half_at_place(22, 2, 5),
        ),
        (
            LATITUDE,
            [content(0, 0x000002), ZERO],
            Report::in_half_at_place(22, 1, 0),
        ),
        // a telephone broken off
        (tel_3, [ZERO, LATITUDE], Report::in_half_at_place(23, 1, 0)),
        (tel_3, [tel_4, ZERO], Report::in_half_at_place(23, 2, 0)),
    ];
    let mut reader = RoundReader::new();
    for (second, halves, refusal) in rows {
        assert!(rt; taken(reader.take(take(0, IDENTIFIER, [ZERO, second]))));
        assert_eq!(rt;
            refused(reader.take(take(1, IDENTIFIER, halves))),
            Some(refusal)
        );
    }
    assert!(rt; reader.card().is_none());
}

#[test]
fn unique_word_and_identifier(rt: HostRuntime) {
    let mut reader = RoundReader::new();
    let opening = [ZERO, LATITUDE];
    // the same unique word, also after a take that was passed over
    assert!(rt; taken(reader.take(take(0, IDENTIFIER, opening))));
    assert_eq!(rt;
        refused(reader.take(take(0, IDENTIFIER, opening))),
        Some(Report::number_alone(19))
    );
    assert!(rt;
        matches!(
            reader.take(take(0, IDENTIFIER, [content(5, 0x1835FF), ZERO])),
            Ok(Answer::PassedOver),
        )
    );
    assert_eq!(rt;
        refused(reader.take(take(0, IDENTIFIER, opening))),
        Some(Report::number_alone(19))
    );
    // an identifier that is not lawful, and one that is not the round's
    let unlawful = [0x01, 0, 0, 0xFF, 0xFF, 0, 0, 0];
    assert_eq!(rt;
        refused(reader.take(take(0, unlawful, opening))),
        Some(Report::number_alone(20))
    );
    assert!(rt; taken(reader.take(take(0, IDENTIFIER, opening))));
    assert_eq!(rt;
        refused(reader.take(take(1, [0; 8], opening))),
        Some(Report::number_alone(20))
    );
    // a take that is no frame
    assert_eq!(rt;
        refused(reader.take(Err(FrameRefusal::Crc { half: 2 }))),
        Some(Report::in_half(18, 2))
    );
}

/// From the middle of a round on: passed over, then a whole round, closed by the next one's first take; a refusal leaves the card.
#[test]
fn a_whole_round_is_closed(rt: HostRuntime) -> Result<(), Fail> {
    let card = card_of_seven_frames()?;
    let mut reader = RoundReader::new();
    for number in 4..7u32 {
        assert!(rt;
            matches!(
                reader.take(Ok(Frame::of(&card, number))),
                Ok(Answer::PassedOver)
            )
        );
    }
    for number in 7..14u32 {
        assert!(rt; taken(reader.take(Ok(Frame::of(&card, number)))));
        assert!(rt; reader.card().is_none());
    }
    let closing = reader.take(Ok(Frame::of(&card, 14)))?;
    assert_eq!(rt; closed_card(closing), Some(card));
    assert_eq!(rt;
        refused(reader.take(Err(FrameRefusal::UniqueWord))),
        Some(Report::number_alone(16))
    );
    assert_eq!(rt; reader.card(), Some(card));
    Ok(())
}
