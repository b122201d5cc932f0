//! Cards: opened, entered, cleared and printed.

use crate::refusals::refused;
use card::{Card, CardRefusal, Coordinate, Identifier, LONGEST_TEXT, PrintRefusal};
use coding::crc8;
use example_cards::{IDENTIFIER, NINE, bare_card, card_of_seven_frames};
use reports::{Refusal, Report};
use std::process::Abort;
use std::test::Fail;

/// Eight octets with their true check octet before them.
fn checked(octets: [u8; 8]) -> [u8; 9] {
    let [a, b, c, d, e, f, g, h] = octets;
    [crc8(&octets), a, b, c, d, e, f, g, h]
}

/// What opening by these eight octets, under their true check octet, is refused with.
fn opened_with(octets: [u8; 8]) -> Option<Report> {
    refused(Card::open(&checked(octets)))
}

#[test]
fn check_octet_of_the_example(rt: HostRuntime) -> Result<(), Fail> {
    assert_eq!(rt; crc8(&IDENTIFIER), 0x75);
    assert_eq!(rt; crc8(&[]), 0xFF);
    assert_eq!(rt; bare_card()?.identifier().check_octet(), 0x75);
    assert_eq!(rt; bare_card()?.identifier().octets(), IDENTIFIER);
    Ok(())
}

#[test]
fn opening_wants_nine_octets_and_the_check_octet(rt: HostRuntime) {
    assert_eq!(rt; checked(IDENTIFIER), NINE);
    assert_eq!(rt;
        Card::open(&NINE[0..8]).err(),
        Some(CardRefusal::NotNineOctets)
    );
    assert_eq!(rt; Card::open(&[]).err(), Some(CardRefusal::NotNineOctets));
    assert_eq!(rt;
        Card::open(&[0; 10]).err(),
        Some(CardRefusal::NotNineOctets)
    );
    assert_eq!(rt; Card::open(&[0; 9]).err(), Some(CardRefusal::CheckOctet));
    assert!(rt; Card::open(&NINE).is_ok());
}

#[test]
fn first_octet_keeps_its_rule(rt: HostRuntime) {
    assert_eq!(rt;
        opened_with([0x01, 0, 0, 0xFF, 0xFF, 0, 0, 0]),
        Some(Report::number_alone(3))
    );
    assert_eq!(rt; opened_with([0x02, 0, 0, 0xFF, 0xFF, 0, 0, 0]), None);
    assert_eq!(rt;
        opened_with([0x01, 0, 0, 0xFF, 0xFE, 0, 0, 0]),
        Some(Report::number_alone(3))
    );
    assert_eq!(rt;
        opened_with([0x02, 0, 0, 0xFF, 0xFE, 0, 0, 0]),
        Some(Report::number_alone(3))
    );
    assert_eq!(rt; opened_with([0x04, 0, 0, 0xFF, 0xFE, 0, 0, 0]), None);
    assert_eq!(rt; opened_with([0x03, 0, 0, 0xFF, 0xFD, 0, 0, 0]), None);
    assert_eq!(rt; opened_with([0x03, 0, 0, 0xFE, 0xFF, 0, 0, 0]), None);
    assert_eq!(rt; opened_with([0x03, 0, 0, 0, 0xFF, 0xFF, 0, 0]), None);
    assert!(rt; Identifier::new([0x03, 0, 0, 0xFF, 0xFF, 0, 0, 0]).is_none());
}

/// The limits of one kind of coordinate, by how it is entered and read: the most degrees, and the number of the refusal.
fn limits<E, R>(rt: &impl Abort, enter: E, read: R, most: u8, number: u8) -> Result<(), Fail>
where
    E: Fn(&mut Card, u32, u32, u32) -> Result<(), CardRefusal>,
    R: Fn(&Card) -> Option<Coordinate>,
    requires enter { E.IsAlwaysCallable enter }
    requires read { R.IsAlwaysCallable read }
{
    let mut card = bare_card()?;
    assert_eq!(rt; enter(&mut card, u32::from(most), 5999, 1), Ok(()));
    let kept = Some(Coordinate {
        degrees: most,
        hundredths: 5999,
        hemisphere: 1,
    });
    for (degrees, hundredths, hemisphere) in [
        (u32::from(most) + 1, 0, 0),
        (0, 6000, 0),
        (0, 0, 2),
        (256, 0, 0),
        (0, 65536, 0),
        (u32::MAX, u32::MAX, u32::MAX),
    ] {
        assert_eq!(rt;
            refused(enter(&mut card, degrees, hundredths, hemisphere)),
            Some(Report::number_alone(number))
        );
        assert_eq!(rt; read(&card), kept);
    }
    for hemisphere in [0, 1] {
        assert_eq!(rt; enter(&mut card, 0, 0, u32::from(hemisphere)), Ok(()));
        assert_eq!(rt;
            read(&card),
            Some(Coordinate {
                degrees: 0,
                hundredths: 0,
                hemisphere,
            })
        );
    }
    Ok(())
}

#[test]
fn latitude_limits(rt: HostRuntime) -> Result<(), Fail> {
    limits(&rt, Card::enter_latitude, Card::latitude, 90, 4)
}

#[test]
fn longitude_limits(rt: HostRuntime) -> Result<(), Fail> {
    limits(&rt, Card::enter_longitude, Card::longitude, 180, 5)
}

#[test]
fn telephone_limits(rt: HostRuntime) -> Result<(), Fail> {
    let mut card = bare_card()?;
    for symbols in ["0", "9", "1e2", "123456789012345678", "1234567890123456e8"] {
        assert_eq!(rt; card.enter_telephone(symbols.as_bytes()), Ok(()));
    }
    let rows = [
        ("", Report::number_alone(6)),
        ("1234567890123456789", Report::number_alone(6)),
        ("123456789012345678x", Report::number_alone(6)),
        ("/", Report::at_place(7, 1)),
        ("12:4", Report::at_place(7, 3)),
        ("1E2", Report::at_place(7, 2)),
        ("12345678901234567x", Report::at_place(7, 18)),
        ("eex", Report::at_place(7, 3)),
        ("e", Report::number_alone(8)),
        ("e1", Report::number_alone(8)),
        ("1e", Report::number_alone(8)),
        ("1e2e3", Report::number_alone(8)),
    ];
    for (symbols, refusal) in rows {
        assert_eq!(rt;
            refused(card.enter_telephone(symbols.as_bytes())),
            Some(refusal)
        );
    }
    assert!(rt;
        card.telephone().is_some_and(|telephone| telephone.symbols()
            == b"1234567890123456e8".as_slice())
    );
    Ok(())
}

#[test]
fn message_limits(rt: HostRuntime) -> Result<(), Fail> {
    let mut card = bare_card()?;
    for octets in [" ", "~", "HELLO", "123456789012345678901234"] {
        assert_eq!(rt; card.enter_message(octets.as_bytes()), Ok(()));
    }
    for (octets, refusal) in [
        ("", Report::number_alone(9)),
        ("1234567890123456789012345", Report::number_alone(9)),
        ("\n", Report::at_place(10, 1)),
        ("ab\u{7f}\u{7f}", Report::at_place(10, 3)),
        ("12345678901234567890123\t", Report::at_place(10, 24)),
    ] {
        assert_eq!(rt;
            refused(card.enter_message(octets.as_bytes())),
            Some(refusal)
        );
    }
    assert_eq!(rt;
        refused(card.enter_message(&[0x41, 0x80])),
        Some(Report::at_place(10, 2))
    );
    assert!(rt;
        card.message().is_some_and(|message| message.octets()
            == b"123456789012345678901234".as_slice())
    );
    Ok(())
}

#[test]
fn clearing_takes_one_field_away(rt: HostRuntime) -> Result<(), Fail> {
    let mut card = card_of_seven_frames()?;
    assert_eq!(rt; refused(card.clear(0)), Some(Report::number_alone(11)));
    assert_eq!(rt; refused(card.clear(5)), Some(Report::number_alone(11)));
    assert_eq!(rt;
        refused(card.clear(u32::MAX)),
        Some(Report::number_alone(11))
    );
    assert_eq!(rt; fields(&card), (true, true, true, true));
    assert_eq!(rt; card.clear(3), Ok(()));
    assert_eq!(rt; fields(&card), (true, true, false, true));
    assert_eq!(rt; card.clear(3), Ok(()));
    assert_eq!(rt; card.clear(1), Ok(()));
    assert_eq!(rt; fields(&card), (false, true, false, true));
    assert_eq!(rt; card.clear(4), Ok(()));
    assert_eq!(rt; card.clear(2), Ok(()));
    assert_eq!(rt; fields(&card), (false, false, false, false));
    Ok(())
}

/// Which fields are there.
fn fields(card: &Card) -> (bool, bool, bool, bool) {
    (
        card.latitude().is_some(),
        card.longitude().is_some(),
        card.telephone().is_some(),
        card.message().is_some(),
    )
}

/// Whether a card prints as `lines`, with every octet after them left as it was.
fn prints(rt: &impl Abort, card: &Card, lines: &str) -> Result<(), Fail> {
    let mut out = [0xA5; 120];
    let len = card.print(&mut out)?;
    assert!(rt; len <= LONGEST_TEXT);
    assert!(rt; &out[0..len] == lines.as_bytes());
    assert!(rt; out[len..].iter().all(|octet| *octet == 0xA5));
    Ok(())
}

#[test]
fn printed_cards(rt: HostRuntime) -> Result<(), Fail> {
    prints(
        &rt,
        &bare_card()?,
        "id 75:00:06:B0:FF:FF:01:AC:07\nlat\nlong\ntel\nmsg\n",
    )?;
    prints(
        &rt,
        &card_of_seven_frames()?,
        "id 75:00:06:B0:FF:FF:01:AC:07\nlat 1245.90 S\nlong 02334.45 E\ntel 14803332200e1835\nmsg HELLO\n",
    )?;
    let mut card = bare_card()?;
    card.enter_longitude(180, 5909, 1)?;
    card.enter_message(b"123456789012345678901234")?;
    prints(
        &rt,
        &card,
        "id 75:00:06:B0:FF:FF:01:AC:07\nlat\nlong 18059.09 W\ntel\nmsg 123456789012345678901234\n",
    )?;
    card.enter_latitude(9, 5, 0)?;
    card.enter_telephone(b"123456789012345678")?;
    prints(
        &rt,
        &card,
        "id 75:00:06:B0:FF:FF:01:AC:07\nlat 0900.05 N\nlong 18059.09 W\ntel 123456789012345678\nmsg 123456789012345678901234\n",
    )
}

#[test]
fn printing_wants_room_for_the_longest_text(rt: HostRuntime) -> Result<(), Fail> {
    let card = bare_card()?;
    let mut short = [7; 111];
    assert_eq!(rt; card.print(&mut short), Err(PrintRefusal::ShortBuffer));
    assert_eq!(rt; PrintRefusal::ShortBuffer.number(), 28);
    assert!(rt; short == [7; 111]);
    let mut enough = [7; 112];
    assert_eq!(rt; card.print(&mut enough), Ok(47));
    Ok(())
}
