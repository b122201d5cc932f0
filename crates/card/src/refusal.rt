//! What is refused of a card, and with which number.

ghost use Rattle.card.specs.Refusals.{card_report, print_report};

use reports::{Refusal, Report};

/// Why a card was not opened, or not changed.
#[derive(Clone, Copy, PartialEq, Eq, Debug)]
pub enum CardRefusal {
    /// The identifier did not come as nine octets.
    NotNineOctets,
    /// The check octet is not the CRC-8 of the other eight.
    CheckOctet,
    /// The identifier's first octet breaks its rule.
    FirstOctet,
    /// Degrees, hundredths or hemisphere of a latitude out of range.
    Latitude,
    /// Degrees, hundredths or hemisphere of a longitude out of range.
    Longitude,
    /// A telephone of no symbols or of more than 18.
    TelephoneLength,
    /// A telephone symbol other than 0 to 9 and e; the first such, its place counted from 1.
    TelephoneSymbol { place: u8 },
    /// An e that is first, last or not the only one.
    TelephoneExtension,
    /// A message of no octets or of more than 24.
    MessageLength,
    /// A message octet outside 32 to 126; the first such, its place counted from 1.
    MessageOctet { place: u8 },
    /// A kind of field other than 1 to 4.
    NoSuchField,
}

impl Refusal for CardRefusal {
    ghost report_of = { card_report };

    fn report(self) -> Report {
        match self {
            CardRefusal::NotNineOctets => Report::number_alone(1),
            CardRefusal::CheckOctet => Report::number_alone(2),
            CardRefusal::FirstOctet => Report::number_alone(3),
            CardRefusal::Latitude => Report::number_alone(4),
            CardRefusal::Longitude => Report::number_alone(5),
            CardRefusal::TelephoneLength => Report::number_alone(6),
            CardRefusal::TelephoneSymbol { place } => Report::at_place(7, place),
            CardRefusal::TelephoneExtension => Report::number_alone(8),
            CardRefusal::MessageLength => Report::number_alone(9),
            CardRefusal::MessageOctet { place } => Report::at_place(10, place),
            CardRefusal::NoSuchField => Report::number_alone(11),
        }
    }
}

/// Why a card was not printed.
#[derive(Clone, Copy, PartialEq, Eq, Debug)]
pub enum PrintRefusal {
    /// The buffer has fewer than 112 octets.
    ShortBuffer,
}

impl Refusal for PrintRefusal {
    ghost report_of = { print_report };

    fn report(self) -> Report {
        match self {
            PrintRefusal::ShortBuffer => Report::number_alone(28),
        }
    }
}
