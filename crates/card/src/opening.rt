//! Opening a card by the nine octets of its identifier.

ghost use Rattle.std.specs.Prelude.{◌≡◌, Bool, true, length, if◌then◌else◌, Some, None, ◌==◌};
ghost use Rattle.std.specs.Option.{option_map};
ghost use Rattle.coding.specs.Bits.{octet_bits};
ghost use Rattle.coding.specs.Crc.{crc8 as crc};
ghost use Rattle.card.specs.Fields.{keeps_first_octet};
ghost use Rattle.card.specs.Life.{Lives};
ghost use Rattle.card.specs.Card.{value_of, on_ok, identifier_of, opened, blank};

use crate::card::Card;
use crate::identifier::Identifier;
use crate::refusal::CardRefusal;
use coding::crc8;

impl Identifier {
    /// The identifier of nine octets, the check octet first.
    pub fn open(octets: &[u8]) -> Result<Identifier, CardRefusal>
        ensures { on_ok (λ d. d.octets) result ≡ identifier_of octets.now }
    {
        let [check, rest @ ..] = octets else {
            return Err(CardRefusal::NotNineOctets);
        };
        let eight = <[u8; 8]>::try_from(rest).or(Err(CardRefusal::NotNineOctets))?;
        if *check != crc8(&eight) {
            return Err(CardRefusal::CheckOctet);
        }
        Identifier::new(eight).ok_or(CardRefusal::FirstOctet)
    }

    /// The identifier of these eight octets, if the first keeps its rule.
    pub fn new(octets: [u8; 8]) -> Option<Identifier>
        ensures { option_map (λ d. d.octets) result ≡ (if keeps_first_octet octets then Some octets else None) }
    {
        if keeps_first_octet(&octets) {
            Some(Identifier { octets })
        } else {
            None
        }
    }

    /// The CRC-8 of the eight octets.
    pub fn check_octet(&self) -> u8
        ensures { result ≡ crc (octet_bits self.now.octets) }
    {
        crc8(&self.octets)
    }
}

/// Whether the first octet has the low bits 0 that the fourth and the fifth ask for.
fn keeps_first_octet(octets: &[u8; 8]) -> bool
    ensures { result ≡ keeps_first_octet octets.now }
{
    match (octets[3], octets[4]) {
        (0xFF, 0xFF) => octets[0] % 2 == 0,
        (0xFF, 0xFE) => octets[0] % 4 == 0,
        _ => true,
    }
}

impl Card {
    /// A card with this identifier, every field missing.
    pub fn blank(identifier: Identifier) -> Card
        ensures { value_of result ≡ blank identifier.octets }
    {
        Card {
            identifier,
            latitude: None,
            longitude: None,
            telephone: None,
            message: None,
        }
    }

    /// Opens a card by nine octets, the check octet first. Every field is missing; and whatever is done to the card from
    /// then on, each field is the last entry accepted since it was last cleared.
    pub fn open(octets: &[u8]) -> Result<Card, CardRefusal>
        ensures card { on_ok value_of result ≡ opened octets.now }
        ensures lives { Lives octets.now }
    {
        Ok(Card::blank(Identifier::open(octets)?))
    }
}
