//! Cards of one identifier.

#![tactic(auto, unfolding(coding::specs::Bits::bits, coding::specs::Bits::octet_bits, coding::specs::Polynomial::reduced, coding::specs::Polynomial::remainder, card::specs::Fields::each))]

ghost use Rattle.std.specs.Prelude.{◌≡◌, Ok};
ghost use Rattle.card.specs.Card.{value_of, on_ok};
ghost use Rattle.example_cards.specs.Cards.{bare, three_frames, seven_frames};

use card::{Card, CardRefusal};

/// The octets of the identifier.
pub const IDENTIFIER: [u8; 8] = [0x00, 0x06, 0xB0, 0xFF, 0xFF, 0x01, 0xAC, 0x07];

/// 75:00:06:B0:FF:FF:01:AC:07: the same after their check octet.
pub const NINE: [u8; 9] = [0x75, 0x00, 0x06, 0xB0, 0xFF, 0xFF, 0x01, 0xAC, 0x07];

/// A card without fields: a round of one frame.
pub fn bare_card() -> Result<Card, CardRefusal>
    ensures { on_ok value_of result ≡ Ok bare }
{
    Card::open(&NINE)
}

/// The card with 1245.90 S, 2334.45 E and 14803332200e1835: a round of three frames.
pub fn card_of_three_frames() -> Result<Card, CardRefusal>
    ensures { on_ok value_of result ≡ Ok three_frames }
{
    let mut card = bare_card()?;
    card.enter_latitude(12, 4590, 1)?;
    card.enter_longitude(23, 3445, 0)?;
    card.enter_telephone(b"14803332200e1835")?;
    Ok(card)
}

/// The same with the message HELLO: a round of seven frames.
pub fn card_of_seven_frames() -> Result<Card, CardRefusal>
    ensures { on_ok value_of result ≡ Ok seven_frames }
{
    let mut card = card_of_three_frames()?;
    card.enter_message(b"HELLO")?;
    Ok(card)
}
