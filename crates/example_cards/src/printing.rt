//! A card's text in fixed memory of its own.

ghost use Rattle.std.specs.Prelude.{◌≡◌};
ghost use Rattle.buffers.specs.Buffer.{text_of};
ghost use Rattle.card.specs.Card.{value_of};
ghost use Rattle.card.specs.Print.{card_text};

use buffers::Buffer;
use card::{Card, LONGEST_TEXT};

/// The five lines of a card.
pub fn printed(card: &Card) -> Buffer<LONGEST_TEXT>
    ensures { text_of result ≡ card_text (value_of card.now) }
{
    let mut lines = Buffer::new();
    let mut text = [0; LONGEST_TEXT];
    if let Ok(len) = card.print(&mut text) {
        lines.extend(&text[..len]);
    }
    lines
}
