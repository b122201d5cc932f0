//! The card that is sent, and the printing of a card.

use card::{Card, CardRefusal};
use example_cards::{card_of_seven_frames, printed};
use std::io;
use std::io::Write;

/// The example card with all four fields, moved to 8959.99 N.
pub fn drawn_up() -> Result<Card, CardRefusal> {
    let mut card = card_of_seven_frames()?;
    card.enter_latitude(89, 5999, 0)?;
    Ok(card)
}

/// Prints the five lines of a card.
pub fn print(rt: &HostRuntime, card: &Card) -> io::Result<()> {
    rt.stdout().write_all(printed(card).as_slice())
}
