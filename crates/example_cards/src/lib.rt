//! The cards that the programs and the tests send.

#![tactic(auto)]

mod cards;
mod printing;

pub use cards::{IDENTIFIER, NINE, bare_card, card_of_seven_frames, card_of_three_frames};
pub use printing::printed;
