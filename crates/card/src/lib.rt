//! The card that a modulator announces: its identifier and up to four fields.

#![tactic(auto)]

mod access;
mod card;
mod checking;
mod coordinate;
mod entering;
mod fields;
mod identifier;
mod kinds;
mod opening;
mod print;
mod refusal;
mod texts;

pub use card::Card;
pub use checking::symbol_code;
pub use coordinate::{MOST_LATITUDE, MOST_LONGITUDE};
pub use fields::{Coordinate, Message, Telephone};
pub use identifier::Identifier;
pub use kinds::Field;
pub use print::LONGEST_TEXT;
pub use refusal::{CardRefusal, PrintRefusal};
