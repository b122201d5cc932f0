//! What a card is sent as: content words under Content IDs, in a sequence.

#![tactic(auto)]

mod coordinates;
mod entry;
mod groups;
mod lettered;
mod lettering;
mod letters;
mod sequence;

pub use coordinates::{latitude_of, latitude_word, longitude_of, longitude_word};
pub use entry::{Content, Sequence};
pub use letters::{message_of, message_words, telephone_of, telephone_words};
