//! The sender: a card's frames over a line, as blocks of chips.

#![tactic(auto)]

pub mod laws;
mod refusal;
mod sender;
mod sending;

pub use refusal::SenderRefusal;
pub use sender::Sender;
pub use sending::LAST_NUMBER;
