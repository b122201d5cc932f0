//! The reader of blocks, and the guarantee of two rounds.

#![tactic(auto)]

mod air;
mod passing;
mod reader;
mod receiving;
mod refusal;
mod two_rounds;

pub use air::Air;
pub use reader::Reader;
pub use refusal::ReaderRefusal;
pub use two_rounds::{Reception, send_two_rounds};
