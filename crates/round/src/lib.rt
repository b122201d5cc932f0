//! Rounds: what each take, judged as a frame, does to the reader.

#![tactic(auto)]

mod fields;
mod growing;
mod halves;
mod reader;
mod refusal;
mod set;
mod state;
mod takes;

pub use refusal::TakeRefusal;
pub use state::{Answer, RoundReader};
