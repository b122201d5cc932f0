//! The stages that lines are made of: scrambling, repetition and differential coding.

#![tactic(auto)]

mod bits;
mod checks;
mod differential;
mod repetition;
mod scrambling;

pub use differential::Differential;
pub use repetition::Repetition;
pub use scrambling::Scrambling;
