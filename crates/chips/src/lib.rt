//! Chips: a line bit is spread over the 4,096 chips of a block, and heard from them.

#![tactic(auto)]

mod block;
mod despreading;
mod pattern;
mod refusal;
mod spreading;

pub use block::BLOCK_OCTETS;
pub use despreading::despread;
pub use refusal::BlockRefusal;
pub use spreading::spread;
