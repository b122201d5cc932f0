//! What the programs and the tests of sending share.

#![tactic(auto)]

mod blocks;
mod long_lines;

pub use blocks::next_block;
pub use long_lines::{SIXTEEN_COPIES, SIXTY_FOUR_COPIES};
