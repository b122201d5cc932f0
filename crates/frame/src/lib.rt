//! Halves and frames: what a frame carries, its 244 bits, and judging 244 received bits.

#![tactic(auto)]

mod bits;
mod building;
mod carried;
mod half;
mod judging;
mod refusal;

pub use carried::{FRAME_BITS, Frame, Half};
pub use judging::judge;
pub use refusal::FrameRefusal;
