//! The cascade of two lines, and the lines that carry frames.

#![tactic(auto)]

mod cascade;
mod lines;

pub use cascade::Cascade;
pub use lines::{BENCH, BenchLine, MarkedLine, STANDARD, StandardLine};
