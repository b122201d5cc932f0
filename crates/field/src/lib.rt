//! GF(128), and the algebra of the (111, 69) code: its roots, its minimum distance, and how errors are located.

#![tactic(auto)]

mod arithmetic;
mod laws;

pub use arithmetic::{inverse, product, times_c};
pub use laws::{code_laws, field_laws, locator_laws};
