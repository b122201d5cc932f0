//! Tests of the sender, beside the proofs.

#![tactic(auto)]

#[cfg(test)]
mod digest;
#[cfg(test)]
mod refusals;
#[cfg(test)]
mod takes;
