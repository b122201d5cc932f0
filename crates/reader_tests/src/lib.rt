//! Tests of the reader, beside the proofs.

#![tactic(auto)]

#[cfg(test)]
mod example;
#[cfg(test)]
mod refusals;
#[cfg(test)]
mod starting;
