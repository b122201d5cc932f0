//! Tests in bulk, beside the proofs: what the crates do on examples.

#![tactic(auto)]

#[cfg(test)]
mod cards;
#[cfg(test)]
mod chip_blocks;
#[cfg(test)]
mod contents;
#[cfg(test)]
mod frames;
#[cfg(test)]
mod refusals;
#[cfg(test)]
mod rounds;
