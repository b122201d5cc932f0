//! A digest of what is written.

use example_sending::next_block;
use line::Line;
use sender::Sender;
use std::test::Fail;

/// FNV-1a in 32 bits: the digest of no octets.
const NONE: u32 = 0x811C_9DC5;

/// The digest with the octets of one more block.
fn with_block(digest: u32, block: &[u8; 512]) -> u32 {
    block.iter().fold(digest, |so_far, octet| {
        (so_far ^ u32::from(*octet)).wrapping_mul(0x0100_0193)
    })
}

/// The digest of the next blocks.
pub fn digest<L: Line>(sender: &mut Sender<L>, blocks: usize) -> Result<u32, Fail> {
    let mut digest = NONE;
    for _ in 0..blocks {
        digest = with_block(digest, &next_block(sender)?);
    }
    Ok(digest)
}
