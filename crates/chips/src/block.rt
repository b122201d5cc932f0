//! The size of a block.

ghost use Rattle.std.specs.Prelude.{◌≡◌};
ghost use Rattle.chips.specs.Calls.{length_answer};

use crate::refusal::BlockRefusal;

/// The octets of a block.
pub const BLOCK_OCTETS: usize = 512;

/// Refuses a number of octets other than a block's.
pub(crate) fn check_length(octets: usize) -> Result<(), BlockRefusal>
    ensures { result ≡ length_answer octets }
{
    if octets == BLOCK_OCTETS {
        Ok(())
    } else {
        Err(BlockRefusal::WrongLength)
    }
}
