//! Spreading: the block of a line bit.

ghost use Rattle.std.specs.Prelude.{◌≡◌};
ghost use Rattle.chips.specs.Calls.{spread_answer, spread_output};
ghost use Rattle.chips.specs.Laws.{PatternRule, BlockChips};

use crate::block::check_length;
use crate::pattern::pattern_octets;
use crate::refusal::BlockRefusal;

/// Writes the block of a bit into 512 octets. Of a number above 1 the lowest bit is spread.
pub fn spread(bit: u8, out: &mut [u8]) -> Result<(), BlockRefusal>
    ensures answer { result ≡ spread_answer out.old }
    ensures output { out.new ≡ spread_output bit out.old }
    ensures rule { PatternRule }
    ensures chips { BlockChips }
{
    check_length(out.len())?;
    let pattern = pattern_octets();
    let mask = 255 * (bit % 2);
    // by place: a proof knows nothing of `out` after a zip with its `iter_mut`
    for (i, octet) in out.iter_mut().enumerate() {
        *octet = pattern[i] ^ mask;
    }
    Ok(())
}
