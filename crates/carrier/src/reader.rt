//! A reader.

ghost use Rattle.std.specs.Prelude.{◌<◌, ◌≤◌, length};
ghost use Rattle.buffers.specs.Buffer.{text_of};

use buffers::Buffer;
use line::LONGEST;
use round::RoundReader;

/// The line bits of a take, as far as they are heard.
pub(crate) type Heard = Buffer<LONGEST>;

/// Reads cards from the blocks that arrive over a line.
#[derive(Drop)]
pub struct Reader<L> {
    pub(crate) line: L,
    /// How many line bits a take has.
    pub(crate) size: usize,
    pub(crate) heard: Heard,
    pub(crate) rounds: RoundReader,
    ghost room: { size ≤ 4096 },
    ghost within: { length (text_of heard) < size },
}
