//! A sender.

ghost use Rattle.std.specs.Prelude.{◌≡◌, ◌<◌, ◌≤◌, length};

use card::Card;
use line::LONGEST;

/// Sends the frames of a card over a line, block by block, take after take.
#[derive(Drop)]
pub struct Sender<L> {
    pub(crate) line: L,
    pub(crate) card: Card,
    /// The number of the frame whose take is going out or comes next.
    pub(crate) number: u32,
    /// The last bit on the line before that take.
    pub(crate) last: u8,
    /// How many line bits a take has.
    pub(crate) size: usize,
    /// How many of the take's line bits are sent; between takes all are. The bits stand in an array and not in a buffer, since the line
    /// writes them into a slice.
    pub(crate) sent: usize,
    pub(crate) bits: [u8; LONGEST],
    ghost full: { length bits ≡ 4096 },
    ghost some: { 0 < size },
    ghost room: { size ≤ 4096 },
    ghost within: { sent ≤ size },
}
