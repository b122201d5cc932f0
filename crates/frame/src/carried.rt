//! What a frame carries.

use content::Content;

/// The bits of a frame.
pub const FRAME_BITS: usize = 244;

/// The carrier's identifier, and two neighbours of its sequence.
#[derive(Clone, Copy, PartialEq, Eq, Debug)]
pub struct Frame {
    /// Which unique word it begins with: 0 at even frame numbers, 1 at odd ones; a number, since calls take any: an enum would ask more of callers.
    pub unique: u8,
    pub identifier: [u8; 8],
    pub first: Content,
    pub second: Content,
}

/// What one half carries: four octets of the identifier, and a content word with its ID.
#[derive(Clone, Copy, PartialEq, Eq, Debug)]
pub struct Half {
    pub octets: [u8; 4],
    pub content: Content,
}
