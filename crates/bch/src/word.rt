//! What the codec answers with.

/// Why a word is refused.
#[derive(Clone, Copy, PartialEq, Eq, Debug)]
pub enum CodeRefusal {
    /// An octet is neither 0 nor 1.
    NotBits,
    /// No codeword lies within six places.
    NoCodeword,
}

/// A codeword, and in how many places the received word differs from it.
#[derive(Clone, Copy, PartialEq, Eq, Debug)]
pub struct Corrected {
    pub codeword: [u8; 111],
    pub places: u8,
}
