//! Content words with their IDs, and a sequence of them.

ghost use Rattle.std.specs.Prelude.{◌≡◌, ◌≤◌, length};

/// One entry of the sequence: a Content ID of five bits and a word of 24, numbers as the format has them.
#[derive(Clone, Copy, PartialEq, Eq, Debug)]
pub struct Content {
    pub id: u8,
    pub word: u32,
}

/// What a card is sent as, over and over: at most fourteen entries. They stand in an array with their number beside it: a sequence is
/// copied and needs no heap, and behind the octets of a buffer stand zeros, where an entry has nothing of the kind.
#[derive(Clone, Copy)]
pub struct Sequence {
    pub(crate) entries: [Content; 14],
    pub(crate) len: usize,
    ghost room: { length entries ≡ 14 },
    ghost within: { len ≤ 14 },
}
