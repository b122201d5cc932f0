//! The set of a telephone or a message that is unfinished.

ghost use Rattle.std.specs.Prelude.{◌≡◌, true};
ghost use Rattle.round.specs.Sets.{leaves_unfinished};

/// The words so far of a telephone or a message, and the Content ID of the last.
// In an enum of the two kinds each would have words and a count of its own, and each method two like arms. The array has room for
// either, and the last ID says how many words are in it.
#[derive(Clone, Copy, PartialEq, Eq, Debug)]
pub struct UnfinishedSet {
    pub(crate) last: u8,
    pub(crate) words: [u32; 7],
    ghost inside: { leaves_unfinished last ≡ true },
}
