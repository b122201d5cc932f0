//! The words of a set as they come.

ghost use Rattle.std.specs.Prelude.{◌≡◌, ◌+◌, true, [], ◌∷◌, ◌++◌};
ghost use Rattle.round.specs.Sets.{leaves_unfinished, words_by};
ghost use Rattle.round.specs.Views.{words_of};

use crate::set::UnfinishedSet;

/// The last Content ID of a telephone's first two.
const TELEPHONE_UNFINISHED: u8 = 4;

impl UnfinishedSet {
    /// A set of which the first word has come.
    pub(crate) fn begun(first: u8, word: u32) -> UnfinishedSet
        requires { (leaves_unfinished first ≡ true) × (words_by first ≡ 1) }
        ensures last { result.last ≡ first }
        ensures words { words_of result ≡ word ∷ [] }
    {
        UnfinishedSet {
            last: first,
            words: [word, 0, 0, 0, 0, 0, 0],
        }
    }

    /// The Content ID that the next word has.
    pub(crate) fn next(&self) -> u8
        ensures { result ≡ self.now.last + 1 }
    {
        self.last + 1
    }

    /// How many words have come.
    fn count(&self) -> usize
        ensures { result ≡ words_by self.now.last }
    {
        if self.last <= TELEPHONE_UNFINISHED {
            usize::from(self.last) - 2
        } else {
            usize::from(self.last) - 5
        }
    }

    /// The set with one word more, which does not finish it.
    pub(crate) fn grown(self, word: u32) -> UnfinishedSet
        requires { leaves_unfinished (self.last + 1) ≡ true }
        ensures last { result.last ≡ self.last + 1 }
        ensures words { words_of result ≡ words_of self ++ (word ∷ []) }
    {
        let mut words = self.words;
        words[self.count()] = word;
        UnfinishedSet {
            last: self.next(),
            words,
        }
    }

    /// The words of the whole set, of which this is the last.
    pub(crate) fn finished<const N: usize>(&self, word: u32) -> [u32; N]
        requires { N ≡ words_by self.now.last + 1 }
        ensures { result ≡ words_of self.now ++ (word ∷ []) }
    {
        let mut words = [word; N];
        words[..N - 1].copy_from_slice(&self.words[..N - 1]);
        words
    }
}
