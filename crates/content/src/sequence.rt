//! The sequence of a card.

ghost use Rattle.std.specs.Prelude.{◌≡◌, ℕ, ◌+◌, ◌<◌, ◌≤◌, [], ◌∷◌, ◌++◌, length, IfSome, IfNone};
ghost use Rattle.card.specs.Card.{value_of, symbols_of, octets_of};
ghost use Rattle.content.specs.Kinds.{telephone_kind, message_kind};
ghost use Rattle.content.specs.Sequence.{numbered, evened, sequence as sequence_of, round_length};
ghost use Rattle.content.specs.Laws.{SequenceLaws};
ghost use Rattle.content.specs.Entries.{entries_of, frames_of};

use crate::coordinates::{latitude_words, longitude_words};
use crate::entry::{Content, Sequence};
use crate::letters::{message_words, telephone_words};
use card::Card;

/// ID 0, which begins the sequence and evens its count.
const MARKER: Content = Content {
    id: 0,
    word: 0x000001,
};

// Each asks for room, which the entries of a card always have: what would become of others is of no use to promise.
impl Sequence {
    /// One entry more.
    fn push(&mut self, content: Content)
        requires { self.old.len < 14 }
        ensures len { self.new.len ≡ self.old.len + 1 }
        ensures entries { entries_of self.new ≡ entries_of self.old ++ (content ∷ []) }
    {
        self.entries[self.len] = content;
        self.len += 1;
    }

    /// Words under ascending IDs from `first` on.
    fn push_set(&mut self, first: u8, words: &[u32])
        requires { (self.old.len + length words.now ≤ 14) × (first ≤ 12) }
        ensures len { self.new.len ≡ self.old.len + length words.now }
        ensures entries { entries_of self.new ≡ entries_of self.old ++ numbered first words.now }
    {
        for (i, word) in words.iter().enumerate() {
            self.push(Content {
                id: first + i as u8,
                word: *word,
            });
        }
    }

    /// A field's set of IDs, if there is such a field.
    fn push_field<const N: usize>(&mut self, first: u8, words: Option<[u32; N]>)
        requires { (self.old.len + N ≤ 14) × (first ≤ 12) }
        ensures len { self.new.len ≤ self.old.len + N }
        ensures some { IfSome words.entry (λ ws. entries_of self.new ≡ entries_of self.old ++ numbered first ws) }
        ensures none { IfNone words.entry (entries_of self.new ≡ entries_of self.old) }
    {
        if let Some(words) = words {
            self.push_set(first, &words);
        }
    }
}

impl Sequence {
    /// The sequence of a card: ID 0, the sets of the fields that are there, and a second ID 0 where the count would be odd.
    /// Its IDs rise, and the card's fields are read back from it.
    pub fn of(card: &Card) -> Sequence
        ensures entries { entries_of result ≡ sequence_of (value_of card.now) }
        ensures frames { frames_of result ≡ round_length (value_of card.now) }
        ensures laws { SequenceLaws (value_of card.now) }
    {
        let mut sequence = Sequence {
            entries: [MARKER; 14],
            len: 1,
        };
        sequence.push_field(1, card.latitude().map(latitude_words));
        sequence.push_field(2, card.longitude().map(longitude_words));
        let telephone = card.telephone().map(
            |text| -> [u32; 3]
                ensures { result ≡ telephone_kind.words (symbols_of text) }
            { telephone_words(&text) },
        );
        sequence.push_field(3, telephone);
        let message = card.message().map(
            |text| -> [u32; 7]
                ensures { result ≡ message_kind.words (octets_of text) }
            { message_words(&text) },
        );
        sequence.push_field(6, message);
        sequence.even();
        sequence
    }

    /// A second ID 0, where the count is odd.
    fn even(&mut self)
        requires { self.old.len < 14 }
        ensures { entries_of self.new ≡ evened (entries_of self.old) }
    {
        if self.len % 2 == 1 {
            self.push(MARKER);
        }
    }

    /// The entries in their order.
    pub fn entries(&self) -> &[Content]
        ensures { result.now ≡ entries_of self.now }
    {
        &self.entries[0..self.len]
    }

    /// The number of frames, each of two entries.
    pub fn frames(&self) -> usize
        ensures { result ≡ frames_of self.now }
    {
        self.len / 2
    }
}
