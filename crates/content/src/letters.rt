//! The content words of a telephone and of a message.

ghost use Rattle.std.specs.Prelude.{◌≡◌};
ghost use Rattle.std.specs.Option.{option_map};
ghost use Rattle.card.specs.Card.{symbols_of, octets_of};
ghost use Rattle.content.specs.Kind.{taken_apart, TakesApart};
ghost use Rattle.content.specs.Kinds.{telephone_kind, message_kind};

use crate::lettered::{text_of, words_of};
use card::{Message, Telephone};

// Two calls each way, as the kinds have different numbers of words; each is one call of what they share.

/// The words of Content IDs 3 to 5: eighteen groups of four bits, digits as themselves, 1101 for e, 1111 as padding.
pub fn telephone_words(telephone: &Telephone) -> [u32; 3]
    ensures { result ≡ telephone_kind.words (symbols_of telephone.now) }
{
    words_of::<Telephone, 18, 3>(telephone)
}

/// The words of Content IDs 6 to 12: 24 characters of seven bits, zeros as padding.
pub fn message_words(message: &Message) -> [u32; 7]
    ensures { result ≡ message_kind.words (octets_of message.now) }
{
    words_of::<Message, 24, 7>(message)
}

/// The telephone that has these words, if there is one.
pub fn telephone_of(words: &[u32; 3]) -> Option<Telephone>
    ensures value { option_map symbols_of result ≡ taken_apart telephone_kind words.now }
    ensures rule { TakesApart telephone_kind }
{
    text_of::<Telephone, 18, 3>(words)
}

/// The message that has these words, if there is one.
pub fn message_of(words: &[u32; 7]) -> Option<Message>
    ensures value { option_map octets_of result ≡ taken_apart message_kind words.now }
    ensures rule { TakesApart message_kind }
{
    text_of::<Message, 24, 7>(words)
}
