//! A field entered into the card of a round, once the last word of its set has come.

#![tactic(auto, unfolding(crate::specs::Rounds::filled, crate::specs::Rounds::stored))]

ghost use Rattle.std.specs.Prelude.{◌≡◌, [], ◌∷◌, is_ok, Ok, Err, IfSome, IfNone, if◌then◌else◌};
ghost use Rattle.card.specs.Card.{value_of, on_ok};
ghost use Rattle.round.specs.Rounds.{filled};
ghost use Rattle.round.specs.Rounds.State.{opened};
ghost use Rattle.round.specs.Views.{state_of};

use crate::refusal::TakeRefusal;
use crate::state::Round;
use card::{Card, CardRefusal};
use content::{latitude_of, longitude_of, message_of, telephone_of};

/// The Content ID of a latitude.
pub(crate) const LATITUDE: u8 = 1;

/// The Content ID of a longitude.
pub(crate) const LONGITUDE: u8 = 2;

/// The last Content ID of a telephone.
pub(crate) const TELEPHONE_LAST: u8 = 5;

/// The last Content ID of a message.
pub(crate) const MESSAGE_LAST: u8 = 12;

/// Where a half stands: which of the take's two it is, and the card so far of its round.
#[derive(Clone, Copy)]
pub(crate) struct Step {
    pub(crate) half: u8,
    pub(crate) card: Card,
}

impl Step {
    /// The round goes on after this ID with the field in its card, if there is one and the card takes it.
    fn stored<T, E: FnOnce(&mut Card, T) -> Result<(), CardRefusal>>(
        self,
        id: u8,
        field: Option<T>,
        enter: E,
    ) -> Result<Round, TakeRefusal>
        requires { E.IsAlwaysCallable enter }
        ensures none { IfNone field (on_ok state_of result ≡ Err (TakeRefusal.NoValue self.half id)) }
        ensures some { IfSome field (λ v. (before : _) × (r : _) × (after : _) × E.post enter before v r after × (before.now ≡ self.card) × (on_ok state_of result ≡ (if is_ok r then Ok (opened (value_of after.now) id) else Err (TakeRefusal.NoValue self.half id)))) }
    {
        let no_value = TakeRefusal::NoValue {
            half: self.half,
            id,
        };
        let mut card = self.card;
        enter(&mut card, field.ok_or(no_value)?)
            .ok()
            .ok_or(no_value)?;
        Ok(Round::Open { card, last: id })
    }

    // latitude and longitude stay two: a further closure for what differs would need a second contract, and be no plainer

    /// The round goes on with the latitude that has this word.
    pub(crate) fn latitude(self, word: u32) -> Result<Round, TakeRefusal>
        ensures { on_ok state_of result ≡ filled self.half (value_of self.card) 1 (word ∷ []) }
    {
        self.stored(LATITUDE, latitude_of(word), |card, place| {
            card.enter_latitude(
                u32::from(place.degrees),
                u32::from(place.hundredths),
                u32::from(place.hemisphere),
            )
        })
    }

    /// The round goes on with the longitude that has this word.
    pub(crate) fn longitude(self, word: u32) -> Result<Round, TakeRefusal>
        ensures { on_ok state_of result ≡ filled self.half (value_of self.card) 2 (word ∷ []) }
    {
        self.stored(LONGITUDE, longitude_of(word), |card, place| {
            card.enter_longitude(
                u32::from(place.degrees),
                u32::from(place.hundredths),
                u32::from(place.hemisphere),
            )
        })
    }

    /// The round goes on with the telephone that has these words.
    pub(crate) fn telephone(self, words: &[u32; 3]) -> Result<Round, TakeRefusal>
        ensures { on_ok state_of result ≡ filled self.half (value_of self.card) 5 words.now }
    {
        self.stored(TELEPHONE_LAST, telephone_of(words), |card, telephone| {
            card.enter_telephone(telephone.symbols())
        })
    }

    /// The round goes on with the message that has these words.
    pub(crate) fn message(self, words: &[u32; 7]) -> Result<Round, TakeRefusal>
        ensures { on_ok state_of result ≡ filled self.half (value_of self.card) 12 words.now }
    {
        self.stored(MESSAGE_LAST, message_of(words), |card, message| {
            card.enter_message(message.octets())
        })
    }
}
