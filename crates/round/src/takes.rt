//! What an accepted take does to a round.

#![tactic(auto, unfolding(crate::specs::Rounds::repeats, crate::specs::Rounds::agrees, crate::specs::Rounds::round_card, crate::specs::Rounds::marked, crate::specs::Rounds::opening, crate::specs::Rounds::first_half, crate::specs::Rounds::second_half, crate::specs::Rounds::halves, crate::specs::Rounds::told))]

ghost use Rattle.std.specs.Prelude.{◌≡◌, if◌then◌else◌, Ok, Err, nat_eq};
ghost use Rattle.std.specs.Option.{option_map};
ghost use Rattle.card.specs.Card.{value_of, on_ok};
ghost use Rattle.round.specs.Rounds.{repeats, agrees, round_card, first_half, halves, told};
ghost use Rattle.round.specs.Views.{state_of, answer_of};

use crate::halves::{MARKER, check_marker};
use crate::refusal::TakeRefusal;
use crate::state::{Answer, Round};
use card::{Card, Identifier};
use content::Content;
use frame::Frame;

/// The unique word is not that of the last accepted take.
pub(crate) fn check_unique(before: Option<u8>, unique: u8) -> Result<(), TakeRefusal>
    ensures { result ≡ (if repeats before unique then Err TakeRefusal.SameUniqueWord else Ok tt) }
{
    if before == Some(unique) {
        Err(TakeRefusal::SameUniqueWord)
    } else {
        Ok(())
    }
}

impl Round {
    /// The card so far of the open round.
    fn card(&self) -> Option<Card>
        ensures { option_map value_of result ≡ round_card (state_of self.now) }
    {
        match self {
            Round::Waiting => None,
            Round::Open { card, .. } | Round::Unfinished { card, .. } | Round::Closing { card } =>
                Some(*card),
        }
    }

    /// The identifier of these octets, if it is lawful, and that of the open round.
    pub(crate) fn check_identifier(&self, octets: [u8; 8]) -> Result<Identifier, TakeRefusal>
        ensures { on_ok (λ d. d.octets) result ≡ (if agrees (round_card (state_of self.now)) octets then Ok octets else Err TakeRefusal.Identifier) }
    {
        let identifier = Identifier::new(octets).ok_or(TakeRefusal::Identifier)?;
        if self
            .card()
            .is_some_and(|card| card.identifier() != identifier)
        {
            return Err(TakeRefusal::Identifier);
        }
        Ok(identifier)
    }

    /// The take's first half: ID 0 opens a round for this identifier, and any other is the round's next.
    fn first_half(&self, identifier: Identifier, first: Content) -> Result<Round, TakeRefusal>
        ensures { on_ok state_of result ≡ first_half identifier.octets (state_of self.now) first }
    {
        match (self, first.id) {
            (Round::Waiting | Round::Open { .. } | Round::Closing { .. }, MARKER) => {
                check_marker(1, first.word)?;
                Ok(Round::Open {
                    card: Card::blank(identifier),
                    last: MARKER,
                })
            }
            (Round::Unfinished { .. }, MARKER) => Err(TakeRefusal::BrokenOff {
                half: 1,
                id: MARKER,
            }),
            (_, _) => self.advance(1, first),
        }
    }

    /// The round after both halves of a take, whose identifier is lawful and that of the round.
    pub(crate) fn halves(&self, identifier: Identifier, frame: &Frame) -> Result<Round, TakeRefusal>
        requires { identifier.octets ≡ frame.now.identifier }
        ensures { on_ok state_of result ≡ halves (state_of self.now) frame.now }
    {
        let halfway = self.first_half(identifier, frame.first)?;
        halfway.advance(2, frame.second)
    }

    /// What is answered to an accepted take with this first ID, by the round before it.
    pub(crate) fn told(&self, first: u8) -> Answer
        ensures { answer_of result ≡ told (round_card (state_of self.now)) (nat_eq first 0) }
    {
        match (self, first) {
            (Round::Waiting, MARKER) => Answer::Taken,
            (Round::Waiting, _) => Answer::PassedOver,
            (
                Round::Open { card, .. } | Round::Unfinished { card, .. } | Round::Closing { card },
                MARKER,
            ) => Answer::Closed { card: *card },
            (_, _) => Answer::Taken,
        }
    }
}
