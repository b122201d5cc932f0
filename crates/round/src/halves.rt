//! What a half does to a round.

#![tactic(auto, unfolding(crate::specs::Rounds::begins, crate::specs::Rounds::completes, crate::specs::Rounds::joined, crate::specs::Rounds::marked, crate::specs::Rounds::advanced))]

ghost use Rattle.std.specs.Prelude.{◌≡◌, suc, ◌&&◌, [], ◌∷◌, ◌++◌, if◌then◌else◌, Ok, Err, nat_eq, nat_lt};
ghost use Rattle.card.specs.Card.{value_of, on_ok};
ghost use Rattle.round.specs.Rounds.{begins, joined, advanced};
ghost use Rattle.round.specs.Views.{words_of, state_of};

use crate::fields::{LATITUDE, LONGITUDE, MESSAGE_LAST, Step, TELEPHONE_LAST};
use crate::refusal::TakeRefusal;
use crate::set::UnfinishedSet;
use crate::state::Round;
use content::Content;

/// The Content ID that begins a round, and that may end it.
pub(crate) const MARKER: u8 = 0;

/// The one word that it has.
const MARKER_WORD: u32 = 0x000001;

/// The first Content ID of a telephone.
const TELEPHONE_FIRST: u8 = 3;

/// The first Content ID of a message.
const MESSAGE_FIRST: u8 = 6;

/// Content ID 0 has one word and no other.
pub(crate) fn check_marker(half: u8, word: u32) -> Result<(), TakeRefusal>
    ensures { result ≡ (if nat_eq word 1 then Ok tt else Err (TakeRefusal.NoValue half 0)) }
{
    if word == MARKER_WORD {
        Ok(())
    } else {
        Err(TakeRefusal::NoValue { half, id: MARKER })
    }
}

impl Step {
    /// A set begins, if this is the first ID of one and above the last.
    fn begin_set(self, last: u8, content: Content) -> Result<Round, TakeRefusal>
        ensures { on_ok state_of result ≡ (if nat_lt last content.id && begins content.id then joined self.half (value_of self.card) content.id (content.word ∷ []) else Err (TakeRefusal.ContentId self.half content.id)) }
    {
        let Step { half, card } = self;
        match content.id {
            id if id <= last => Err(TakeRefusal::ContentId { half, id }),
            LATITUDE => self.latitude(content.word),
            LONGITUDE => self.longitude(content.word),
            TELEPHONE_FIRST | MESSAGE_FIRST => {
                let set = UnfinishedSet::begun(content.id, content.word);
                Ok(Round::Unfinished { card, set })
            }
            id => Err(TakeRefusal::ContentId { half, id }),
        }
    }

    /// An unfinished set goes on, if this is its next ID.
    fn continue_set(self, set: UnfinishedSet, content: Content) -> Result<Round, TakeRefusal>
        ensures { on_ok state_of result ≡ (if nat_eq content.id (suc set.last) then joined self.half (value_of self.card) content.id (words_of set ++ (content.word ∷ [])) else Err (TakeRefusal.ContentId self.half content.id)) }
    {
        let Step { half, card } = self;
        match content.id {
            id if id != set.next() => Err(TakeRefusal::ContentId { half, id }),
            TELEPHONE_LAST => self.telephone(&set.finished(content.word)),
            MESSAGE_LAST => self.message(&set.finished(content.word)),
            _ => Ok(Round::Unfinished {
                card,
                set: set.grown(content.word),
            }),
        }
    }
}

impl Round {
    /// A half within a round: ID 0 closes it, any other begins a set or goes on with one.
    pub(crate) fn advance(&self, half: u8, content: Content) -> Result<Round, TakeRefusal>
        ensures { on_ok state_of result ≡ advanced half (state_of self.now) content }
    {
        match (*self, content.id) {
            (Round::Waiting, _) => Ok(Round::Waiting),
            (Round::Open { card, .. }, MARKER) => {
                check_marker(half, content.word)?;
                Ok(Round::Closing { card })
            }
            (Round::Open { card, last }, _) => Step { half, card }.begin_set(last, content),
            (Round::Unfinished { .. }, MARKER) => Err(TakeRefusal::BrokenOff { half, id: MARKER }),
            (Round::Unfinished { card, set }, _) => Step { half, card }.continue_set(set, content),
            (Round::Closing { .. }, id) => Err(TakeRefusal::ContentId { half, id }),
        }
    }
}
