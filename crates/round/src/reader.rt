//! The reader of rounds.

#![tactic(auto, unfolding(crate::specs::Rounds::card_after, crate::specs::Rounds::refusing, crate::specs::Rounds::accepting, crate::specs::Rounds::following, crate::specs::Rounds::on_frame, crate::specs::Rounds::on_take))]

ghost use Rattle.std.specs.Prelude.{◌≡◌};
ghost use Rattle.std.specs.Option.{option_map};
ghost use Rattle.card.specs.Card.{value_of, on_ok};
ghost use Rattle.round.specs.Rounds.{fresh, card_after, on_take};
ghost use Rattle.round.specs.Views.{answer_of, reading_of};
ghost use Rattle.round.specs.Moves.{concluded};

use crate::refusal::TakeRefusal;
use crate::state::{Answer, RoundReader};
use crate::takes::check_unique;
use card::Card;
use frame::{Frame, FrameRefusal};

impl RoundReader {
    /// A reader to which no take has come.
    pub fn new() -> RoundReader
        ensures { reading_of result ≡ fresh }
    {
        RoundReader::default()
    }

    /// Takes a judged take in. A refused one closes nothing: the open round and the last unique word are forgotten, the card
    /// closed last is not.
    pub fn take(&mut self, judged: Result<Frame, FrameRefusal>) -> Result<Answer, TakeRefusal>
        ensures answer { on_ok answer_of result ≡ (on_take (reading_of self.old) judged).answer }
        ensures after { reading_of self.new ≡ (on_take (reading_of self.old) judged).after }
    {
        match self.accepted(judged) {
            Ok((after, answer)) => {
                *self = after;
                Ok(answer)
            }
            Err(refusal) => {
                *self = RoundReader {
                    card: self.card,
                    ..RoundReader::new()
                };
                Err(refusal)
            }
        }
    }

    /// The reader after an accepted take, and the answer to it.
    fn accepted(
        &self,
        judged: Result<Frame, FrameRefusal>,
    ) -> Result<(RoundReader, Answer), TakeRefusal>
        ensures { concluded (reading_of self.now) result ≡ on_take (reading_of self.now) judged }
    {
        let frame = judged?;
        check_unique(self.unique, frame.unique)?;
        let identifier = self.round.check_identifier(frame.identifier)?;
        let round = self.round.halves(identifier, &frame)?;
        let answer = self.round.told(frame.first.id);
        let after = RoundReader {
            round,
            unique: Some(frame.unique),
            card: answer.closed_card(self.card),
        };
        Ok((after, answer))
    }

    /// The card closed last, if there is one.
    pub fn card(&self) -> Option<Card>
        ensures { option_map value_of result ≡ (reading_of self.now).card }
    {
        self.card
    }
}

impl Answer {
    /// The card closed last after this answer, where `before` was.
    fn closed_card(&self, before: Option<Card>) -> Option<Card>
        ensures { option_map value_of result ≡ card_after (answer_of self.now) (option_map value_of before) }
    {
        match self {
            Answer::Closed { card } => Some(*card),
            _ => before,
        }
    }
}
