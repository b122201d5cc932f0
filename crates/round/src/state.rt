//! Where a reader stands, and what it answers.

use crate::set::UnfinishedSet;
use card::Card;

/// Where the reader stands in a round.
#[derive(Clone, Copy, PartialEq, Eq, Debug, Default)]
pub enum Round {
    /// No round is open.
    #[default]
    Waiting,
    /// A round is open: its card so far, and the last Content ID, a number since IDs are compared by order.
    Open { card: Card, last: u8 },
    /// In the round a telephone or a message is unfinished.
    Unfinished { card: Card, set: UnfinishedSet },
    /// In the round the closing 0 has come.
    Closing { card: Card },
}

/// What is answered to a block or a take that is not refused.
#[derive(Clone, Copy, PartialEq, Eq, Debug)]
pub enum Answer {
    /// The block was counted; its take is not whole.
    Counted,
    /// No round is open, and the take opens none.
    PassedOver,
    /// The take belongs to the open round.
    Taken,
    /// The take closes the round of this card, and opens one.
    Closed { card: Card },
}

/// What is kept from take to take: the round, the unique word of the last accepted take, and the card closed last.
#[derive(Clone, Copy, PartialEq, Eq, Debug, Default)]
pub struct RoundReader {
    pub(crate) round: Round,
    pub(crate) unique: Option<u8>,
    pub(crate) card: Option<Card>,
}
