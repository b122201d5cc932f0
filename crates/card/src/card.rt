//! A card: what one modulator announces.

ghost use Rattle.std.specs.Prelude.{◌≡◌, true};
ghost use Rattle.card.specs.Fields.{is_latitude, is_longitude, missing_or};

use crate::fields::{Coordinate, Message, Telephone};
use crate::identifier::Identifier;

/// An identifier and up to four fields, each of which keeps its rules.
#[derive(Clone, Copy, PartialEq, Eq, Debug)]
pub struct Card {
    pub(crate) identifier: Identifier,
    pub(crate) latitude: Option<Coordinate>,
    pub(crate) longitude: Option<Coordinate>,
    pub(crate) telephone: Option<Telephone>,
    pub(crate) message: Option<Message>,
    ghost latitude_lawful: { missing_or is_latitude latitude ≡ true },
    ghost longitude_lawful: { missing_or is_longitude longitude ≡ true },
}
