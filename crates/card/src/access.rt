//! Reading a card.

ghost use Rattle.std.specs.Prelude.{◌≡◌};

use crate::card::Card;
use crate::fields::{Coordinate, Message, Telephone};
use crate::identifier::Identifier;

impl Identifier {
    /// The eight octets.
    pub fn octets(&self) -> [u8; 8]
        ensures { result ≡ self.now.octets }
    {
        self.octets
    }
}

// A call for each field: each is public, and stands.
impl Card {
    /// The identifier.
    pub fn identifier(&self) -> Identifier
        ensures { result ≡ self.now.identifier }
    {
        self.identifier
    }

    /// The latitude, if it is not missing.
    pub fn latitude(&self) -> Option<Coordinate>
        ensures { result ≡ self.now.latitude }
    {
        self.latitude
    }

    /// The longitude, if it is not missing.
    pub fn longitude(&self) -> Option<Coordinate>
        ensures { result ≡ self.now.longitude }
    {
        self.longitude
    }

    /// The telephone, if it is not missing.
    pub fn telephone(&self) -> Option<Telephone>
        ensures { result ≡ self.now.telephone }
    {
        self.telephone
    }

    /// The message, if it is not missing.
    pub fn message(&self) -> Option<Message>
        ensures { result ≡ self.now.message }
    {
        self.message
    }
}
