//! Entering and clearing the fields of a card.

ghost use Rattle.std.specs.Prelude.{◌≡◌};
ghost use Rattle.card.specs.Card.{value_of, coordinate, answer_to, card_after};
ghost use Rattle.card.specs.Card.Act.{enter_latitude, enter_longitude, enter_telephone, enter_message, clear_field};

use crate::card::Card;
use crate::coordinate::{MOST_LATITUDE, MOST_LONGITUDE};
use crate::fields::{Coordinate, Message, Telephone};
use crate::kinds::Field;
use crate::refusal::CardRefusal;

// Latitude and longitude are entered by two calls: one with a parameter for the field would be no plainer, and each is one call of what they
// share. Hemispheres and the kind of a field come as numbers: every call takes any, and refuses what is none.
impl Card {
    /// Enters the latitude: degrees 0 to 90, hundredths of a minute 0 to 5999, hemisphere 0 north or 1 south.
    pub fn enter_latitude(
        &mut self,
        degrees: u32,
        hundredths: u32,
        hemisphere: u32,
    ) -> Result<(), CardRefusal>
        ensures answer { result ≡ answer_to (enter_latitude (coordinate degrees hundredths hemisphere)) }
        ensures after { value_of self.new ≡ card_after (value_of self.old) (enter_latitude (coordinate degrees hundredths hemisphere)) }
    {
        let entry = Coordinate::lawful(MOST_LATITUDE, degrees, hundredths, hemisphere);
        self.latitude = Some(entry.ok_or(CardRefusal::Latitude)?);
        Ok(())
    }

    /// Enters the longitude: degrees 0 to 180, hundredths of a minute 0 to 5999, hemisphere 0 east or 1 west.
    pub fn enter_longitude(
        &mut self,
        degrees: u32,
        hundredths: u32,
        hemisphere: u32,
    ) -> Result<(), CardRefusal>
        ensures answer { result ≡ answer_to (enter_longitude (coordinate degrees hundredths hemisphere)) }
        ensures after { value_of self.new ≡ card_after (value_of self.old) (enter_longitude (coordinate degrees hundredths hemisphere)) }
    {
        let entry = Coordinate::lawful(MOST_LONGITUDE, degrees, hundredths, hemisphere);
        self.longitude = Some(entry.ok_or(CardRefusal::Longitude)?);
        Ok(())
    }

    /// Enters the telephone: 1 to 18 symbols 0 to 9 and e, e at most once, neither first nor last.
    pub fn enter_telephone(&mut self, symbols: &[u8]) -> Result<(), CardRefusal>
        ensures answer { result ≡ answer_to (enter_telephone symbols.now) }
        ensures after { value_of self.new ≡ card_after (value_of self.old) (enter_telephone symbols.now) }
    {
        self.telephone = Some(Telephone::new(symbols)?);
        Ok(())
    }

    /// Enters the message: 1 to 24 octets of 32 to 126.
    pub fn enter_message(&mut self, octets: &[u8]) -> Result<(), CardRefusal>
        ensures answer { result ≡ answer_to (enter_message octets.now) }
        ensures after { value_of self.new ≡ card_after (value_of self.old) (enter_message octets.now) }
    {
        self.message = Some(Message::new(octets)?);
        Ok(())
    }

    /// Makes a field missing: 1 latitude, 2 longitude, 3 telephone, 4 message.
    pub fn clear(&mut self, kind: u32) -> Result<(), CardRefusal>
        ensures answer { result ≡ answer_to (clear_field kind) }
        ensures after { value_of self.new ≡ card_after (value_of self.old) (clear_field kind) }
    {
        match Field::try_from(kind)? {
            Field::Latitude => self.latitude = None,
            Field::Longitude => self.longitude = None,
            Field::Telephone => self.telephone = None,
            Field::Message => self.message = None,
        }
        Ok(())
    }
}
