//! The kinds of field, and their numbers.

ghost use Rattle.std.specs.Prelude.{◌≡◌};
ghost use Rattle.card.specs.Kinds.{field_of};

use crate::refusal::CardRefusal;

/// The kinds of field.
#[derive(Clone, Copy, PartialEq, Eq, Debug)]
pub enum Field {
    Latitude,
    Longitude,
    Telephone,
    Message,
}

/// The fields are numbered from 1, in their order.
impl TryFrom<u32> for Field {
    type Error = CardRefusal;

    ghost try_from_gives = { λ kind result. result ≡ field_of kind };

    fn try_from(kind: u32) -> Result<Field, CardRefusal> {
        match kind {
            1 => Ok(Field::Latitude),
            2 => Ok(Field::Longitude),
            3 => Ok(Field::Telephone),
            4 => Ok(Field::Message),
            _ => Err(CardRefusal::NoSuchField),
        }
    }
}
