//! Making a coordinate.

ghost use Rattle.std.specs.Prelude.{◌≡◌, if◌then◌else◌, Some, None};
ghost use Rattle.card.specs.Fields.{is_coordinate};
ghost use Rattle.card.specs.Card.{coordinate};

use crate::fields::Coordinate;

/// The most degrees of a latitude.
pub const MOST_LATITUDE: u8 = 90;

/// The most degrees of a longitude.
pub const MOST_LONGITUDE: u8 = 180;

/// The most hundredths of a minute.
const MOST_HUNDREDTHS: u32 = 5999;

impl Coordinate {
    /// The coordinate of these three numbers, which may be any, if it is lawful where degrees are at most `most`.
    pub fn lawful(most: u8, degrees: u32, hundredths: u32, hemisphere: u32) -> Option<Coordinate>
        ensures { result ≡ (if is_coordinate most (coordinate degrees hundredths hemisphere) then Some (coordinate degrees hundredths hemisphere) else None) }
    {
        if degrees <= u32::from(most) && hundredths <= MOST_HUNDREDTHS && hemisphere <= 1 {
            Some(Coordinate {
                degrees: degrees as u8,
                hundredths: hundredths as u16,
                hemisphere: hemisphere as u8,
            })
        } else {
            None
        }
    }
}
