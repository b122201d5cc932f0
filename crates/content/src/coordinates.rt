//! The content word of a latitude and of a longitude.

ghost use Rattle.std.specs.Prelude.{◌≡◌, ◌+◌, ◌*◌, ◌/◌, ◌%◌, ◌<◌, ◌≤◌, [], ◌∷◌, if◌then◌else◌, Some, None};
ghost use Rattle.card.specs.Card.{coordinate};
ghost use Rattle.card.specs.Fields.{is_coordinate};
ghost use Rattle.content.specs.Kind.{taken_apart, TakesApart};
ghost use Rattle.content.specs.Kinds.{latitude_kind, longitude_kind};

use card::{Coordinate, MOST_LATITUDE, MOST_LONGITUDE};

/// Of degrees and hundredths as one number, how many hundredths a degree takes.
const DEGREE: u32 = 10000;

/// How the coordinates of one kind are laid into a word.
struct Layout {
    /// The most degrees.
    most: u8,
    /// What the number of degrees and hundredths is multiplied by, to leave room for the hemisphere.
    scale: u32,
    ghost room: { 1 < scale },
    ghost fits: { scale ≤ 16 },
}

const LATITUDE: Layout = Layout {
    most: MOST_LATITUDE,
    scale: 16,
};

const LONGITUDE: Layout = Layout {
    most: MOST_LONGITUDE,
    scale: 8,
};

impl Layout {
    /// The word of a coordinate.
    fn word(&self, place: Coordinate) -> u32
        ensures { result ≡ (place.degrees * 10000 + place.hundredths) * self.now.scale + place.hemisphere }
    {
        let number = u32::from(place.degrees) * DEGREE + u32::from(place.hundredths);
        number * self.scale + u32::from(place.hemisphere)
    }

    /// The coordinate that a word holds, if it is lawful.
    fn coordinate(&self, word: u32) -> Option<Coordinate>
        ensures { result ≡ (if is_coordinate self.now.most (coordinate (word / self.now.scale / 10000) (word / self.now.scale % 10000) (word % self.now.scale)) then Some (coordinate (word / self.now.scale / 10000) (word / self.now.scale % 10000) (word % self.now.scale)) else None) }
    {
        let number = word / self.scale;
        let hemisphere = word % self.scale;
        Coordinate::lawful(self.most, number / DEGREE, number % DEGREE, hemisphere)
    }
}

// Two calls each way: one with a parameter for the kind would be no plainer, and each is one call of its layout.

/// The word of Content ID 1: 20 bits of degrees and hundredths, 000, the hemisphere.
pub fn latitude_word(latitude: Coordinate) -> u32
    ensures { result ∷ [] ≡ latitude_kind.words latitude }
{
    LATITUDE.word(latitude)
}

/// The words of Content ID 1: that one.
pub(crate) fn latitude_words(latitude: Coordinate) -> [u32; 1]
    ensures { result ≡ latitude_kind.words latitude }
{
    [latitude_word(latitude)]
}

/// The word of Content ID 2: 21 bits of degrees and hundredths, 00, the hemisphere.
pub fn longitude_word(longitude: Coordinate) -> u32
    ensures { result ∷ [] ≡ longitude_kind.words longitude }
{
    LONGITUDE.word(longitude)
}

/// The words of Content ID 2: that one.
pub(crate) fn longitude_words(longitude: Coordinate) -> [u32; 1]
    ensures { result ≡ longitude_kind.words longitude }
{
    [longitude_word(longitude)]
}

/// The latitude that has this word, if there is one.
pub fn latitude_of(word: u32) -> Option<Coordinate>
    ensures value { result ≡ taken_apart latitude_kind (word ∷ []) }
    ensures rule { TakesApart latitude_kind }
{
    LATITUDE.coordinate(word)
}

/// The longitude that has this word, if there is one.
pub fn longitude_of(word: u32) -> Option<Coordinate>
    ensures value { result ≡ taken_apart longitude_kind (word ∷ []) }
    ensures rule { TakesApart longitude_kind }
{
    LONGITUDE.coordinate(word)
}
