//! How the characters of a telephone and of a message are laid into groups of bits.

ghost use Rattle.std.specs.Prelude.{◌≡◌, ℕ, ◌*◌, ◌^◌, ◌<◌, ◌≤◌, Bool, List, length, if◌then◌else◌, Some, None, true};
ghost use Rattle.std.specs.Option.{option_map};
ghost use Rattle.card.specs.Card.{symbols_of, octets_of};
ghost use Rattle.card.specs.Fields.{is_telephone, is_message};
ghost use Rattle.content.specs.Kinds.{Lettering, telephone_lettering, message_lettering};
ghost use Rattle.content.specs.Cut.{Cut};
ghost use Rattle.std.proofs.Common.{rules};

use card::{Message, Telephone};

/// A text whose characters are sent as groups of bits of one width, the room behind them filled with padding.
pub(crate) trait Lettered: Copy {
    ghost lettering: { Lettering };

    ghost lawful: { List ℕ → Bool };

    ghost text_of: { Self → List ℕ };

    ghost WIDTH: { ℕ };

    ghost PADDING: { ℕ };

    const WIDTH: usize;

    const PADDING: u32;

    /// The characters.
    fn text(&self) -> &[u8]
        ensures value { result.now ≡ text_of self.now }
        ensures short { length result.now ≤ lettering.room };

    /// The text of these characters, if it is lawful.
    fn of(characters: &[u8]) -> Option<Self>
        ensures { option_map text_of result ≡ (if lawful characters.now then Some characters.now else None) };

    /// The group of a character.
    fn code(character: u8) -> u32
        ensures { result ≡ lettering.code character };

    /// The character of a group.
    fn character(group: u32) -> u8
        requires { group < 2 ^ WIDTH }
        ensures { result ≡ lettering.character group };

    ghost cut: { Cut lettering WIDTH PADDING };
}

impl Lettered for Telephone {
    ghost lettering = { telephone_lettering };

    ghost lawful = { is_telephone };

    ghost text_of = { symbols_of };

    ghost WIDTH = { 4 };

    ghost PADDING = { 15 };

    const WIDTH: usize = 4;

    const PADDING: u32 = 15;

    fn text(&self) -> &[u8] {
        self.symbols()
    }

    fn of(characters: &[u8]) -> Option<Telephone> {
        Telephone::new(characters).ok()
    }

    fn code(character: u8) -> u32 {
        match character {
            b'e' => 13,
            digit => u32::from(digit.saturating_sub(b'0')),
        }
    }

    fn character(group: u32) -> u8 {
        match group {
            13 => b'e',
            digit => b'0' + digit as u8,
        }
    }

    ghost cut = { Prim.search rules };
}

impl Lettered for Message {
    ghost lettering = { message_lettering };

    ghost lawful = { is_message };

    ghost text_of = { octets_of };

    ghost WIDTH = { 7 };

    ghost PADDING = { 0 };

    const WIDTH: usize = 7;

    const PADDING: u32 = 0;

    fn text(&self) -> &[u8] {
        self.octets()
    }

    fn of(characters: &[u8]) -> Option<Message> {
        Message::new(characters).ok()
    }

    fn code(character: u8) -> u32 {
        u32::from(character)
    }

    fn character(group: u32) -> u8 {
        group as u8
    }

    ghost cut = { Prim.search rules };
}
