//! The values that a card's fields hold.

ghost use Rattle.std.specs.Prelude.{◌≡◌, true};
ghost use Rattle.buffers.specs.Buffer.{text_of};
ghost use Rattle.card.specs.Fields.{is_telephone, is_message};

use buffers::Buffer;

/// A latitude or a longitude, as plain numbers.
#[derive(Clone, Copy, PartialEq, Eq, Debug)]
pub struct Coordinate {
    pub degrees: u8,
    /// Hundredths of a minute.
    pub hundredths: u16,
    /// 0 north or east, 1 south or west; a number, since calls take any and refuse what is none: an enum would ask more of callers.
    pub hemisphere: u8,
}

/// A telephone number: 1 to 18 symbols, 0 to 9 and at most one e between them.
#[derive(Clone, Copy, PartialEq, Eq, Debug)]
pub struct Telephone {
    pub(crate) symbols: Buffer<18>,
    ghost lawful: { is_telephone (text_of symbols) ≡ true },
}

/// A message: 1 to 24 printing characters.
#[derive(Clone, Copy, PartialEq, Eq, Debug)]
pub struct Message {
    pub(crate) octets: Buffer<24>,
    ghost lawful: { is_message (text_of octets) ≡ true },
}
