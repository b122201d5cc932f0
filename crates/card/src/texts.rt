//! Making and reading a telephone and a message.

ghost use Rattle.std.specs.Prelude.{◌≡◌, if◌then◌else◌, Some, None};
ghost use Rattle.std.specs.Option.{option_map};
ghost use Rattle.buffers.specs.Buffer.{text_of};
ghost use Rattle.card.specs.Fields.{length_within};
ghost use Rattle.card.specs.Card.{symbols_of, octets_of, on_ok, telephone_answer, message_answer};

use crate::checking::{check_octets, check_symbols, extension_inside};
use crate::fields::{Message, Telephone};
use crate::refusal::CardRefusal;
use buffers::Buffer;

impl Telephone {
    /// The telephone of these symbols, each an octet read as a character.
    pub fn new(symbols: &[u8]) -> Result<Telephone, CardRefusal>
        ensures { on_ok symbols_of result ≡ on_ok (λ _. symbols.now) (telephone_answer symbols.now) }
    {
        let symbols = within(symbols).ok_or(CardRefusal::TelephoneLength)?;
        check_symbols(symbols.as_slice())?;
        if !extension_inside(symbols.as_slice()) {
            return Err(CardRefusal::TelephoneExtension);
        }
        Ok(Telephone { symbols })
    }

    /// The symbols.
    pub fn symbols(&self) -> &[u8]
        ensures { result.now ≡ symbols_of self.now }
    {
        self.symbols.as_slice()
    }
}

impl Message {
    /// The message of these octets.
    pub fn new(octets: &[u8]) -> Result<Message, CardRefusal>
        ensures { on_ok octets_of result ≡ on_ok (λ _. octets.now) (message_answer octets.now) }
    {
        let octets = within(octets).ok_or(CardRefusal::MessageLength)?;
        check_octets(octets.as_slice())?;
        Ok(Message { octets })
    }

    /// The octets.
    pub fn octets(&self) -> &[u8]
        ensures { result.now ≡ octets_of self.now }
    {
        self.octets.as_slice()
    }
}

/// The octets in fixed memory, if there are 1 to `N`.
fn within<const N: usize>(octets: &[u8]) -> Option<Buffer<N>>
    ensures { option_map text_of result ≡ (if length_within N octets.now then Some octets.now else None) }
{
    if octets.is_empty() {
        return None;
    }
    Buffer::of(octets)
}
