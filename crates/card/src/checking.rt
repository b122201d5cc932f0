//! Whether octets make a lawful telephone or message.

ghost use Rattle.std.specs.Prelude.{◌≡◌, ℕ, ◌+◌, ◌<◌, ◌≤◌, not, length, position, if◌then◌else◌, Ok, Err};
ghost use Rattle.card.specs.Fields.{is_symbol, symbol_code, count, extension_inside, is_printing};
ghost use Rattle.card.specs.Card.{telephone_answer, symbols_answer, message_answer, octets_answer};

use crate::refusal::CardRefusal;

/// The four-bit code of a telephone symbol, or the refusal of the symbol at `place`.
// Symbol by symbol, as the rule is read: `char::to_digit` would give the codes of the digits alone.
pub fn symbol_code(symbol: char, place: u8) -> Result<u8, CardRefusal>
    ensures { result ≡ (if is_symbol symbol then Ok (symbol_code symbol) else Err (CardRefusal.TelephoneSymbol place)) }
{
    match symbol {
        '0' => Ok(0),
        '1' => Ok(1),
        '2' => Ok(2),
        '3' => Ok(3),
        '4' => Ok(4),
        '5' => Ok(5),
        '6' => Ok(6),
        '7' => Ok(7),
        '8' => Ok(8),
        '9' => Ok(9),
        'e' => Ok(13),
        _ => Err(CardRefusal::TelephoneSymbol { place }),
    }
}

// The check of symbols and that of octets stay two: a symbol is refused by the match that gives its code, and an octet has no code.

/// Whether each is a telephone symbol.
pub(crate) fn check_symbols(symbols: &[u8]) -> Result<(), CardRefusal>
    requires { length symbols.now ≤ 18 }
    ensures { result ≡ symbols_answer symbols.now }
{
    for (index, symbol) in symbols.iter().enumerate() {
        symbol_code(char::from(*symbol), place_at(index))?;
    }
    Ok(())
}

/// Whether e comes at most once, neither first nor last.
pub(crate) fn extension_inside(symbols: &[u8]) -> bool
    requires { 1 ≤ length symbols.now }
    ensures { result ≡ extension_inside symbols.now }
{
    count_extensions(symbols) <= 1 && symbols[0] != b'e' && symbols[symbols.len() - 1] != b'e'
}

/// How often e comes.
fn count_extensions(symbols: &[u8]) -> usize
    ensures { result ≡ count 101 symbols.now }
{
    symbols.iter().filter(|symbol| **symbol == b'e').count()
}

/// Whether each is a printing character.
pub(crate) fn check_octets(octets: &[u8]) -> Result<(), CardRefusal>
    requires { length octets.now ≤ 24 }
    ensures { result ≡ octets_answer octets.now }
{
    match first_unprinted(octets) {
        None => Ok(()),
        Some(index) => Err(CardRefusal::MessageOctet {
            place: place_at(index),
        }),
    }
}

/// Where the first stands that is no printing character.
fn first_unprinted(octets: &[u8]) -> Option<usize>
    ensures { result ≡ position (λ x. not (is_printing x)) octets.now }
{
    octets.iter().position(|octet| !is_printing(*octet))
}

/// Whether an octet is a printing character.
fn is_printing(octet: u8) -> bool
    ensures { result ≡ is_printing octet }
{
    matches!(octet, 32..=126)
}

/// The place of what stands at `index`, counted from 1.
fn place_at(index: usize) -> u8
    requires { index < 255 }
    ensures { result ≡ index + 1 }
{
    index as u8 + 1
}
