//! The five lines that a card is printed as.

ghost use Rattle.std.specs.Prelude.{◌≡◌, ℕ, ◌+◌, ◌*◌, ◌/◌, ◌%◌, ◌<◌, ◌≤◌, ◌∷◌, [], ◌++◌, length, if◌then◌else◌, IfOk, codes, ◌==◌, slice_index};
ghost use Rattle.std.specs.Option.{option_map};
ghost use Rattle.buffers.specs.Buffer.{text_of, appended};
ghost use Rattle.card.specs.Card.{value_of};
ghost use Rattle.card.specs.Print.{hex_digit, hex_octet, decimals, minutes_text, coordinate_text, identifier_line, field_line, card_text, print_answer, printed};

use crate::card::Card;
use crate::fields::Coordinate;
use crate::identifier::Identifier;
use crate::refusal::PrintRefusal;
use buffers::Buffer;

/// The length of the longest text of a card.
pub const LONGEST_TEXT: usize = 112;

/// The lines written so far.
type Page = Buffer<LONGEST_TEXT>;

// Digits are made by hand and not by `write!`: std does not say when that succeeds, and `print` promises that it does.

/// The character of a hexadecimal digit.
fn hex_digit(digit: u8) -> u8
    requires { digit < 16 }
    ensures { result ≡ hex_digit digit }
{
    if digit < 10 {
        b'0' + digit
    } else {
        b'A' + (digit - 10)
    }
}

/// An octet in hexadecimal.
fn hex_octet(octet: u8) -> [u8; 2]
    ensures { result ≡ hex_octet octet }
{
    [hex_digit(octet / 16), hex_digit(octet % 16)]
}

/// A colon, and an octet in hexadecimal.
fn colon_octet(octet: u8) -> [u8; 3]
    ensures { result ≡ codes ":" ++ hex_octet octet }
{
    let [high, low] = hex_octet(octet);
    [b':', high, low]
}

/// The character of one decimal digit of `value`: 1 for its last, 10 for the one before it, and so on.
fn decimal(value: u16, unit: u16) -> u8
    requires { 0 < unit }
    ensures { result ≡ 48 + value / unit % 10 }
{
    b'0' + (value / unit % 10) as u8
}

/// The last two decimal digits of `value`.
fn two_digits(value: u16) -> [u8; 2]
    ensures { result ≡ decimals 2 value }
{
    [decimal(value, 10), decimal(value, 1)]
}

/// Hundredths of a minute as minutes with two places.
fn minutes(hundredths: u16) -> [u8; 5]
    ensures { result ≡ minutes_text hundredths }
{
    let [a, b] = two_digits(hundredths / 100);
    let [c, d] = two_digits(hundredths % 100);
    [a, b, b'.', c, d]
}

/// Degrees of so many digits, minutes, and the letter of hemisphere 0 or of hemisphere 1.
fn coordinate_text(p: Coordinate, digits: usize, letters: [u8; 2]) -> Buffer<10>
    requires { digits ≤ 3 }
    ensures { text_of result ≡ coordinate_text digits (slice_index letters 0) (slice_index letters 1) p }
{
    let degrees = u16::from(p.degrees);
    let three = [
        decimal(degrees, 100),
        decimal(degrees, 10),
        decimal(degrees, 1),
    ];
    let [first, second] = letters;
    let letter = if p.hemisphere == 0 { first } else { second };
    let mut text = Buffer::new();
    text.extend(&three[3 - digits..]);
    text.extend(&minutes(p.hundredths));
    text.extend(&[b' ', letter]);
    text
}

/// Appends the identifier's line.
fn put_identifier(page: &mut Page, identifier: Identifier)
    ensures { text_of page.new ≡ appended 112 (text_of page.old) (identifier_line identifier.octets) }
{
    page.extend(b"id ");
    page.extend(&hex_octet(identifier.check_octet()));
    for octet in identifier.octets() {
        page.extend(&colon_octet(octet));
    }
    page.push(b'\n');
}

/// Appends a field's line: its word, and its text unless it is missing.
fn put_field<const N: usize>(page: &mut Page, word: &[u8], text: Option<Buffer<N>>)
    ensures { text_of page.new ≡ appended 112 (text_of page.old) (field_line word.now (option_map text_of text.entry)) }
{
    page.extend(word);
    if let Some(text) = text {
        page.push(b' ');
        page.extend(text.as_slice());
    }
    page.push(b'\n');
}

impl Card {
    /// The card's five lines.
    fn text(&self) -> Page
        ensures { text_of result ≡ card_text (value_of self.now) }
    {
        let mut page = Buffer::new();
        put_identifier(&mut page, self.identifier);
        put_field(
            &mut page,
            b"lat",
            self.latitude.map(|p| coordinate_text(p, 2, [b'N', b'S'])),
        );
        put_field(
            &mut page,
            b"long",
            self.longitude.map(|p| coordinate_text(p, 3, [b'E', b'W'])),
        );
        put_field(&mut page, b"tel", self.telephone.map(|t| t.symbols));
        put_field(&mut page, b"msg", self.message.map(|m| m.octets));
        page
    }

    /// Writes the card's five lines to the front of `out` and answers their length. The octets after them stay.
    pub fn print(&self, out: &mut [u8]) -> Result<usize, PrintRefusal>
        ensures answer { result ≡ print_answer (value_of self.now) out.old }
        ensures bound { IfOk result (λ len. len ≤ 112) }
        ensures text { out.new ≡ printed (value_of self.now) out.old }
    {
        if out.len() < LONGEST_TEXT {
            return Err(PrintRefusal::ShortBuffer);
        }
        let text = self.text();
        let len = text.len();
        out[..len].copy_from_slice(text.as_slice());
        Ok(len)
    }
}
