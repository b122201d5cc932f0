//! The header of a reel.

ghost use Rattle.std.specs.Prelude.{◌≡◌, ◌<◌, ◌≤◌, ◌^◌, length, IfOk};
ghost use Rattle.reel.specs.Headers.{header_of, numbered};

use crate::number::{Number, number_at_front};
use crate::refusal::ReelRefusal;
use lines::MarkedLine;

/// The form of the reels that are known.
const FORM: u32 = 1;

/// The limit of an accession.
const MOST_ACCESSION: u32 = 2_097_151;

/// The limit of the other numbers.
const MOST: u32 = 127;

/// What the header of a reel says.
#[derive(Clone, Copy, PartialEq, Eq, Debug)]
pub struct Header {
    /// The number by which the reel is kept.
    pub accession: u32,
    /// The line that the takes were sent over.
    pub line: MarkedLine,
    /// How many takes there are.
    pub takes: u32,
    /// How many octets the header has: the takes begin behind it.
    pub len: usize,
}

/// The number that octets begin with, or its refusal.
fn number(octets: &[u8], most: u32) -> Result<Number, ReelRefusal>
    requires { most < 2 ^ 21 }
    ensures is { result ≡ numbered most octets.now }
    ensures within { IfOk result (λ n. n.len ≤ length octets.now) }
{
    number_at_front(octets, most).ok_or(ReelRefusal::Number)
}

impl Header {
    /// The header that octets begin with.
    pub fn read(octets: &[u8]) -> Result<Header, ReelRefusal>
        ensures { result ≡ header_of octets.now }
    {
        let form = number(octets, MOST)?;
        if form.value != FORM {
            return Err(ReelRefusal::Unknown);
        }
        let behind = &octets[form.len..];
        let accession = number(behind, MOST_ACCESSION)?;
        let behind = &behind[accession.len..];
        let mark = number(behind, MOST)?;
        let line = MarkedLine::from_mark(mark.value).ok_or(ReelRefusal::Unknown)?;
        let takes = number(&behind[mark.len..], MOST)?;
        Ok(Header {
            accession: accession.value,
            line,
            takes: takes.value,
            len: form.len + accession.len + mark.len + takes.len,
        })
    }
}
