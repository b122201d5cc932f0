//! What is told of a refusal.

ghost use Rattle.std.specs.Prelude.{◌≡◌};
ghost use Rattle.reports.specs.Reports.{number_alone, in_half, at_place, in_half_at_place};

use std::fmt;

/// A refusal's number, the half of a frame that it is about, 1 or 2, and the place; 0 where it is about none, as `half` and
/// `place` of a refusal promise.
#[derive(Clone, Copy, PartialEq, Eq, Debug)]
pub struct Report {
    pub number: u8,
    pub half: u8,
    pub place: u8,
}

impl Report {
    /// Of a refusal that is about no half and no place.
    pub fn number_alone(number: u8) -> Report
        ensures { result ≡ number_alone number }
    {
        Report::in_half_at_place(number, 0, 0)
    }

    /// Of a refusal that is about a half.
    pub fn in_half(number: u8, half: u8) -> Report
        ensures { result ≡ in_half number half }
    {
        Report::in_half_at_place(number, half, 0)
    }

    /// Of a refusal that is about a place.
    pub fn at_place(number: u8, place: u8) -> Report
        ensures { result ≡ at_place number place }
    {
        Report::in_half_at_place(number, 0, place)
    }

    /// Of a refusal that is about a place in a half.
    pub fn in_half_at_place(number: u8, half: u8, place: u8) -> Report
        ensures { result ≡ in_half_at_place number half place }
    {
        Report {
            number,
            half,
            place,
        }
    }
}

/// As `refused with 17 in half 1`: what a refusal is not about is left out.
impl fmt::Display for Report {
    fn fmt<W: fmt::Write>(&self, f: &mut fmt::Formatter<W>) -> fmt::Result {
        write!(f, "refused with {}", self.number)?;
        if self.half != 0 {
            write!(f, " in half {}", self.half)?;
        }
        if self.place != 0 {
            write!(f, " at place {}", self.place)?;
        }
        Ok(())
    }
}
