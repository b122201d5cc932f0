//! One line over another.

ghost use Rattle.std.specs.Prelude.{◌≡◌};
ghost use Rattle.line.specs.Calls.{middle_of};
ghost use Rattle.line.specs.Stages.{cascade as cascade_of};
ghost use Rattle.line.proofs.CascadeRules.{cascade_rules};

use line::{LONGEST, Line, LineRefusal};

/// The line bits of `upper` go over `lower`. Only `lower` knows the last bit of the line: the last bit of `upper` is 0.
#[derive(Drop)]
pub struct Cascade<U: Line, D: Line> {
    pub upper: U,
    pub lower: D,
}

impl<U: Line, D: Line> Cascade<U, D> {
    /// The number of bits between the two lines, if words of `n` bits have `l` line bits.
    fn middle(&self, n: usize, l: usize) -> Option<usize>
        ensures { result ≡ middle_of (U.Line.model self.now.upper) (D.Line.model self.now.lower) n l }
    {
        let middle = self.upper.line_length(n)?;
        if self.lower.line_length(middle)? == l {
            Some(middle)
        } else {
            None
        }
    }
}

impl<U: Line, D: Line> Line for Cascade<U, D> {
    ghost model = { λ x. cascade_of (U.Line.model x.upper) (D.Line.model x.lower) };

    ghost rules = { λ x. cascade_rules _ _ (U.Line.rules x.upper) (D.Line.rules x.lower) };

    fn line_length(&self, n: usize) -> Option<usize> {
        self.lower.line_length(self.upper.line_length(n)?)
    }

    fn encode(&self, word: &[u8], last: u8, out: &mut [u8]) -> Result<(), LineRefusal> {
        let Some(middle) = self.middle(word.len(), out.len()) else {
            return Err(LineRefusal::WrongLength);
        };
        // fixed memory: there is no longer word
        let mut room = [0u8; LONGEST];
        let (between, _) = room.split_at_mut(middle);
        self.upper.encode(word, 0, between)?;
        self.lower.encode(between, last, out)
    }

    fn decode(&self, bits: &[u8], out: &mut [u8]) -> Result<(), LineRefusal> {
        let Some(middle) = self.middle(out.len(), bits.len()) else {
            return Err(LineRefusal::WrongLength);
        };
        let mut room = [0u8; LONGEST];
        let (between, _) = room.split_at_mut(middle);
        self.lower.decode(bits, between)?;
        self.upper.decode(between, out)
    }
}
