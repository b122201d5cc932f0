//! The lines that carry frames.

ghost use Rattle.std.specs.Prelude.{◌≡◌};
ghost use Rattle.line.specs.Laws.{Figures};
ghost use Rattle.lines.specs.Marks.{chosen, marked};
ghost use Rattle.lines.specs.declared.lines.MarkedLine.TheVariants.{Standard, Bench};
ghost use Rattle.line.specs.Stages;
ghost use Rattle.line.specs.Stages.{scrambling, repetition, differential};
ghost use Rattle.line.proofs.CascadeRules.{cascade_rules};
ghost use Rattle.line.proofs.DifferentialRules.{differential_rules};
ghost use Rattle.line.proofs.RepetitionRules.{repetition_rules};
ghost use Rattle.line.proofs.ScramblingRules.{scrambling_rules};

use crate::cascade::Cascade;
use line::{Line, LineRefusal};
use line_stages::{Differential, Repetition, Scrambling};

/// The standard's line: scrambling over repetition over differential coding.
pub type StandardLine = Cascade<Scrambling, Cascade<Repetition, Differential>>;

/// The bench's line: scrambling over repetition.
pub type BenchLine = Cascade<Scrambling, Repetition>;

pub const STANDARD: StandardLine = Cascade {
    upper: Scrambling,
    lower: Cascade {
        upper: Repetition,
        lower: Differential,
    },
};

pub const BENCH: BenchLine = Cascade {
    upper: Scrambling,
    lower: Repetition,
};

/// A line that is chosen by its mark.
#[derive(Clone, Copy, PartialEq, Eq, Debug)]
pub enum MarkedLine {
    /// Mark 1: the standard's line.
    Standard,
    /// Mark 2: the bench's line.
    Bench,
}

impl MarkedLine {
    /// The line with this mark, if one has it. (The mark is a number, as any may be handed in; no `TryFrom`, as an error
    /// would say no more than `None`.)
    pub fn from_mark(mark: u32) -> Option<MarkedLine>
        ensures value { result ≡ chosen mark }
        ensures figures { Figures }
    {
        match mark {
            1 => Some(MarkedLine::Standard),
            2 => Some(MarkedLine::Bench),
            _ => None,
        }
    }
}

// Each method chooses: a helper that lends the line to a closure, as `impl FnOnce(&dyn Line) -> R`, cannot be stated yet.
impl Line for MarkedLine {
    ghost model = { marked };

    ghost rules = { elim [
      | Standard ↦
          cascade_rules scrambling (Stages.cascade repetition differential) scrambling_rules
          (cascade_rules repetition differential repetition_rules differential_rules)
      | Bench ↦ cascade_rules scrambling repetition scrambling_rules repetition_rules
    ] };

    fn line_length(&self, n: usize) -> Option<usize> {
        match self {
            MarkedLine::Standard => STANDARD.line_length(n),
            MarkedLine::Bench => BENCH.line_length(n),
        }
    }

    fn encode(&self, word: &[u8], last: u8, out: &mut [u8]) -> Result<(), LineRefusal> {
        match self {
            MarkedLine::Standard => STANDARD.encode(word, last, out),
            MarkedLine::Bench => BENCH.encode(word, last, out),
        }
    }

    fn decode(&self, bits: &[u8], out: &mut [u8]) -> Result<(), LineRefusal> {
        match self {
            MarkedLine::Standard => STANDARD.decode(bits, out),
            MarkedLine::Bench => BENCH.decode(bits, out),
        }
    }
}
