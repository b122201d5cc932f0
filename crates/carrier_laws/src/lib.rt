//! What holds of the way from a sender to a reader. Each function's contract is the law; it does nothing else.

#![tactic(auto)]

ghost use Rattle.carrier_laws.specs.Runs.{RunsExist};
ghost use Rattle.carrier_laws.specs.Blocks.{ClosedOnlyByRounds};
ghost use Rattle.carrier_laws.specs.Bounds.{WithinBound};
ghost use Rattle.carrier_laws.specs.ExactJudging.{ExactHalves};

/// The guarantee of two rounds is not empty: whatever card, frame number and last bit, there is a run in which nothing is damaged.
pub fn runs_exist_law()
    ensures { RunsExist }
{}

/// The guarantee holds on both lines, and so many lost spread bits in a take are within its bound.
pub fn within_bound_law()
    ensures { WithinBound }
{}

/// Each refusal of received bits as a frame comes exactly when it is due: no unique word near, no codeword near, or a wrong CRC.
pub fn exact_halves_law()
    ensures { ExactHalves }
{}

/// Whatever blocks arrive, a card is closed only where the takes heard before end with one unbroken round of it.
pub fn closed_only_by_rounds_law()
    ensures { ClosedOnlyByRounds }
{}
