//! Worked examples of every layer, together as one statement. The call computes nothing; its contract is the statement.

ghost use Rattle.sender.specs.Examples.{WorkedExamples};

/// Check octet, content words, sequences, scrambling, chips and error growth, at examples.
pub fn worked_examples()
    ensures { WorkedExamples }
{}
