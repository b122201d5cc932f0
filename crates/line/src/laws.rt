//! What holds of every line that keeps the rules, and of the scrambling sequence. Each function's contract is the law; it does
//! nothing else.

ghost use Rattle.line.specs.Laws.{DecodeLengths, ScramblingSequence, SomeLineBit, Undamaged};

/// Undamaged line bits give the word.
pub fn undamaged_law()
    ensures { Undamaged }
{}

/// A word of at least one bit has at least one line bit.
pub fn some_line_bit_law()
    ensures { SomeLineBit }
{}

/// Decode refuses lengths exactly if no word has so many line bits, or the words that have are not as long as the output.
pub fn decode_lengths_law()
    ensures { DecodeLengths }
{}

/// The scrambling sequence keeps its recurrence, and starts with 0x29DA.
pub fn scrambling_sequence_law()
    ensures { ScramblingSequence }
{}
