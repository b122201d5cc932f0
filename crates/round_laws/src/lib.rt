//! What holds of rounds. Each function's contract is the law; it does nothing else.

#![tactic(auto)]

ghost use Rattle.round_laws.specs.Closings.{Closings};
ghost use Rattle.round_laws.specs.Exactly.{ExactAnswers};
ghost use Rattle.round_laws.specs.Room.{FramesHaveRoom};
ghost use Rattle.round_laws.specs.TwoRounds.{TwoRounds};

/// Two rounds of a lawful card, from any frame on: nothing is refused, and the one card that is closed is this.
pub fn two_rounds_law()
    ensures { TwoRounds }
{}

/// Whatever is received, a card is closed only where the takes before end with one unbroken round of it.
pub fn closings_law()
    ensures { Closings }
{}

/// Each refusal of a frame comes exactly when the rule that it stands for is broken, and each other answer exactly when it is due.
pub fn exact_answers_law()
    ensures { ExactAnswers }
{}

/// Every frame of a lawful card with an identifier of eight octets has room in its bits.
pub fn frames_have_room_law()
    ensures { FramesHaveRoom }
{}
