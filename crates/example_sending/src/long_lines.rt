//! Lines with many line bits.

use line_stages::Repetition;
use lines::Cascade;

/// 3,904 line bits a frame, which a line may have.
pub const SIXTEEN_COPIES: Cascade<Repetition, Repetition> = Cascade {
    upper: Repetition,
    lower: Repetition,
};

/// 15,616 line bits a frame, which no line has.
pub const SIXTY_FOUR_COPIES: Cascade<Repetition, Cascade<Repetition, Repetition>> = Cascade {
    upper: Repetition,
    lower: SIXTEEN_COPIES,
};
