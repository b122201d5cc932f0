//! Runs one task from beginning to end, and says at each step what it does: a card is drawn up, changed and printed, and written
//! as the sequence of content words that it is sent as; a word is sent over two lines, with line bits flipped on the way, and the
//! errors left are counted.

#![tactic(auto)]

mod drawing;
mod over_lines;
mod sequence;

use std::io;

fn main(rt: HostRuntime) -> io::Result<()> {
    if let Some(card) = drawing::run(&rt)? {
        sequence::run(&rt, &card)?;
    }
    over_lines::run(&rt)
}
