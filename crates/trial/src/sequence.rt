//! Prints the sequence that a card is sent as, and a frame of it.

use card::Card;
use coding::read_bits;
use content::Sequence;
use frame::Frame;
use std::io;

/// Prints each entry of the card's sequence, and how many frames a round of it takes.
pub fn run(rt: &HostRuntime, card: &Card) -> io::Result<()> {
    println!(rt; "Writing the card as its sequence of content words.")?;
    let sequence = Sequence::of(card);
    for content in sequence.entries() {
        let id = content.id;
        let word = content.word;
        println!(rt; "  ID {id}: {word:06X}")?;
    }
    let frames = sequence.frames();
    println!(rt; "  a round takes {frames} frames, each of two entries")?;
    print_frame(rt, card)
}

/// Prints the bits of the card's frame 1, four to a digit.
fn print_frame(rt: &HostRuntime, card: &Card) -> io::Result<()> {
    println!(rt; "Building frame 1: its 244 bits in hexadecimal, unique word, half 1, half 2.")?;
    print!(rt; "  ")?;
    let bits = Frame::of(card, 1).bits();
    for digit in bits.chunks(4) {
        let value = read_bits(digit);
        print!(rt; "{value:X}")?;
    }
    println!(rt)
}
