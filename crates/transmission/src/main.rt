//! Runs one task from beginning to end, and says at each step what it does: a card is sent over both lines, and the blocks of a
//! take are told; two rounds of it are sent through air that flips chips, and a reader reads the card.

#![tactic(auto)]

mod damage;
mod drawing;
mod sending;
mod two_rounds;

use card::Card;
use reports::Refusal;
use std::io;

fn main(rt: HostRuntime) -> io::Result<()> {
    match drawing::drawn_up() {
        Ok(card) => run(&rt, card),
        Err(refusal) => println!(&rt; "{}", refusal.report()),
    }
}

/// Sends the card over both lines, then two rounds of it to a reader.
fn run(rt: &HostRuntime, card: Card) -> io::Result<()> {
    sending::run(rt, card)?;
    two_rounds::run(rt, &card)
}
