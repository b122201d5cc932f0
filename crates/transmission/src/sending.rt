//! Sends a card over the standard's and the bench's line, tells how the first take of each begins and ends, and shows what is refused.

use card::Card;
use example_sending::next_block;
use frame::FRAME_BITS;
use line::Line;
use lines::{BENCH, STANDARD};
use reports::Refusal;
use sender::{Sender, SenderRefusal};
use std::io;

/// How many of a take's first blocks are told.
const TOLD: usize = 4;

/// How many octets of a block are told.
const BEGINNING: usize = 8;

/// Sends the card over the standard's line, then over the bench's, then into too short an output.
pub fn run(rt: &HostRuntime, card: Card) -> io::Result<()> {
    println!(rt;
        "Sending the card over the standard's line, from frame 0 on, after the last bit 0."
    )?;
    send(rt, card, STANDARD)?;
    println!(rt; "Sending the card over the bench's line, from frame 0 on, after the last bit 0.")?;
    send(rt, card, BENCH)?;
    println!(rt; "Sending a block into an output of 511 octets.")?;
    send_short(rt, card)
}

/// Sends the take of frame 0.
fn send<L: Line + Drop>(rt: &HostRuntime, card: Card, line: L) -> io::Result<()> {
    let Some(blocks) = line.line_length(FRAME_BITS) else {
        return println!(rt; "  no frame goes over the line");
    };
    println!(rt; "  a take has {blocks} blocks of 512 octets")?;
    match Sender::new(card, line, 0, 0) {
        Ok(mut sender) => send_take(rt, &mut sender, blocks),
        Err(refusal) => println!(rt; "  {}", refusal.report()),
    }
}

/// Sends so many blocks, and tells the first few and the last.
fn send_take<L: Line>(rt: &HostRuntime, sender: &mut Sender<L>, blocks: usize) -> io::Result<()> {
    for number in 1..=blocks {
        match next_block(sender) {
            Ok(block) if number <= TOLD || number == blocks => tell_block(rt, number, &block)?,
            Ok(_) => {}
            Err(refusal) => println!(rt; "  {}", refusal.report())?,
        }
    }
    Ok(())
}

/// Tells how a block begins.
fn tell_block(rt: &HostRuntime, number: usize, block: &[u8; 512]) -> io::Result<()> {
    print!(rt; "  block {number} begins ")?;
    for octet in &block[0..BEGINNING] {
        print!(rt; "{octet:02X}")?;
    }
    println!(rt)
}

/// Sends a block where an octet of room is wanting.
fn send_short(rt: &HostRuntime, card: Card) -> io::Result<()> {
    match write_short(card) {
        Ok(()) => println!(rt; "  written"),
        Err(refusal) => println!(rt; "  {}", refusal.report()),
    }
}

/// What a sender answers to an output of 511 octets.
fn write_short(card: Card) -> Result<(), SenderRefusal> {
    Sender::new(card, STANDARD, 0, 0)?.next_block(&mut [0; 511])
}
