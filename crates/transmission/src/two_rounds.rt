//! Sends two rounds of a card through air that flips chips, and tells what a reader makes of them: within the bound of the guarantee
//! on both lines, then beyond it.

use crate::damage::Damage;
use crate::drawing::print;
use card::Card;
use carrier::{Reception, send_two_rounds};
use frame::FRAME_BITS;
use line::Line;
use lines::MarkedLine;
use reports::Refusal;
use sender::SenderRefusal;
use std::io;

/// The first frame's number, in the middle of a round of seven.
const FROM: u32 = 3;

/// The last bit on the line before.
const LAST: u8 = 1;

/// Six blocks; on the standard's line they touch six bits of a half, in two of their four copies.
const SIX: [usize; 6] = [31, 33, 35, 275, 277, 279];

/// One more.
const SEVEN: [usize; 7] = [31, 33, 35, 37, 275, 277, 279];

/// Twelve blocks; on the standard's line they turn eight bits of a half, in three of their four copies.
const TWELVE: [usize; 12] = [31, 33, 35, 37, 275, 277, 279, 281, 519, 521, 523, 525];

/// Sends the card within the bound, then beyond it.
pub fn run(rt: &HostRuntime, card: &Card) -> io::Result<()> {
    println!(rt;
        "Sending two rounds of the card from frame {FROM} on, after the last bit {LAST}, over the standard's line to a reader."
    )?;
    send(rt, card, MarkedLine::Standard, &SIX)?;
    println!(rt; "The same over the bench's line.")?;
    send(rt, card, MarkedLine::Bench, &SIX)?;
    println!(rt;
        "The same over the standard's line, with a block more: beyond the bound, where nothing is promised."
    )?;
    send(rt, card, MarkedLine::Standard, &SEVEN)?;
    println!(rt; "The same with five more, further beyond it.")?;
    send(rt, card, MarkedLine::Standard, &TWELVE)
}

/// Sends two rounds, with these blocks of each take flipped whole, and tells what came of them.
fn send(rt: &HostRuntime, card: &Card, line: MarkedLine, whole: &[usize]) -> io::Result<()> {
    let Some(size) = line.line_length(FRAME_BITS) else {
        return println!(rt; "  no frame goes over the line");
    };
    let mut air = Damage {
        size,
        whole,
        place: 0,
        flipped: 0,
    };
    let answer = send_two_rounds(card, line, FROM, LAST, &mut air);
    tell_damage(rt, size, whole.len(), air.flipped)?;
    tell(rt, answer)
}

/// Tells what the air did.
fn tell_damage(rt: &HostRuntime, size: usize, whole: usize, flipped: u64) -> io::Result<()> {
    println!(rt;
        "  of the {size} blocks of each take {whole} arrive with every chip flipped, the others with 2047 of 4096"
    )?;
    println!(rt; "  chips flipped in all: {flipped}")
}

/// Tells what came of two rounds.
fn tell(rt: &HostRuntime, answer: Result<Reception, SenderRefusal>) -> io::Result<()> {
    match answer {
        Ok(reception) => tell_reception(rt, &reception),
        Err(refusal) => println!(rt; "  {}", refusal.report()),
    }
}

/// Tells what the reader refused and closed.
fn tell_reception(rt: &HostRuntime, reception: &Reception) -> io::Result<()> {
    let refused = reception.refused;
    let closed = reception.closed;
    println!(rt; "  takes refused: {refused}, cards closed: {closed}")?;
    match reception.card {
        Some(card) => {
            println!(rt; "The card that was read:")?;
            print(rt, &card)
        }
        None => println!(rt; "  no card was read"),
    }
}
