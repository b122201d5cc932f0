//! Draws up a card, changes it, shows what is refused, and prints it.

use card::{Card, CardRefusal};
use example_cards::{NINE, printed};
use reports::Refusal;
use std::io;
use std::io::Write;

/// Opens a card and draws it up; none if opening it was refused.
pub fn run(rt: &HostRuntime) -> io::Result<Option<Card>> {
    println!(rt; "Opening a card by 76:00:06:B0:FF:FF:01:AC:07, whose check octet is wrong.")?;
    let mut octets = NINE;
    octets[0] = 0x76;
    open(rt, &octets)?;
    println!(rt; "Opening a card by 75:00:06:B0:FF:FF:01:AC:07.")?;
    let Some(mut card) = open(rt, &NINE)? else {
        return Ok(None);
    };
    draw_up(rt, &mut card)?;
    Ok(Some(card))
}

/// The card that these octets open; where they are refused, tells why.
fn open(rt: &HostRuntime, octets: &[u8]) -> io::Result<Option<Card>> {
    match Card::open(octets) {
        Ok(card) => Ok(Some(card)),
        Err(refusal) => {
            println!(rt; "  {}", refusal.report())?;
            Ok(None)
        }
    }
}

/// Fills a card, changes it and prints it.
fn draw_up(rt: &HostRuntime, card: &mut Card) -> io::Result<()> {
    println!(rt; "Entering the latitude 1245.90 S.")?;
    tell(rt, card.enter_latitude(12, 4590, 1))?;
    println!(rt; "Entering the longitude 2334.45 E.")?;
    tell(rt, card.enter_longitude(23, 3445, 0))?;
    println!(rt; "Entering the telephone 14803332200e1835.")?;
    tell(rt, card.enter_telephone(b"14803332200e1835"))?;
    print_card(rt, card)?;
    refuse(rt, card)?;
    change(rt, card)?;
    print_card(rt, card)
}

/// Enters what no card can hold.
fn refuse(rt: &HostRuntime, card: &mut Card) -> io::Result<()> {
    println!(rt; "Entering the latitude 9100.00 N, past the pole.")?;
    tell(rt, card.enter_latitude(91, 0, 0))?;
    println!(rt; "Entering the telephone 1480-3332200, whose fifth symbol is none.")?;
    tell(rt, card.enter_telephone(b"1480-3332200"))?;
    println!(rt; "Clearing field 5, which no card has.")?;
    tell(rt, card.clear(5))
}

/// Clears fields and enters one anew.
fn change(rt: &HostRuntime, card: &mut Card) -> io::Result<()> {
    println!(rt; "Clearing the latitude.")?;
    tell(rt, card.clear(1))?;
    println!(rt; "Clearing the message, which is missing already.")?;
    tell(rt, card.clear(4))?;
    print_card(rt, card)?;
    println!(rt; "Entering the latitude 8959.99 N.")?;
    tell(rt, card.enter_latitude(89, 5999, 0))?;
    println!(rt; "Entering the message HELLO.")?;
    tell(rt, card.enter_message(b"HELLO"))
}

/// Tells whether an act was accepted.
fn tell(rt: &HostRuntime, answer: Result<(), CardRefusal>) -> io::Result<()> {
    match answer {
        Ok(()) => println!(rt; "  accepted"),
        Err(refusal) => println!(rt; "  {}", refusal.report()),
    }
}

/// Prints the card's five lines.
fn print_card(rt: &HostRuntime, card: &Card) -> io::Result<()> {
    println!(rt; "The card is now:")?;
    rt.stdout().write_all(printed(card).as_slice())
}
