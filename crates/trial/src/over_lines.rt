//! Sends a word over the standard's and the bench's line, damages the line bits, and tells how many errors are left.

ghost use Rattle.std.specs.Prelude.{◌≡◌, ◌≤◌, true, length, IfOk};
ghost use Rattle.coding.specs.Bits.{are_bits};
ghost use Rattle.coding.specs.Distance.{distance as apart};

use coding::distance;
use line::{Line, LineRefusal};
use lines::{BENCH, STANDARD};
use reports::Refusal;
use std::io;

/// Flips the bits at some places.
fn flip(bits: &mut [u8], places: &[usize])
    requires { are_bits bits.old ≡ true }
    ensures bits { are_bits bits.new ≡ true }
    ensures few { apart bits.new bits.old ≤ length places.now }
{
    for place in places {
        // not `get_mut`, after which a proof knows nothing of the bits
        if *place < bits.len() {
            bits[*place] ^= 1;
        }
    }
}

/// Encodes `word` into `bits`, flips those at `places`, decodes them, and counts the errors that are left: at most as many as the
/// line's growth allows.
fn errors_left<L: Line>(
    line: &L,
    word: &[u8; 244],
    bits: &mut [u8],
    places: &[usize],
) -> Result<usize, LineRefusal>
    ensures { IfOk result (λ n. n ≤ (L.Line.model line.now).growth (length places.now)) }
{
    let mut back = [0u8; 244];
    line.encode(word, 1, bits)?;
    flip(bits, places);
    line.decode(bits, &mut back)?;
    Ok(distance(&back, word))
}

/// Sends a word of ones, flips line bits, and tells how many errors are left.
fn tell_damage<L: Line>(
    rt: &HostRuntime,
    line: &L,
    bits: &mut [u8],
    how: &str,
    places: &[usize],
) -> io::Result<()> {
    let flipped = places.len();
    print!(rt; "  send 244 ones, flip {flipped} line bits{how}: ")?;
    match errors_left(line, &[1; 244], bits, places) {
        Ok(left) => println!(rt; "{left} errors left"),
        Err(refusal) => println!(rt; "{}", refusal.report()),
    }
}

/// Tells how many line bits a word of `n` bits has.
fn tell_length<L: Line>(rt: &HostRuntime, line: &L, n: usize) -> io::Result<()> {
    match line.line_length(n) {
        Some(length) => println!(rt; "  a word of {n} bits takes {length} line bits"),
        None => println!(rt; "  a word of {n} bits is too long"),
    }
}

// Told line by line: what differs between the two, lengths, places and words, is all that there is.

/// The standard's line: lengths, then damage that it corrects, damage that it does not, and a refusal.
fn tell_standard(rt: &HostRuntime) -> io::Result<()> {
    let mut bits = [0u8; 977];
    println!(rt; "Sending over the standard's line: scrambling, repetition, differential coding.")?;
    tell_length(rt, &STANDARD, 244)?;
    tell_length(rt, &STANDARD, 1024)?;
    tell_damage(rt, &STANDARD, &mut bits, "", &[])?;
    tell_damage(
        rt,
        &STANDARD,
        &mut bits,
        " far from each other",
        &[10, 100, 200, 300, 400, 500],
    )?;
    tell_damage(
        rt,
        &STANDARD,
        &mut bits,
        " in two copies of the same bits",
        &[1, 3, 5, 245, 247, 249],
    )?;
    tell_damage(rt, &STANDARD, &mut bits[0..976], " with room for 976", &[])
}

/// The bench's line: lengths, then damage that it corrects and damage that it does not.
fn tell_bench(rt: &HostRuntime) -> io::Result<()> {
    let mut bits = [0u8; 976];
    println!(rt; "Sending over the bench's line: scrambling, repetition.")?;
    tell_length(rt, &BENCH, 244)?;
    tell_length(rt, &BENCH, 1025)?;
    tell_damage(rt, &BENCH, &mut bits, "", &[])?;
    tell_damage(
        rt,
        &BENCH,
        &mut bits,
        " of one copy",
        &[0, 1, 2, 3, 4, 5, 6, 7, 8, 9, 10, 11, 12],
    )?;
    tell_damage(
        rt,
        &BENCH,
        &mut bits,
        " in two copies of the same bits",
        &[0, 1, 2, 3, 4, 5, 6, 244, 245, 246, 247, 248, 249],
    )?;
    tell_damage(
        rt,
        &BENCH,
        &mut bits,
        " in two copies of the same bits",
        &[0, 1, 2, 3, 4, 5, 6, 244, 245, 246, 247, 248, 249, 250],
    )
}

/// Sends over the standard's line, then over the bench's.
pub fn run(rt: &HostRuntime) -> io::Result<()> {
    tell_standard(rt)?;
    tell_bench(rt)
}
