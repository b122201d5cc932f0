//! Times the decoder: nanoseconds a half, for halves without errors, with 1, 3 and 6 errors, and of noise. Without an
//! argument it does the work once and prints nothing.

#![tactic(auto)]

use bch::{decode, encode};
use std::time::Instant;
use std::{array, env, io};

/// A codeword with so many errors, at places that go round with the turn.
fn damaged(sent: &[u8; 111], errors: usize, turn: usize) -> [u8; 111] {
    let mut word = *sent;
    for place in (0..errors).map(|k| (turn % 111 + k % 111 * 17) % 111) {
        word[place] ^= 1;
    }
    word
}

/// A word of pseudorandom bits.
fn noise(turn: usize) -> [u8; 111] {
    let mut state = (turn as u64).wrapping_add(0x9E37_79B9_7F4A_7C15);
    array::from_fn(|_| {
        state = state
            .wrapping_mul(6364136223846793005)
            .wrapping_add(1442695040888963407);
        (state >> 63) as u8
    })
}

/// How many places were corrected in so many halves with so many errors.
fn corrected_places(sent: &[u8; 111], errors: usize, halves: usize) -> u64 {
    (0..halves)
        .filter_map(|turn| decode(&damaged(sent, errors, turn)).ok())
        .fold(0u64, |places, corrected| {
            places.wrapping_add(u64::from(corrected.places))
        })
}

/// How many of so many noisy words lie within six places of a codeword.
fn found_in_noise(words: usize) -> usize {
    (0..words)
        .filter(|turn| decode(&noise(*turn)).is_ok())
        .count()
}

/// Prints how long a row of the table took.
fn report(
    rt: &HostRuntime,
    name: &str,
    start: &Instant,
    halves: u32,
    total: u64,
) -> io::Result<()> {
    let spent = start.elapsed(rt)?.as_secs_f64() * 1e9 / f64::from(halves);
    println!(rt; "{name}: {spent:.0} ns a half ({total})")
}

fn main(rt: HostRuntime) -> io::Result<()> {
    let Ok(sent) = encode(&[1; 69]) else {
        return Ok(());
    };
    if env::args(&rt)?.count() < 2 {
        let _ = corrected_places(&sent, 6, 1);
        return Ok(());
    }
    for errors in [0usize, 1, 3, 6] {
        let start = Instant::now(&rt)?;
        let total = corrected_places(&sent, errors, 20000);
        let name = format!(in rt.alloc(); "{errors} errors")?;
        report(&rt, name.as_str(), &start, 20000, total)?;
    }
    let start = Instant::now(&rt)?;
    let total = found_in_noise(20000) as u64;
    report(&rt, "noise", &start, 20000, total)
}
