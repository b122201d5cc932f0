//! Air that flips chips, and counts them.

use carrier::Air;

/// The octets of a block whose chips are all flipped in any case, and what is flipped of the next: 2,047 chips together.
const OCTETS_FLIPPED: usize = 255;

const SEVEN_CHIPS: u8 = 0xFE;

const EIGHT_CHIPS: u8 = 0xFF;

/// Flips 2,047 chips of each block, and every chip of the blocks at some places of each take.
#[derive(Drop)]
pub struct Damage<'a> {
    /// How many blocks a take has.
    pub size: usize,
    /// The places in a take, from 0, of the blocks that are flipped whole.
    pub whole: &'a [usize],
    /// The place of the next block in its take.
    pub place: usize,
    /// How many chips are flipped so far.
    pub flipped: u64,
}

impl Air for Damage<'_> {
    fn carry(&mut self, block: &mut [u8]) {
        let flipped = if self.whole.contains(&self.place) {
            flip(block, |_| EIGHT_CHIPS)
        } else {
            flip(block, first_chips)
        };
        self.flipped = self.flipped.saturating_add(flipped);
        self.place = next_place(self.place, self.size);
    }
}

/// The place after this one, in takes of so many blocks.
fn next_place(place: usize, size: usize) -> usize {
    let next = place.saturating_add(1);
    if next < size { next } else { 0 }
}

/// Flips chips of the octet at each place of a block, and tells how many were flipped.
fn flip<F: Fn(usize) -> u8>(block: &mut [u8], chips_at: F) -> u64
    requires { F.IsAlwaysCallable chips_at }
{
    let mut flipped = 0u64;
    for (place, octet) in block.iter_mut().enumerate() {
        let chips = chips_at(place);
        *octet ^= chips;
        flipped = flipped.saturating_add(u64::from(chips.count_ones()));
    }
    flipped
}

/// The first 2,047 chips of a block, by the octet at a place.
fn first_chips(place: usize) -> u8 {
    if place < OCTETS_FLIPPED {
        return EIGHT_CHIPS;
    }
    if place == OCTETS_FLIPPED {
        return SEVEN_CHIPS;
    }
    0
}
