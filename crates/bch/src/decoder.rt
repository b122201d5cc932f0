//! The decoder to the codeword within six places, after Peterson, Gorenstein and Zierler.
//!
//! The remainder of the received word is taken first, and where it is zero the word is a codeword. Else the number v of
//! errors is tried from 1 to 6: the key equations for v errors are solved, the bits at the roots of the locator flipped,
//! and what comes of it is accepted only if it is a codeword within six places. With v as it is, the roots are the errors,
//! so nothing is missed; and what is accepted is what was sought, so nothing is made up.

ghost use Rattle.std.specs.Prelude.{◌≡◌, ℕ, ◌+◌, ◌-◌, ◌<◌, ◌≤◌, true, false, [], ◌∷◌, length, take, if◌then◌else◌, MatchOption, ◌==◌, ◌≢◌, nat_eq, slice_index, slice_index_or};
ghost use Rattle.coding.specs.Bits.{are_bits, bits as bits_of};
ghost use Rattle.field.specs.Field.{value};
ghost use Rattle.field.specs.Locator.{flipped as flipped_at, is_root};
ghost use Rattle.bch.specs.Nearest.{nearest, Near, Finds};
ghost use Rattle.bch.specs.Codec.{found, decoded};
ghost use Rattle.bch.specs.Search.{leftover, Syndromes, Equation, Corrects, NoneAt};

use crate::encoder::parity;
use crate::word::{CodeRefusal, Corrected};
use coding::{are_bits, distance, read_long, write_long};
use field::{product, times_c};
use solver::solve;
use std::array;

/// How many errors are corrected; of a half, and not of a unique word, whose six is a rule of its own.
const RADIUS: usize = 6;

/// The codeword within six places of 111 received bits, and in how many places they differ from it.
pub fn decode(received: &[u8; 111]) -> Result<Corrected, CodeRefusal>
    ensures is { result ≡ decoded received.now }
    ensures finds { are_bits received.now ≡ true → Finds received.now }
{
    let Some(word) = Word::new(received) else {
        return Err(CodeRefusal::NotBits);
    };
    let rest = word.remainder();
    if rest == 0 {
        return Ok(Corrected {
            codeword: word.bits,
            places: 0,
        });
    }
    let syndromes = syndromes(rest);
    Damaged { word, syndromes }.search()
}

/// A word of 111 bits.
#[derive(Clone, Copy)]
struct Word {
    bits: [u8; 111],
    ghost are_bits: { are_bits bits ≡ true },
}

impl Word {
    /// The word, if its octets are bits.
    fn new(bits: &[u8; 111]) -> Option<Word>
        ensures { MatchOption result (are_bits bits.now ≡ false) (λ w. w.bits ≡ bits.now) }
    {
        if are_bits(bits) {
            Some(Word { bits: *bits })
        } else {
            None
        }
    }

    /// Whether the word is a codeword.
    fn is_codeword(&self) -> bool
        ensures { result ≡ (leftover self.now.bits == 0) }
    {
        self.remainder() == 0
    }

    /// The remainder by the generator: the parity that the data ask for and the parity that came, added.
    fn remainder(&self) -> u64
        ensures { result ≡ leftover self.now.bits }
    {
        parity(&self.bits[..69]) ^ read_long(&self.bits[69..])
    }

    /// The word with the bits flipped whose places are roots of the locator.
    fn flipped(&self, locator: &Locator) -> Word
        ensures { result.bits ≡ flipped_at (is_root (take locator.now.errors locator.now.coefficients)) self.now.bits }
    {
        let mut bits = [0; 111];
        let mut x = 1;
        // by index: of what a loop over `bits.iter_mut().rev()` writes a proof knows nothing (tried)
        for i in (0..111usize).rev() {
            bits[i] = flipped_if_root(self.bits[i], locator.value_at(x));
            x = times_c(x);
        }
        Word { bits }
    }
}

/// A word that is no codeword, with its syndromes, the values of its remainder at c to c^12.
#[derive(Drop)]
struct Damaged {
    word: Word,
    syndromes: [u8; 12],
    ghost damaged: { leftover word.bits ≢ 0 },
    ghost theirs: { Syndromes (leftover word.bits) syndromes },
}

impl Damaged {
    /// Tries 1 to 6 errors.
    fn search(&self) -> Result<Corrected, CodeRefusal>
        ensures { result ≡ found self.now.word.bits (nearest self.now.word.bits) }
    {
        for v in 1..=RADIUS {
            if let Some(corrected) = self.attempt(v) {
                return Ok(corrected);
            }
        }
        Err(CodeRefusal::NoCodeword)
    }

    /// The word with v errors corrected, if that makes it a codeword within six places.
    fn attempt(&self, v: usize) -> Option<Corrected>
        requires { v ≤ 6 }
        ensures { MatchOption result (NoneAt self.now.word.bits v) (Corrects self.now.word.bits) }
    {
        let coefficients = solve(&self.key_equations(v), v)?;
        let locator = Locator {
            coefficients,
            errors: v,
        };
        self.accepted(&self.word.flipped(&locator))
    }

    /// A word with its distance from this one, if it is a codeword within six places.
    fn accepted(&self, word: &Word) -> Option<Corrected>
        ensures { MatchOption result (Near self.now.word.bits word.now.bits → ⊥) (Corrects self.now.word.bits) }
    {
        if !word.is_codeword() {
            return None;
        }
        let places = distance(&self.word.bits, &word.bits);
        if places > RADIUS {
            return None;
        }
        Some(Corrected {
            codeword: word.bits,
            places: places as u8,
        })
    }

    /// The key equations for v errors.
    fn key_equations(&self, v: usize) -> [[u8; 7]; 6]
        requires { v ≤ 6 }
        ensures is { (i : ℕ) → i < v → Equation self.now.syndromes i v (slice_index_or result i []) }
        ensures rest { (i : ℕ) → v ≤ i → (k : ℕ) → slice_index (slice_index_or result i []) k ≡ 0 }
    {
        let mut rows = [[0; 7]; 6];
        for (i, row) in rows[..v].iter_mut().enumerate() {
            *row = key_equation(&self.syndromes[i..=i + v]);
        }
        rows
    }
}

/// The key equation of some syndromes in a row. The last is its constant, and the others are its coefficients, the last of
/// them first.
fn key_equation(syndromes: &[u8]) -> [u8; 7]
    requires { (0 < length syndromes.now) × (length syndromes.now ≤ 7) }
    ensures { Equation syndromes.now 0 (length syndromes.now - 1) result }
{
    let v = syndromes.len() - 1;
    array::from_fn(|j| {
        if j < v {
            syndromes[v - 1 - j]
        } else if j == v {
            syndromes[v]
        } else {
            0
        }
    })
}

/// The values of a remainder at c to c^12.
fn syndromes(rest: u64) -> [u8; 12]
    ensures { Syndromes rest result }
{
    let mut bits = [0; 42];
    write_long(rest, &mut bits);
    let mut syndromes = [0; 12];
    let mut x = 1;
    for syndrome in syndromes.iter_mut() {
        x = times_c(x);
        *syndrome = value_at(x, 0, &bits);
    }
    syndromes
}

/// The polynomial x^v + l_1·x^(v-1) + .. + l_v for v errors; what stands behind l_v does not matter. The six come from the solver as an array,
/// and stay one with v beside it: a list of v would be copied out of it.
#[derive(Drop)]
struct Locator {
    coefficients: [u8; 6],
    errors: usize,
    ghost few: { errors ≤ 6 },
    ghost small: { (k : ℕ) → slice_index coefficients k < 128 },
}

impl Locator {
    /// The value at x.
    fn value_at(&self, x: u8) -> u8
        requires { x < 128 }
        ensures { result ≡ value x (1 ∷ take self.now.errors self.now.coefficients) }
    {
        value_at(x, 1, &self.coefficients[..self.errors])
    }
}

/// The value at x of a polynomial, by Horner's rule.
fn value_at(x: u8, first: u8, others: &[u8]) -> u8
    requires x { x < 128 }
    requires first { first < 2 }
    requires others { (k : ℕ) → slice_index others.now k < 128 }
    ensures { result ≡ value x (first ∷ others.now) }
{
    others.iter().fold(first, |sum, a| product(x, sum) ^ *a)
}

/// A bit, flipped where the value of the locator at its place is zero.
fn flipped_if_root(bit: u8, at: u8) -> u8
    requires { bit < 2 }
    ensures is { result ≡ (if nat_eq at 0 then 1 - bit else bit) }
    ensures bit { result < 2 }
{
    if at == 0 { 1 - bit } else { bit }
}
