//! Words of bits: one bit in an octet, 0 or 1.

ghost use Rattle.std.specs.Prelude.{◌≡◌};
ghost use Rattle.coding.specs.Bits.{are_bits};
ghost use Rattle.coding.specs.Distance.{distance as apart};

/// How many octets are looked at together: the processor compares many at once, where no one of them ends the search.
const BLOCK: usize = 128;

/// Whether each octet is 0 or 1.
pub fn are_bits(word: &[u8]) -> bool
    ensures { result ≡ are_bits word.now }
{
    let (blocks, rest) = word.as_chunks::<BLOCK>();
    blocks.iter().all(|block| is_block_of_bits(block)) && is_block_of_bits(rest)
}

/// Whether each octet is 0 or 1, all of them looked at.
fn is_block_of_bits(block: &[u8]) -> bool
    ensures { result ≡ are_bits block.now }
{
    block.iter().fold(true, |all, bit| all & (*bit < 2))
}

/// In how many places two words differ; a place that only one of them has is one.
pub fn distance(a: &[u8], b: &[u8]) -> usize
    ensures { result ≡ apart a.now b.now }
{
    // added up and not counted by a filter, which would jump or not at each place
    let differing = a
        .iter()
        .zip(b)
        .map(|(x, y)| usize::from(*x != *y))
        .sum::<usize>();
    differing + a.len().abs_diff(b.len())
}
