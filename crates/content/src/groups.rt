//! Numbers as groups of bits of one width.

ghost use Rattle.std.specs.Prelude.{◌≡◌, ℕ, ◌*◌, ◌≤◌, true, length};
ghost use Rattle.coding.specs.Bits.{are_bits, group_bits, groups as groups_of};

use coding::{read_bits, write_bits};

/// The most bits that are cut anew.
const MOST_BITS: usize = 168;

/// Cuts the bits of groups of one width into groups of another.
pub(crate) fn regroup(from: &[u32], width: usize, to: &mut [u32], other: usize)
    requires { (length from.now * width ≡ length to.old * other) × ((length from.now * width ≤ 168) × (other ≤ 32)) }
    ensures { to.new ≡ groups_of other (length to.old) (group_bits width from.now) }
{
    let mut room = [0; MOST_BITS];
    let bits = &mut room[..from.len() * width];
    write_groups(from, width, bits);
    read_groups(bits, other, to);
}

/// Writes the low `width` bits of each number, one group after the other.
fn write_groups(groups: &[u32], width: usize, out: &mut [u8])
    requires { length out.old ≡ length groups.now * width }
    ensures { out.new ≡ group_bits width groups.now }
{
    // by place, as reading below: chunks have to be of some width, and of what `chunks_mut` lends a proof knows nothing
    for (i, group) in groups.iter().enumerate() {
        let start = i * width;
        write_bits(*group, &mut out[start..start + width]);
    }
}

/// Reads as many groups of `width` bits as `out` has room for.
fn read_groups(bits: &[u8], width: usize, out: &mut [u32])
    requires { (length bits.now ≡ length out.old * width) × ((width ≤ 32) × (are_bits bits.now ≡ true)) }
    ensures { out.new ≡ groups_of width (length out.old) bits.now }
{
    for (i, group) in out.iter_mut().enumerate() {
        let start = i * width;
        *group = read_bits(&bits[start..start + width]);
    }
}
