//! The law that the checksum and the channel code stand on. A call computes nothing; its contract is the law.

ghost use Rattle.coding.specs.Polynomial.{Division};

/// Long division by a polynomial of any degree leaves the one remainder.
pub fn division_law() -> u8
    ensures { Division }
{
    0
}
