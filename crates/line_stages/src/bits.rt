//! Bits and their sum.

ghost use Rattle.std.specs.Prelude.{◌≡◌, ◌<◌};
ghost use Rattle.coding.specs.Bits.{plus};

/// The sum of two bits.
pub(crate) fn sum(a: u8, b: u8) -> u8
    requires { (a < 2) × (b < 2) }
    ensures { result ≡ plus a b }
{
    a ^ b
}
