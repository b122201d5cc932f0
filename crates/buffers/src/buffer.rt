//! A list of octets with a limit to its length.

ghost use Rattle.std.specs.Prelude.{◌≡◌, ◌-◌, ◌≤◌, length, drop, replicate};

/// At most `N` octets.
#[derive(Clone, Copy, PartialEq, Eq, Debug)]
pub struct Buffer<const N: usize> {
    /// The octets, and zeros behind them.
    pub(crate) room: [u8; N],
    pub(crate) len: usize,
    ghost within: { len ≤ N },
    ghost full: { length room ≡ N },
    ghost blank: { drop len room ≡ replicate (N - len) 0 },
}
