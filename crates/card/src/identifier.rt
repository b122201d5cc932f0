//! The identifier of a carrier.

ghost use Rattle.std.specs.Prelude.{◌≡◌, true, length};
ghost use Rattle.card.specs.Fields.{keeps_first_octet};

/// Eight octets that keep the rule on the first of them.
#[derive(Clone, Copy, PartialEq, Eq, Debug)]
pub struct Identifier {
    pub(crate) octets: [u8; 8],
    ghost eight: { length octets ≡ 8 },
    ghost lawful: { keeps_first_octet octets ≡ true },
}
