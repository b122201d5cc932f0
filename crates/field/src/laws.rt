//! The laws that the code stands on. A call computes nothing; its contract is the law.

ghost use Rattle.field.specs.Code.{CodeLaws};
ghost use Rattle.field.specs.Field.{FieldLaws};
ghost use Rattle.field.specs.Locator.{LocatorLaws};

/// GF(128) is a field, and c generates it.
pub fn field_laws() -> u8
    ensures { FieldLaws }
{
    0
}

/// The parity is the one remainder by the generator, c to c^12 are roots of each codeword, and two codewords that differ in
/// at most 12 places are equal.
pub fn code_laws() -> u8
    ensures { CodeLaws }
{
    0
}

/// Where a codeword lies within six places, the key equations for so many errors can be solved, and each solution has the
/// errors as its roots.
pub fn locator_laws() -> u8
    ensures { LocatorLaws }
{
    0
}
