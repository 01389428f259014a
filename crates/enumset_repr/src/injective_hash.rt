//! Representations whose values a hasher can tell apart.

ghost use Rattle.std.specs.Prelude.{◌≡◌};

use crate::repr::EnumSetTypeRepr;

/// A representation whose values feed a hasher different data, unless they are equal.
///
/// [`EnumSetTypeRepr`] only requires that equal values feed the same data, as `Hash` of std does: a representation that
/// feeds nothing meets this.
pub trait InjectiveHash: EnumSetTypeRepr {
    // Values that feed the same data are equal.
    ghost injective: { (a b : Self) → Self.is_value a → Self.is_value b
        → Self.hash_input a ≡ Self.hash_input b → a ≡ b };
}
