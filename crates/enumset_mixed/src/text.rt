//! The texts of mixed sets, and of the items of their iterators.

ghost use Rattle.std.specs.Prelude.{map};
ghost use Rattle.enumset_repr.specs.BitSet.{ascending};
ghost use Rattle.enumset_sets.specs.Texts.{text_at, joined_text};
ghost use Rattle.enumset_mixed.specs.Mixed.{with_validity};
ghost use Rattle.enumset_mixed.specs.Texts.{item_text, text_with_validity};
ghost use Rattle.enumset_sets.specs.Elements.{valid_bits};

use crate::mixed_enum_set::MixedEnumSet;
use crate::mixed_value::MixedValue;
use enumset_sets::text::write_separator;
use enumset_sets::{EnumSetType, EnumSetTypeWithRepr};
use std::fmt;

/// The text of the element, or the number of the bit in brackets, such as `[3]`.
impl<T: EnumSetType + fmt::Display> fmt::Display for MixedValue<T> {
    ghost output = { item_text T.Display.output };

    fn fmt<W: fmt::Write>(&self, f: &mut fmt::Formatter<W>) -> fmt::Result {
        match self {
            MixedValue::Valid(value) => value.fmt(f),
            MixedValue::Invalid(bit) => write!(f, "[{}]", bit),
        }
    }
}

/// The texts of the members, ascending by bit and joined by ` | `. The text of an unknown bit is its number in
/// brackets, such as `[3]`. The empty set has the empty text. A contract knows the text if the element type lists the
/// set's elements among its `values`, and their texts are known.
impl<T: EnumSetTypeWithRepr + fmt::Display> fmt::Display for MixedEnumSet<T> {
    ghost output = { λ s. joined_text
        (map (text_with_validity (text_at T.elements.bit T.values T.Display.output))
        (with_validity (valid_bits T.elements) (ascending s))) };

    fn fmt<W: fmt::Write>(&self, f: &mut fmt::Formatter<W>) -> fmt::Result {
        let mut is_first = true;
        for member in self.iter() {
            write_separator(is_first, f)?;
            is_first = false;
            fmt::Display::fmt(&member, f)?;
        }
        Ok(())
    }
}
