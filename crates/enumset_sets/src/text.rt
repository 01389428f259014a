//! The text of a set of elements.

ghost use Rattle.std.specs.Prelude.{Some, map, IsTrue, IsOk};
ghost use Rattle.std.specs.Fmt.{DisplaysOnOk};
ghost use Rattle.enumset_repr.specs.BitSet.{ascending};
ghost use Rattle.enumset_sets.specs.Texts.{text_at, separator, joined_text};

use crate::element::EnumSetType;
use crate::enum_set::EnumSet;
use std::fmt;

/// The texts of the elements, ascending by bit and joined by ` | `. The empty set has the empty text. A contract knows
/// the text if the element type lists the set's elements among its `values`, and their texts are known.
impl<T: EnumSetType + fmt::Display> fmt::Display for EnumSet<T> {
    ghost output = { λ s. joined_text
        (map (text_at T.elements.bit T.values T.Display.output) (ascending s)) };

    fn fmt<W: fmt::Write>(&self, f: &mut fmt::Formatter<W>) -> fmt::Result {
        let mut is_first = true;
        for element in self.iter() {
            write_separator(is_first, f)?;
            is_first = false;
            element.fmt(f)?;
        }
        Ok(())
    }
}

/// Writes ` | `, or nothing if the member that comes next is the first of a set. The function is public for
/// `enumset_mixed`.
pub fn write_separator<W: fmt::Write>(is_first: bool, f: &mut fmt::Formatter<W>) -> fmt::Result
    ensures text { DisplaysOnOk W.write_str_gives f.old result (Some (separator is_first)) f.new }
    ensures first { IsTrue is_first → IsOk result }
{
    if is_first {
        return Ok(());
    }
    f.write_str(" | ")
}
