//! Laws of readers of another element type, such as an older program that reads what a newer one wrote.

ghost use Rattle.std.specs.Prelude.{◌≡◌, ◌≤◌, Ok, IsTrue};
ghost use Rattle.enumset_repr.specs.BitSet.{ascending, below, is_subset};
ghost use Rattle.enumset_repr.specs.Number.{number};
ghost use Rattle.enumset_repr.specs.Words.{words};
ghost use Rattle.enumset.specs.Json.{width_of, number_value, words_value, accepted};
ghost use Rattle.enumset.specs.Json.{set_of_number, set_of_words};
ghost use Rattle.enumset.specs.Json.{mixed_set_of_number, mixed_set_of_words};
ghost use Rattle.enumset.specs.Names.{names_of, names_agree};
ghost use Rattle.enumset.specs.JsonNames.{set_of_list, list_value, set_of_map, map_value};
ghost use Rattle.enumset.specs.JsonNames.{in_map, accepted_by_name};
ghost use Rattle.enumset_sets.specs.Elements.{valid_bits};

use crate::names::EnumSetNames;
use crate::set_json::{JsonWidth, Unknown};
use enumset_repr::EnumSetTypeRepr;
use enumset_sets::laws::{all_words_and_back, number_and_back};
use enumset_sets::{EnumSet, EnumSetType, EnumSetTypeWithRepr};

/// A set is written by one element type and read by another. Under `Drop` the reader returns the members that it knows.
/// Under `Refuse` it returns the whole set, or reports `UnknownBits` if there is a member that it does not know. This
/// holds for words, and for a number at a width that the members are below.
pub fn older_reader<Old: EnumSetType, New: EnumSetType>(
    set: &EnumSet<New>,
    width: JsonWidth,
    unknown: Unknown,
)
    ensures number { IsTrue (is_subset set.now (below (width_of width)))
        → set_of_number (valid_bits Old.elements) (width_of width) unknown
        (number_value (number set.now))
        ≡ accepted (valid_bits Old.elements) unknown set.now }
    ensures words { set_of_words (valid_bits Old.elements) unknown
        (words_value (words set.now New.Repr.PREFERRED_ARRAY_LEN))
        ≡ accepted (valid_bits Old.elements) unknown set.now }
{
    all_words_and_back(set);
}

/// What [`older_reader`] says also holds for names, in lists and in maps, where the names of the two types agree. Under
/// `Refuse` the fault has the place of the first member that the reader does not know: in a list by the order of the
/// bits, in a map by the order of the names.
pub fn older_reader_of_names<Old: EnumSetNames, New: EnumSetNames>(
    set: &EnumSet<New>,
    unknown: Unknown,
)
    requires { IsTrue (names_agree (names_of Old.elements Old.names)
        (names_of New.elements New.names)) }
    ensures list { set_of_list (names_of Old.elements Old.names) unknown
        (list_value (names_of New.elements New.names) set.now)
        ≡ accepted_by_name (valid_bits Old.elements) unknown set.now (ascending set.now) }
    ensures map { set_of_map (names_of Old.elements Old.names) unknown
        (map_value (names_of New.elements New.names) set.now)
        ≡ accepted_by_name (valid_bits Old.elements) unknown set.now
        (in_map (names_of New.elements New.names) set.now) }
{
    number_and_back(set);
}

/// A mixed set of one element type keeps all bits that a writer of another type wrote as words, if they are below the
/// width of the mixed set's representation. If the mixed set is then written as words, the other type reads these as
/// the set that was first written.
pub fn carried_along<Old: EnumSetTypeWithRepr, New: EnumSetType>(
    set: &EnumSet<New>,
    past: Unknown,
    unknown: Unknown,
)
    ensures carried { IsTrue (is_subset set.now (below Old.Repr.WIDTH))
        → mixed_set_of_words Old.Repr.WIDTH past
        (words_value (words set.now New.Repr.PREFERRED_ARRAY_LEN))
        ≡ Ok set.now }
    ensures as_it_was { IsTrue (is_subset set.now (below Old.Repr.WIDTH))
        → set_of_words (valid_bits New.elements) unknown
        (words_value (words set.now Old.Repr.PREFERRED_ARRAY_LEN))
        ≡ Ok set.now }
{
    all_words_and_back(set);
}

/// What [`carried_along`] says also holds for a number, where the representation of the mixed set has at most 64 bits,
/// and the other type reads and writes at a width that the members are below.
pub fn carried_along_in_number<Old: EnumSetTypeWithRepr, New: EnumSetType>(
    set: &EnumSet<New>,
    width: JsonWidth,
    unknown: Unknown,
)
    requires narrow { Old.Repr.WIDTH ≤ 64 }
    ensures carried { IsTrue (is_subset set.now (below Old.Repr.WIDTH))
        → mixed_set_of_number Old.Repr.WIDTH (number_value (number set.now)) ≡ Ok set.now }
    ensures as_it_was { IsTrue (is_subset set.now (below (width_of width)))
        → set_of_number (valid_bits New.elements) (width_of width) unknown
        (number_value (number set.now))
        ≡ Ok set.now }
{
    number_and_back(set);
}
