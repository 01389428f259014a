//! Laws of sets. Each is a function that does nothing at run time, except [`bits_have_values`] and the laws of asks.
//! Code that needs a law calls it, and the proof of that code then knows what the function ensures.
//!
//! This module has the laws of names and of round trips through JSON: the value that was written for a set is read as
//! that set. The clause `reads` of each writer of strings says that its string is read as this value, so the laws hold
//! for strings too. The laws of members, numbers, words and hashes come from `enumset_sets`, the equations of sets and
//! the laws of their order and of representations from `enumset_repr`, and all others from the modules below: what a
//! reader of another element type reads, elements, complements, mixed sets, folds, iterators from both ends, and asks.
//! Most laws that are about sets only are in rulesets.

ghost use Rattle.std.specs.Prelude.{◌≡◌, Ok, Some, IsTrue};
ghost use Rattle.enumset_repr.specs.BitSet.{below, is_subset};
ghost use Rattle.enumset_repr.specs.Number.{number};
ghost use Rattle.enumset_repr.specs.Words.{words};
ghost use Rattle.enumset.specs.Json.{width_of, number_value, words_value};
ghost use Rattle.enumset.specs.Json.{set_of_number, set_of_words, mixed_set_of_number};
ghost use Rattle.enumset.specs.Json.{mixed_set_of_words};
ghost use Rattle.enumset.specs.Names.{names_of, name_of, bit_named};
ghost use Rattle.enumset.specs.JsonNames.{set_of_list, list_value, set_of_map, map_value};
ghost use Rattle.enumset_sets.specs.Elements.{valid_bits};

mod asks;
mod complementary;
mod elements;
mod ends;
mod folds;
mod mixed_sets;
mod readers;

use crate::names::EnumSetNames;
use crate::set_json::{JsonWidth, Unknown};
pub use asks::{walk_iter, walk_mixed_iter, walk_mixed_set, walk_set};
pub use complementary::complements;
pub use elements::{bit_and_back, bits_below, valid_bits_listed};
pub use ends::both_ends;
pub use enumset_array::End;
use enumset_mixed::MixedEnumSet;
use enumset_repr::EnumSetTypeRepr;
pub use enumset_repr::laws::{model, order, represented};
pub use enumset_sets::laws::{
    all_words_and_back, bits_have_values, cut_number_and_back, cut_words_and_back,
    hash_is_injective, members_are_valid, number_and_back, words_and_back,
};
use enumset_sets::{EnumSet, EnumSetType, EnumSetTypeWithRepr};
pub use folds::{fold_of_elements, fold_of_sets};
pub use mixed_sets::{mixed_hash_is_injective, unknown_kept, valid_before_invalid};
pub use readers::{carried_along, carried_along_in_number, older_reader, older_reader_of_names};

/// The number that `to_number` writes for a set is read as that set by `from_number` at the same width, under `Drop`
/// and under `Refuse`.
pub fn json_number_and_back<T: EnumSetType>(set: &EnumSet<T>, width: JsonWidth, unknown: Unknown)
    ensures { IsTrue (is_subset set.now (below (width_of width)))
        → set_of_number (valid_bits T.elements) (width_of width) unknown
        (number_value (number set.now))
        ≡ Ok set.now }
{
    number_and_back(set);
}

/// The words that `to_words` writes for a set are read as that set by `from_words`, under `Drop` and under `Refuse`.
pub fn json_words_and_back<T: EnumSetType>(set: &EnumSet<T>, unknown: Unknown)
    ensures { set_of_words (valid_bits T.elements) unknown
        (words_value (words set.now T.Repr.PREFERRED_ARRAY_LEN))
        ≡ Ok set.now }
{
    all_words_and_back(set);
}

/// The number that `mixed_to_number` writes for a mixed set is read as that set, unknown bits included, by
/// `mixed_from_number`.
pub fn json_mixed_number_and_back<T: EnumSetTypeWithRepr>(set: &MixedEnumSet<T>)
    ensures { mixed_set_of_number T.Repr.WIDTH (number_value (number set.now)) ≡ Ok set.now }
{
    // Tells the proof that each member is below the width.
    set.as_repr().learn_is_value();
}

/// The words that `mixed_to_words` writes for a mixed set are read as that set, unknown bits included, by
/// `mixed_from_words`, under `Drop` and under `Refuse`.
pub fn json_mixed_words_and_back<T: EnumSetTypeWithRepr>(set: &MixedEnumSet<T>, past: Unknown)
    ensures { mixed_set_of_words T.Repr.WIDTH past
        (words_value (words set.now T.Repr.PREFERRED_ARRAY_LEN))
        ≡ Ok set.now }
{
    // Tells the proof that each member is below the width.
    set.as_repr().learn_is_value();
}

/// From a value to its name and back: `of_name` returns the value for its name, and for no other text.
pub fn name_and_back<T: EnumSetNames>(element: T, text: &str)
    ensures back { bit_named (names_of T.elements T.names)
        (name_of (names_of T.elements T.names) (T.elements.bit element))
        ≡ Some (T.elements.bit element) }
    ensures only { bit_named (names_of T.elements T.names) text.now ≡ Some (T.elements.bit element)
        → text.now ≡ name_of (names_of T.elements T.names) (T.elements.bit element) }
{}

/// The list that `to_list` writes for a set is read as that set by `from_list`, under `Drop` and under `Refuse`.
pub fn json_list_and_back<T: EnumSetNames>(set: &EnumSet<T>, unknown: Unknown)
    ensures { set_of_list (names_of T.elements T.names) unknown
        (list_value (names_of T.elements T.names) set.now)
        ≡ Ok set.now }
{
    number_and_back(set);
}

/// The map that `to_map` writes for a set is read as that set by `from_map`, under `Drop` and under `Refuse`.
pub fn json_map_and_back<T: EnumSetNames>(set: &EnumSet<T>, unknown: Unknown)
    ensures { set_of_map (names_of T.elements T.names) unknown
        (map_value (names_of T.elements T.names) set.now)
        ≡ Ok set.now }
{
    number_and_back(set);
}
