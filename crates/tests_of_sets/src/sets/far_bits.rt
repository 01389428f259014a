//! The laws of an element type with the greatest bit that a set in an `ArrayRepr` can have.

ghost use Rattle.std.specs.Prelude.{◌≡◌, ◌*◌, ◌∷◌, []};
ghost use Rattle.enumset_array.specs.ArrayWords.{in_use, set_of, IsArrayRepr};
ghost use Rattle.enumset_sets.specs.Elements.{with_bits, IsElementType};
ghost use Rattle.enumset_sets.specs.Laws.Elements.{derived_eq};
ghost use Rattle.enumset_worked.specs.contracts.pair_words.PairWords.{the_type};
ghost use Rattle.tests_of_sets.specs.FarWords.{far_words};

/// The variants of the worked type `pair-words` satisfy the laws of an element type also on bits 0 and 4,294,967,231,
/// over 67,108,863 words. No `ArrayRepr` has more words in use, and the last of its bits is that bit. The words have
/// a name here and are nowhere computed.
fn greatest_bit()
    ensures width { 64 * in_use 67108863 ≡ 4294967232 }
    ensures words { IsArrayRepr 67108863 (far_words 67108861) }
    ensures lawful { IsElementType (with_bits the_type (0 ∷ 4294967231 ∷ [])) (derived_eq the_type)
        (set_of 67108863 (far_words 67108861)) 4294967232 2 }
{}

#[test]
fn the_greatest_bit_is_lawful() {
    greatest_bit();
}
