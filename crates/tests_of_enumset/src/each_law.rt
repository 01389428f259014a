//! Each law that no other program of this repository calls, at a concrete type.

use enumset::internal::ArrayRepr;
use enumset::set::MixedEnumSet;
use enumset::set_json::{JsonWidth, Unknown};
use enumset::{EnumSet, laws};
use enumset_worked::{Marks, PairWords, Wide};
use types_for_tests::{NamedLetters, Numbered};

#[test]
fn of_sets_and_elements(_rt: HostRuntime) {
    let letters = EnumSet::<NamedLetters>::all();
    laws::complements();
    laws::both_ends();
    laws::model();
    laws::order();
    laws::represented::<ArrayRepr<2>>();
    laws::bits_have_values::<NamedLetters>();
    laws::hash_is_injective::<NamedLetters>();
    laws::hash_is_injective::<Wide>();
    laws::mixed_hash_is_injective::<NamedLetters>();
    laws::mixed_hash_is_injective::<PairWords>();
    laws::fold_of_sets();
    laws::fold_of_elements::<NamedLetters>();
    laws::valid_bits_listed::<NamedLetters>();
    laws::valid_before_invalid::<Marks>();
    laws::cut_number_and_back(&letters, 2);
    laws::words_and_back(&letters, 1);
    laws::cut_words_and_back(&letters, 1);
    laws::all_words_and_back(&letters);
}

#[test]
fn of_json(_rt: HostRuntime) {
    let letters = EnumSet::<NamedLetters>::all();
    laws::name_and_back(NamedLetters::A, "A");
    laws::json_map_and_back(&letters, Unknown::Refuse);
    laws::json_mixed_words_and_back(
        &MixedEnumSet::<NamedLetters>::from_repr(0x81),
        Unknown::Refuse,
    );
    laws::older_reader::<Numbered, NamedLetters>(&letters, JsonWidth::U64, Unknown::Drop);
    laws::carried_along::<Numbered, NamedLetters>(&letters, Unknown::Drop, Unknown::Refuse);
    laws::carried_along_in_number::<Numbered, NamedLetters>(
        &letters,
        JsonWidth::U64,
        Unknown::Drop,
    );
}
