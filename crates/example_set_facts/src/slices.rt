//! Slices of elements.

ghost use Rattle.std.specs.Prelude.{◌≡◌, map, not, position, count_by};
ghost use Rattle.std.specs.List.{find, list_any, list_all};
ghost use Rattle.enumset.specs.Sets as set;

use enumset::{EnumSet, EnumSetType};

/// The set of the elements of a slice, inserted one by one.
pub fn folded<T: EnumSetType>(elements: &[T]) -> EnumSet<T>
    ensures { result ≡ set.from_list (map T.elements.bit elements.now) }
{
    elements.iter().fold(EnumSet::new(), |all, t| all | *t)
}

/// The set of the elements of a slice, collected in a loop.
// `folds`: the invariant is about a list with one more element at its end.
#[tactic(auto, using(enumset_sets::specs::Laws::Folds::folds))]
pub fn collected<T: EnumSetType>(elements: &[T]) -> EnumSet<T>
    ensures { result ≡ set.from_list (map T.elements.bit elements.now) }
{
    let mut all = EnumSet::new();
    for element in elements {
        all.insert(*element);
    }
    all
}

/// The place of the first element of a slice that a set has.
pub fn first_place<T: EnumSetType>(elements: &[T], members: &EnumSet<T>) -> Option<usize>
    ensures { result ≡ position (λ t. set.contains members.now (T.elements.bit t)) elements.now }
{
    elements.iter().position(|t| members.contains(*t))
}

/// The first element of a slice that a set lacks.
pub fn first_absent<T: EnumSetType>(elements: &[T], members: &EnumSet<T>) -> Option<T>
    ensures { result ≡ find (λ t. not (set.contains members.now (T.elements.bit t))) elements.now }
{
    elements.iter().copied().find(|t| !members.contains(*t))
}

/// How many elements of a slice a set has, each counted as often as it comes.
pub fn count_in<T: EnumSetType>(elements: &[T], members: &EnumSet<T>) -> usize
    ensures { result ≡ count_by (λ t. set.contains members.now (T.elements.bit t)) elements.now }
{
    elements.iter().filter(|t| members.contains(**t)).count()
}

/// Whether a set has all elements of a slice.
pub fn has_each<T: EnumSetType>(elements: &[T], members: &EnumSet<T>) -> bool
    ensures { result ≡ list_all (λ t. set.contains members.now (T.elements.bit t)) elements.now }
{
    elements.iter().all(|t| members.contains(*t))
}

/// Whether a set has some element of a slice.
pub fn has_some<T: EnumSetType>(elements: &[T], members: &EnumSet<T>) -> bool
    ensures { result ≡ list_any (λ t. set.contains members.now (T.elements.bit t)) elements.now }
{
    elements.iter().any(|t| members.contains(*t))
}

/// How many elements of a slice a set has, counted in a loop.
pub fn counted_in<T: EnumSetType>(elements: &[T], members: &EnumSet<T>) -> usize
    ensures { result ≡ count_by (λ t. set.contains members.now (T.elements.bit t)) elements.now }
{
    let mut count = 0;
    for element in elements {
        if members.contains(*element) {
            count += 1;
        }
    }
    count
}
