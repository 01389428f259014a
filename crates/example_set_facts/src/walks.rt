//! Loops over sets. Each has an invariant in `proofs/walks`: what there is so far, and what remains, make the whole.

ghost use Rattle.std.specs.Prelude.{◌≡◌};
ghost use Rattle.enumset.specs.Sets as set;

use enumset::{EnumSet, EnumSetType};

/// A set with each element of another one added.
pub fn with_each<T: EnumSetType>(one: &EnumSet<T>, other: &EnumSet<T>) -> EnumSet<T>
    ensures { result ≡ set.union one.now other.now }
{
    let mut all = one.copied();
    for element in other.iter() {
        all.insert(element);
    }
    all
}

/// A set with each element of another one taken out.
pub fn without_each<T: EnumSetType>(one: &EnumSet<T>, other: &EnumSet<T>) -> EnumSet<T>
    ensures { result ≡ set.difference one.now other.now }
{
    let mut left = one.copied();
    for element in other.iter() {
        left.remove(element);
    }
    left
}

/// A set in two parts: the elements that another one has, and the rest.
pub fn sorted_out<T: EnumSetType>(
    whole: &EnumSet<T>,
    other: &EnumSet<T>,
) -> (EnumSet<T>, EnumSet<T>)
    ensures inside { result.0 ≡ set.intersection whole.now other.now }
    ensures outside { result.1 ≡ set.difference whole.now other.now }
{
    let mut inside = EnumSet::new();
    let mut outside = EnumSet::new();
    for element in whole.iter() {
        if other.contains(element) {
            inside.insert(element);
        } else {
            outside.insert(element);
        }
    }
    (inside, outside)
}

/// The union of many sets, made in a loop.
pub fn united<T: EnumSetType>(sets: &[EnumSet<T>]) -> EnumSet<T>
    ensures { result ≡ set.union_all sets.now }
{
    let mut all = EnumSet::new();
    for members in sets {
        all.insert_all(members.copied());
    }
    all
}

/// The elements of a set that another one has, taken out of it one after another.
pub fn taken_out<T: EnumSetType>(pending: EnumSet<T>, other: &EnumSet<T>) -> EnumSet<T>
    ensures { result ≡ set.intersection pending other.now }
{
    let mut rest = pending;
    let mut taken = EnumSet::new();
    while let Some(element) = rest.pop_last() {
        if other.contains(element) {
            taken.insert(element);
        }
    }
    taken
}
