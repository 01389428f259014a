//! Folds into mixed sets.

use crate::expect::expect;
use enumset::EnumSet;
use enumset::folds::{mixed_extend_enumset_refs, mixed_sum_enumsets};
use enumset::set::MixedEnumSet;
use enumset_worked::Marks;

#[test]
fn of_marks(rt: HostRuntime) {
    let sets = [Marks::A, Marks::C, Marks::A].map(EnumSet::only);
    let sum: MixedEnumSet<Marks> = mixed_sum_enumsets(sets.iter().copied());
    expect(&rt, "the sum of {A}, {C}, {A}", sum.as_repr(), 5);
    let mut set = MixedEnumSet::from_repr(8);
    mixed_extend_enumset_refs(&mut set, [EnumSet::only(Marks::B)].iter());
    expect(&rt, "bit 3, extended by {B}", set.as_repr(), 10);
}
