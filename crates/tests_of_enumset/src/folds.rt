//! Two functions of `folds`, one over sets and one over elements. `scripts/gate/public-paths` calls the others.
use crate::expect::expect;
use enumset::folds::{extend_sets, mixed_from_refs};
use enumset::set::MixedEnumSet;
use enumset::{EnumSet, enum_set};
use enumset_worked::{Letters, Marks};

#[test]
fn sets_are_folded(rt: HostRuntime) {
    let mut set = enum_set!(Letters::G);
    let more = [EnumSet::only(Letters::C), EnumSet::only(Letters::A)];
    extend_sets(&mut set, more.iter().copied());
    expect(&rt, "extend_sets", set.as_u8_truncated(), 69);
    let mixed: MixedEnumSet<Marks> = mixed_from_refs([Marks::C, Marks::A].iter());
    expect(&rt, "mixed_from_refs", mixed.as_repr(), 5);
}
