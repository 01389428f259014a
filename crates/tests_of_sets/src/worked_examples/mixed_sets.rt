//! Mixed sets, which keep bits that no variant has.

use crate::expect::expect;
use enumset_mixed::{MixedEnumSet, MixedValue};
use enumset_worked::{High, Marks};
use std::test::Fail;

#[test]
fn a_mark_and_an_unknown_bit(rt: HostRuntime) -> Result<(), Fail> {
    let set = MixedEnumSet::<Marks>::from_repr(9);
    expect(&rt, "len, valid_len", [set.len(), set.valid_len()], [2, 1]);
    let mut iter = set.iter();
    let items = [iter.next(), iter.next(), iter.next()];
    let wanted = [
        Some(MixedValue::Valid(Marks::A)),
        Some(MixedValue::Invalid(3)),
        None,
    ];
    expect(&rt, "items", items, wanted);
    let full = set.full_complement().as_repr();
    expect(&rt, "full_complement().as_repr()", full, 246);
    expect(&rt, "complement().as_repr()", set.complement().as_repr(), 6);
    let text = format!(in rt.alloc(); "{set}")?;
    expect(&rt, "text", text.as_str(), "A | [3]");
    Ok(())
}

#[test]
fn bits_past_the_width(rt: HostRuntime) {
    let mut set = MixedEnumSet::<Marks>::from_repr(1);
    let told = [set.has_bit(256), set.has_bit(8), set.remove_bit(256)];
    expect(&rt, "has_bit, has_bit, remove_bit", told, [false; 3]);
    expect(&rt, "the number", set.as_repr(), 1);
}

#[test]
fn operators(rt: HostRuntime) {
    let (one, nine, ten) = (
        MixedEnumSet::<Marks>::from_repr(1),
        MixedEnumSet::from_repr(9),
        MixedEnumSet::from_repr(10),
    );
    let numbers = [!nine, nine - one, nine ^ ten].map(|set| set.as_repr());
    expect(&rt, "!9, 9 - 1, 9 ^ 10", numbers, [6, 8, 3]);
}

// The item that comes first is the greater one.
#[test]
fn items_of_high(rt: HostRuntime) {
    let mut iter = MixedEnumSet::<High>::from_repr(129).iter();
    let (unknown, valid) = (MixedValue::Invalid(0), MixedValue::Valid(High::A));
    let items = [iter.next(), iter.next(), iter.next()];
    expect(&rt, "items", items, [Some(unknown), Some(valid), None]);
    expect(&rt, "Valid(A) < Invalid(0)", valid < unknown, true);
}
