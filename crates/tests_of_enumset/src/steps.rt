//! Steps of iterators from both ends, by the laws of asks.

use crate::expect::expect;
use enumset::EnumSet;
use enumset::internal::ArrayRepr;
use enumset::laws::End::{Back, Front};
use enumset::laws::{walk_iter, walk_mixed_iter, walk_mixed_set, walk_set};
use enumset::set::{MixedEnumSet, MixedValue};
use enumset_worked::{Letters, PairWords, Wide};

#[test]
fn steps_answer_and_leave_the_others(rt: HostRuntime) {
    let mut iter = EnumSet::from([Letters::A, Letters::C, Letters::G]).iter();
    let mut answers = [None];
    walk_iter(&mut iter, &[Back], &mut answers);
    expect(&rt, "answers", answers, [Some(Letters::G)]);
    let items = [iter.next(), iter.next(), iter.next()];
    expect(
        &rt,
        "items",
        items,
        [Some(Letters::A), Some(Letters::C), None],
    );
}

#[test]
fn mixed_steps_answer_and_leave_the_others(rt: HostRuntime) {
    // The bits 0, 4 and 7, of which the last is unknown.
    let mut iter = MixedEnumSet::<Letters>::from_repr(0b1001_0001).iter();
    let mut answers = [None, None];
    walk_mixed_iter(&mut iter, &[Back, Front], &mut answers);
    let wanted = [
        Some(MixedValue::Invalid(7)),
        Some(MixedValue::Valid(Letters::A)),
    ];
    expect(&rt, "answers", answers, wanted);
    expect(&rt, "left", iter.len(), 1);
    let mut iter = MixedEnumSet::<Letters>::from_repr(0b1001_0001).iter();
    let mut answer = [None];
    walk_mixed_iter(&mut iter, &[Front], &mut answer);
    expect(&rt, "answer", answer, [Some(MixedValue::Valid(Letters::A))]);
    expect(&rt, "two left", iter.len(), 2);
}

#[test]
fn steps_over_words(rt: HostRuntime) {
    let set = EnumSet::from([Wide::P, Wide::Q, Wide::R]);
    let mut answers = [None, None];
    let (mut iter, left) = walk_set(&set, &[Back, Front], &mut answers);
    expect(&rt, "answers", answers, [Some(Wide::R), Some(Wide::P)]);
    expect(&rt, "left", left, 1);
    expect(
        &rt,
        "items",
        [iter.next(), iter.next()],
        [Some(Wide::Q), None],
    );
}

#[test]
fn mixed_steps_over_words(rt: HostRuntime) {
    // The bits 0 and 70, of which the last is unknown.
    let set = MixedEnumSet::<PairWords>::from_repr(ArrayRepr([1, 64]));
    let mut answers = [None, None, None];
    let (mut iter, left) = walk_mixed_set(&set, &[Back, Back, Front], &mut answers);
    let wanted = [
        Some(MixedValue::Invalid(70)),
        Some(MixedValue::Valid(PairWords::A)),
        None,
    ];
    expect(&rt, "answers", answers, wanted);
    expect(&rt, "left", left, 0);
    expect(&rt, "items", iter.next(), None);
}
