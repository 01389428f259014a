//! Walks over rows that show their asks.

use crate::expect::expect;
use enumset_array::End::{Back, Front};
use enumset_array::{ArrayRepr, End, ShownRow, walk, walk_into};
use std::alloc::{AllocError, Global};
use std::process::Abort;
use std::test::Fail;

/// Steps a new row from each of these ends, and tests the answers and the number of asks.
fn expect_walk<const N: usize>(
    rt: &impl Abort,
    alloc: Global,
    mut row: ShownRow<N>,
    ends: &[End],
    answers: &[Option<u32>],
    asks: u64,
) -> Result<(), AllocError> {
    let given = walk(alloc, &mut row, ends)?;
    expect(rt, "walk", given.as_slice(), answers);
    expect(rt, "shown", row.shown(), asks);
    Ok(())
}

#[test]
fn three_words(rt: HostRuntime) -> Result<(), Fail> {
    let alloc = rt.alloc();
    // {3, 64, 130}
    let ends = [Front, Back, Front, Back, Front];
    let answers = [Some(3), Some(130), Some(64), None, None];
    let row = ShownRow::new(ArrayRepr([8, 1, 4]));
    expect_walk(&rt, alloc, row, &ends, &answers, 6)?;
    // {3}
    let row = ShownRow::new(ArrayRepr([8, 0, 0]));
    expect_walk(&rt, alloc, row, &[], &[], 0)?;
    Ok(())
}

#[test]
fn few_words(rt: HostRuntime) -> Result<(), Fail> {
    let alloc = rt.alloc();
    // {0, 63}
    let ends = [Back, Front, Back, Front];
    let answers = [Some(63), Some(0), None, None];
    let row = ShownRow::new(ArrayRepr([9223372036854775809]));
    expect_walk(&rt, alloc, row, &ends, &answers, 3)?;
    let row = ShownRow::new(ArrayRepr([]));
    expect_walk(&rt, alloc, row, &[Front, Back], &[None, None], 0)?;
    Ok(())
}

#[test]
fn without_memory(rt: HostRuntime) {
    // {3, 64, 130}
    let mut row = ShownRow::new(ArrayRepr([8, 1, 4]));
    let mut answers = [None; 2];
    walk_into(&mut row, &[Back, Back], &mut answers);
    expect(&rt, "answers", answers, [Some(130), Some(64)]);
    // The words at places 2, 2 and 1: that at 2 is empty when it is asked again.
    expect(&rt, "asked", row.shown(), 3);
}
