//! Calls of single representations, each with its reply written out.

use crate::expect::expect;
use enumset_array::ArrayRepr;
use enumset_repr::{EnumSetTypeRepr, PrimitiveIter};
use std::test::Fail;

/// No contract can state the value of `LEN`, since generic constants have none in proofs.
#[test]
fn words_in_use(rt: HostRuntime) {
    let lengths = [
        ArrayRepr::<0>::LEN,
        ArrayRepr::<1>::LEN,
        ArrayRepr::<3>::LEN,
        ArrayRepr::<67108863>::LEN,
        ArrayRepr::<67108864>::LEN,
        ArrayRepr::<67108866>::LEN,
        ArrayRepr::<{ usize::MAX }>::LEN,
    ];
    let wanted = [0, 1, 3, 67108863, 0, 2, 67108863];
    expect(&rt, "LEN", lengths, wanted);
    let widths = [
        <ArrayRepr<67108863> as EnumSetTypeRepr>::WIDTH,
        <ArrayRepr<67108864> as EnumSetTypeRepr>::WIDTH,
        <ArrayRepr<67108866> as EnumSetTypeRepr>::WIDTH,
    ];
    expect(&rt, "WIDTH", widths, [4294967232, 0, 128]);
    let words = <ArrayRepr<67108863> as EnumSetTypeRepr>::PREFERRED_ARRAY_LEN;
    expect(&rt, "PREFERRED_ARRAY_LEN", words, 67108863);
}

#[test]
fn clones_of_iterators(rt: HostRuntime) -> Result<(), Fail> {
    let mut bits = PrimitiveIter(10u8).clone()?;
    expect(&rt, "clone of bits", bits.next_back(), Some(3));
    let mut items = ArrayRepr([8, 1, 4]).iter().clone()?;
    expect(&rt, "clone of items", items.next_back(), Some(130));
    Ok(())
}
