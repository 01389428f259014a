//! The texts of sets over integers and over words: of the empty set, of one element and of all.

use crate::expect::expect;
use enumset_sets::{EnumSet, EnumSetType};
use enumset_worked::{Letters, Sparse, Wide};
use std::alloc::AllocError;
use std::fmt;
use std::test::Fail;

fn write_texts<T: EnumSetType + fmt::Debug + fmt::Display>(
    text: &mut String,
    element: T,
) -> Result<(), AllocError> {
    let (none, one, all) = (
        EnumSet::<T>::new(),
        EnumSet::only(element),
        EnumSet::<T>::all(),
    );
    writeln!(text, "<{none}> {none:?} {one} {all} {all:?}")
}

#[test]
fn sets_have_texts(rt: HostRuntime) -> Result<(), Fail> {
    let mut text = String::new(rt.alloc());
    write_texts(&mut text, Letters::C)?;
    write_texts(&mut text, Sparse::D)?;
    write_texts(&mut text, Wide::R)?;
    expect(&rt, "texts", text.as_str(), TEXTS);
    Ok(())
}

const TEXTS: &str = "\
<> EnumSet() C A | B | C | D | E | F | G EnumSet(A | B | C | D | E | F | G)
<> EnumSet() D A | B | C | D EnumSet(A | B | C | D)
<> EnumSet() R P | Q | R EnumSet(P | Q | R)
";

#[test]
fn iterators_have_texts(rt: HostRuntime) -> Result<(), Fail> {
    let mut iter = EnumSet::from([Letters::A, Letters::C]).iter();
    let text = format!(in rt.alloc(); "{iter:?}")?;
    let wanted = "EnumSetIter { iter: PrimitiveIter(5) }";
    expect(&rt, "{:?}", text.as_str(), wanted);
    iter.next();
    let mut same = iter.clone().unwrap();
    let left = (iter.size_hint(), same.next_back());
    let wanted = ((1, Some(1)), Some(Letters::C));
    expect(&rt, "size_hint and next_back", left, wanted);
    Ok(())
}
