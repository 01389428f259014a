//! Texts of sets of letters.

use crate::expect::expect;
use enumset_sets::EnumSet;
use enumset_worked::Letters;
use std::test::Fail;

#[test]
fn of_letters(rt: HostRuntime) -> Result<(), Fail> {
    let (alloc, none) = (rt.alloc(), EnumSet::<Letters>::empty());
    let set = EnumSet::from([Letters::A, Letters::C]);
    let text = format!(in alloc; "{set}")?;
    expect(&rt, "{A, C}", text.as_str(), "A | C");
    let text = format!(in alloc; "{none}")?;
    expect(&rt, "{}", text.as_str(), "");
    let text = format!(in alloc; "{set:?}")?;
    expect(&rt, "{A, C}, {:?}", text.as_str(), "EnumSet(A | C)");
    let text = format!(in alloc; "{none:?}")?;
    expect(&rt, "{}, {:?}", text.as_str(), "EnumSet()");
    Ok(())
}
