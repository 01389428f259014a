//! Sets of 256 elements, the most that an enum may have.

use crate::expect::expect;
use enumset::EnumSet;
use std::test::Fail;
use types_for_tests::Of256;

// V0 has bit 0, V1 bit 1 and so on.
#[test]
fn texts_of_many_elements(rt: HostRuntime) -> Result<(), Fail> {
    let (alloc, mut names) = (rt.alloc(), String::from_str(rt.alloc(), "V0")?);
    for bit in 1..256 {
        write!(names, " | V{bit}")?;
    }
    let all = EnumSet::<Of256>::all();
    let text = format!(in alloc; "{all} {all:?}")?;
    let wanted = format!(in alloc; "{names} EnumSet({names})")?;
    expect(&rt, "a text", text.as_str(), wanted.as_str());
    Ok(())
}
