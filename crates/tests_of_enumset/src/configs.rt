//! Config texts, changed by the function that docs/JSON.md shows.

use crate::config::with_flag_in_list;
use crate::expect::expect;
use std::alloc::{AllocError, Global};
use std::process::Abort;
use std::test::Fail;
use types_for_tests::NamedLetters;

/// Tests the changed text, or the text of the fault.
fn expect_changed(
    rt: &impl Abort,
    alloc: Global,
    config: &str,
    wanted: &str,
) -> Result<(), AllocError> {
    let came = match with_flag_in_list(alloc, config, NamedLetters::A) {
        Ok(changed) => changed,
        Err(fault) => format!(in alloc; "{fault}")?,
    };
    expect(rt, config, came.as_str(), wanted);
    Ok(())
}

#[test]
fn flags_in_lists(rt: HostRuntime) -> Result<(), Fail> {
    for (config, wanted) in [
        (
            "{\"flags\": [\"C\"]}",
            "{\n  \"flags\": [\n    \"A\",\n    \"C\"\n  ]\n}",
        ),
        ("{\"flags\": [\"C\",]}", "line 1: not JSON"),
        ("{\"flag\": [\"C\"]}", "no flags"),
        ("{\"flags\": \"C\"}", "flags: not an array"),
        ("{\"flags\": [\"C\", 1]}", "flags: element 1: not a text"),
        (
            "{\"flags\": [\"C\", \"Cc\"]}",
            "flags: no flag is called Cc",
        ),
    ] {
        expect_changed(&rt, rt.alloc(), config, wanted)?;
    }
    Ok(())
}
