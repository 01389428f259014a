//! The texts of faults of JSON, and the lines of parse errors. `scripts/gate/json-rows.txt` says how strings are read.

use crate::expect::expect;
use crate::form::{Form, read};
use enumset::set_json::{JsonFault, Unknown, mixed_from_number_text, mixed_from_words_text};
use std::test::Fail;
use types_for_tests::NamedLetters;

#[test]
fn faults_have_their_texts(rt: HostRuntime) -> Result<(), Fail> {
    let faults = [
        JsonFault::TooWide,
        JsonFault::NotANumber,
        JsonFault::NotWhole,
        JsonFault::OutOfRange,
        JsonFault::NotAnArray,
        JsonFault::NotAWord(18446744073709551615),
        JsonFault::NotAnObject,
        JsonFault::NotAText(1),
        JsonFault::NotABoolean(2),
        JsonFault::UnknownBits,
        JsonFault::UnknownName(3),
        JsonFault::NotJson(4),
        JsonFault::OutOfMemory,
    ];
    let mut text = String::new(rt.alloc());
    for fault in &faults {
        writeln!(text, "{fault}")?;
    }
    expect(&rt, "faults", text.as_str(), FAULTS);
    Ok(())
}

const FAULTS: &str = "\
a member is too large for the width
not a number
not a whole number of 64 bits
number out of range
not an array
element 18446744073709551615: not a whole number of 64 bits
not an object
element 1: not a text
name 2: not a boolean
unknown bits
name 3: unknown
line 4: not JSON
out of memory
";

// A comma comes before the bracket on the third line.
#[test]
fn parse_errors_have_their_lines(rt: HostRuntime) {
    let (alloc, text, wanted) = (rt.alloc(), "[\n0,\n]", Some(JsonFault::NotJson(3)));
    for form in [Form::Number, Form::Words, Form::List, Form::Map] {
        let fault = read::<NamedLetters>(alloc, form, text).err();
        expect(&rt, "read", fault, wanted);
    }
    let mixed = [
        mixed_from_number_text::<NamedLetters>(alloc, text).err(),
        mixed_from_words_text::<NamedLetters>(alloc, text, Unknown::Drop).err(),
    ];
    expect(&rt, "mixed", mixed, [wanted; 2]);
}
