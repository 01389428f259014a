//! Calls that take memory, when memory is refused.
//!
//! If its call is refused, a test checks that the same call succeeds once there is memory. Then it ends with the
//! refusal. `scripts/gate/refused-memory` refuses each allocation in turn, and knows how each test must end.

use crate::expect::expect;
use crate::form::{Form, read, write};
use enumset::EnumSet;
use enumset::set::MixedEnumSet;
use enumset::set_json::{
    JsonFault, JsonWidth, Unknown, from_map_text, mixed_from_number_text, mixed_from_words_text,
    mixed_to_number, mixed_to_number_text, mixed_to_words_text, to_list_text, to_map_text,
    to_number, to_words,
};
use enumset_array::{ArrayRepr, End, ShownRow, walk};
use enumset_worked::{Marks, Sparse};
use std::alloc::Global;
use std::fmt;
use std::process::Abort;
use std::test::Fail;
use types_for_tests::{NamedLetters, NamedWide, Priority};

/// What a call returns once there is memory, and the error that it returned first.
fn returned<V, E: fmt::Debug, F: FnMut() -> Result<V, E>>(
    rt: &impl Abort,
    mut call: F,
) -> (V, Result<(), E>)
    requires { F.IsAlwaysCallable call }
{
    match call() {
        Ok(value) => (value, Ok(())),
        Err(refused) => (call().expect(rt, "refused once more"), Err(refused)),
    }
}

/// Writes a text by a call.
fn expect_text<F: FnMut() -> Result<String, JsonFault>>(
    rt: &impl Abort,
    wanted: &str,
    call: F,
) -> Result<(), Fail>
    requires { F.IsAlwaysCallable call }
{
    let (text, written) = returned(rt, call);
    expect(rt, "write", text.as_str(), wanted);
    Ok(written?)
}

/// Reads the set of one letter in a form.
fn expect_read(rt: &impl Abort, alloc: Global, form: Form, text: &str) -> Result<(), Fail> {
    let (set, was_read) = returned(rt, || read::<NamedLetters>(alloc, form, text));
    expect(rt, "read", set.as_u8_truncated(), 64);
    Ok(was_read?)
}

/// Tests the fault of a text, which is `wanted` once there is memory.
fn expect_fault<F: Fn() -> Option<JsonFault>>(
    rt: &impl Abort,
    wanted: JsonFault,
    call: F,
) -> Result<(), Fail>
    requires { F.IsAlwaysCallable call }
{
    match call() {
        Some(JsonFault::OutOfMemory) => {
            expect(rt, "read again", call(), Some(wanted));
            Err(JsonFault::OutOfMemory)?
        }
        fault => expect(rt, "read", fault, Some(wanted)),
    }
    Ok(())
}

#[test]
fn values_that_are_written(rt: HostRuntime) -> Result<(), Fail> {
    let (alloc, set) = (rt.alloc(), EnumSet::from([Sparse::A, Sparse::D]));
    let (words, ended) = returned(&rt, || to_words(alloc, &set));
    let words = words.as_array().map(|words| words.len());
    expect(&rt, "to_words", words, Some(2));
    Ok(ended?)
}

// Writing a number takes no memory. That a set is too wide for a number is not out of memory.
#[test]
fn numbers_that_are_written(rt: HostRuntime) -> Result<(), Fail> {
    let (alloc, set) = (rt.alloc(), EnumSet::from([Sparse::A, Sparse::D]));
    let fault = to_number(alloc, &set, JsonWidth::U64).err();
    expect(&rt, "{A, D}, to_number", fault, Some(JsonFault::TooWide));
    let number = to_number(alloc, &EnumSet::only(NamedLetters::G), JsonWidth::U8)?;
    expect(&rt, "{G}, to_number", number.as_u64(), Some(64));
    let number = mixed_to_number(alloc, &MixedEnumSet::<Marks>::from_repr(9))?;
    expect(&rt, "9, mixed_to_number", number.as_u64(), Some(9));
    Ok(())
}

// These four tests read their texts through a tree of values.
#[test]
fn trees_of_numbers(rt: HostRuntime) -> Result<(), Fail> {
    let (alloc, text) = (rt.alloc(), "\"9\"");
    let number = || read::<NamedLetters>(alloc, Form::Number, text).err();
    expect_fault(&rt, JsonFault::NotANumber, number)?;
    let mixed = || mixed_from_number_text::<Marks>(alloc, text).err();
    expect_fault(&rt, JsonFault::NotANumber, mixed)
}

#[test]
fn trees_of_words(rt: HostRuntime) -> Result<(), Fail> {
    let (alloc, text) = (rt.alloc(), "[1,\"x\"]");
    let words = || read::<NamedLetters>(alloc, Form::Words, text).err();
    expect_fault(&rt, JsonFault::NotAWord(1), words)?;
    let mixed = || mixed_from_words_text::<Marks>(alloc, text, Unknown::Drop).err();
    expect_fault(&rt, JsonFault::NotAWord(1), mixed)
}

#[test]
fn trees_of_names(rt: HostRuntime) -> Result<(), Fail> {
    let alloc = rt.alloc();
    let list = || read::<NamedLetters>(alloc, Form::List, "[1]").err();
    expect_fault(&rt, JsonFault::NotAText(0), list)?;
    let map = || read::<NamedLetters>(alloc, Form::Map, "{\"G\":1}").err();
    expect_fault(&rt, JsonFault::NotABoolean(0), map)
}

#[test]
fn trees_of_unknown_names(rt: HostRuntime) -> Result<(), Fail> {
    let (alloc, text) = (rt.alloc(), "{\"G\":true,\"H\":false}");
    let (set, was_read) = returned(
        &rt,
        || from_map_text::<NamedLetters>(alloc, text, Unknown::Drop),
    );
    expect(&rt, "read", set.as_u8_truncated(), 64);
    Ok(was_read?)
}

#[test]
fn written_texts(rt: HostRuntime) -> Result<(), Fail> {
    let (alloc, set) = (rt.alloc(), EnumSet::only(NamedLetters::G));
    for (form, wanted) in [
        (Form::Number, "64"),
        (Form::Words, "[64]"),
        (Form::List, "[\"G\"]"),
        (Form::Map, "{\"G\":true}"),
    ] {
        expect_text(&rt, wanted, || write(alloc, form, &set))?;
    }
    Ok(())
}

#[test]
fn texts_that_are_read(rt: HostRuntime) -> Result<(), Fail> {
    for (form, text) in [
        (Form::Number, " 64\n"),
        (Form::Words, " [ 64,\t0 ] "),
        (Form::List, " [ \"G\",\n \"G\" ] "),
        (Form::Map, "{\"G\":true}"),
        (
            Form::Map,
            "\r\n{\t\"A\" :false,\n\t\"G\"\r:\ttrue\n, \"B\": false }\t",
        ),
    ] {
        expect_read(&rt, rt.alloc(), form, text)?;
    }
    Ok(())
}

#[test]
fn names_with_escapes_that_are_read(rt: HostRuntime) -> Result<(), Fail> {
    expect_read(&rt, rt.alloc(), Form::List, "[\"\\u0047\"]")
}

#[test]
fn maps_with_escapes_that_are_read(rt: HostRuntime) -> Result<(), Fail> {
    expect_read(&rt, rt.alloc(), Form::Map, "{\"\\u0047\":true}")
}

#[test]
fn names_with_escapes_that_are_written(rt: HostRuntime) -> Result<(), Fail> {
    let (alloc, set) = (rt.alloc(), EnumSet::only(Priority::Normal));
    expect_text(&rt, "[\"\\\"\\\\\"]", || to_list_text(alloc, &set))
}

#[test]
fn maps_with_escapes_that_are_written(rt: HostRuntime) -> Result<(), Fail> {
    let (alloc, set) = (rt.alloc(), EnumSet::only(Priority::Low));
    expect_text(&rt, "{\"é\\u0001\":true}", || to_map_text(alloc, &set))
}

// The names of a map are in the order of their bytes, not of the bits.
#[test]
fn maps_whose_order_changes(rt: HostRuntime) -> Result<(), Fail> {
    let (alloc, set) = (rt.alloc(), EnumSet::<NamedWide>::all());
    let wanted = "{\"Re\":true,\"Read\":true,\"Reader\":true}";
    expect_text(&rt, wanted, || to_map_text(alloc, &set))
}

#[test]
fn mixed_texts(rt: HostRuntime) -> Result<(), Fail> {
    let (alloc, set) = (rt.alloc(), MixedEnumSet::<Marks>::from_repr(9));
    expect_text(&rt, "9", || mixed_to_number_text(alloc, &set))?;
    expect_text(&rt, "[9]", || mixed_to_words_text(alloc, &set))?;
    let (same, was_read) = returned(&rt, || mixed_from_number_text(alloc, "9"));
    was_read?;
    expect(&rt, "number", same, set);
    let (same, was_read) = returned(&rt, || mixed_from_words_text(alloc, "[9]", Unknown::Refuse));
    was_read?;
    expect(&rt, "words", same, set);
    Ok(())
}

#[test]
fn vectors_of_words(rt: HostRuntime) -> Result<(), Fail> {
    let (alloc, set) = (rt.alloc(), EnumSet::<Sparse>::all());
    let (words, ended) = returned(&rt, || set.to_vec(alloc));
    let wanted = [1074791424, 9223372036854775808];
    expect(&rt, "to_vec", words.as_slice(), &wanted);
    Ok(ended?)
}

// A row counts the asks. A walk that is refused makes none.
#[test]
fn a_walk_leaves_its_row(rt: HostRuntime) -> Result<(), Fail> {
    let mut row = ShownRow::new(ArrayRepr([8, 1, 4]));
    let ends = [End::Front, End::Back, End::Front];
    let (answers, ended) = match walk(rt.alloc(), &mut row, &ends) {
        Ok(answers) => (answers, Ok(())),
        Err(refused) => {
            expect(&rt, "shown after a refusal", row.shown(), 0);
            let answers = walk(rt.alloc(), &mut row, &ends).expect(&rt, "refused once more");
            (answers, Err(refused))
        }
    };
    let wanted = [Some(3), Some(130), Some(64)];
    expect(&rt, "walk", answers.as_slice(), &wanted);
    expect(&rt, "shown", row.shown(), 4);
    Ok(ended?)
}
