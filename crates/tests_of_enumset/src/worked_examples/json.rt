//! Sets as values of JSON, here written as text.

use crate::expect::expect;
use enumset::EnumSet;
use enumset::set::MixedEnumSet;
use enumset::set_json::JsonFault::{
    NotANumber, NotAWord, NotAnArray, NotWhole, OutOfRange, TooWide, UnknownBits,
};
use enumset::set_json::JsonWidth::{U8, U64};
use enumset::set_json::Unknown::{Drop, Refuse};
use enumset::set_json::{
    JsonFault, JsonWidth, Unknown, from_number, from_words, mixed_from_number, to_number, to_words,
};
use enumset_worked::{Letters, Marks, Sparse};
use serde_json::Value;
use std::alloc::Global;
use std::process::Abort;
use std::test::Fail;

/// The number of the letters that a number in JSON is read as.
fn letters_of_number(
    alloc: Global,
    json: &str,
    width: JsonWidth,
    unknown: Unknown,
) -> Result<u8, JsonFault> {
    let value = Value::from_str(alloc, json)?;
    let set: EnumSet<Letters> = from_number(&value, width, unknown)?;
    Ok(set.as_u8_truncated())
}

/// The number of the letters that words in JSON are read as.
fn letters_of_words(alloc: Global, json: &str, unknown: Unknown) -> Result<u8, JsonFault> {
    let value = Value::from_str(alloc, json)?;
    let set: EnumSet<Letters> = from_words(&value, unknown)?;
    Ok(set.as_u8_truncated())
}

/// The number of the mixed set of marks that a number in JSON is read as.
fn marks_of_number(alloc: Global, json: &str) -> Result<u8, JsonFault> {
    let set: MixedEnumSet<Marks> = mixed_from_number(&Value::from_str(alloc, json)?)?;
    Ok(set.as_repr())
}

/// Tests what a call returns for a text of JSON.
fn expect_read(
    rt: &impl Abort,
    json: &str,
    read: Result<u8, JsonFault>,
    wanted: Result<u8, JsonFault>,
) {
    assert!(rt; read == wanted, "{json}: {read:?}, not {wanted:?}");
}

// 72 is {D, G}, and 127 are all letters.
#[test]
fn numbers_that_are_read(rt: HostRuntime) {
    for (json, width, unknown, wanted) in [
        ("200", U8, Drop, Ok(72)),
        ("200", U8, Refuse, Err(UnknownBits)),
        ("300", U8, Drop, Err(OutOfRange)),
        ("-1", U8, Drop, Err(NotWhole)),
        ("\"x\"", U8, Drop, Err(NotANumber)),
        ("null", U8, Drop, Err(NotANumber)),
        ("true", U8, Drop, Err(NotANumber)),
        ("\"9\"", U8, Drop, Err(NotANumber)),
        ("[9]", U8, Drop, Err(NotANumber)),
        ("{}", U8, Drop, Err(NotANumber)),
        ("1.5", U64, Drop, Err(NotWhole)),
        ("-1", U64, Drop, Err(NotWhole)),
        ("18446744073709551616", U64, Drop, Err(NotWhole)),
        ("18446744073709551615", U64, Drop, Ok(127)),
        ("18446744073709551615", U8, Drop, Err(OutOfRange)),
    ] {
        let read = letters_of_number(rt.alloc(), json, width, unknown);
        expect_read(&rt, json, read, wanted);
    }
}

// 5 is {A, C}.
#[test]
fn words_that_are_read(rt: HostRuntime) {
    for (json, unknown, wanted) in [
        ("[5,0,1]", Drop, Ok(5)),
        ("[5,0,1]", Refuse, Err(UnknownBits)),
        ("[]", Drop, Ok(0)),
        ("[1,\"x\",-1]", Drop, Err(NotAWord(1))),
        ("{}", Drop, Err(NotAnArray)),
        ("null", Drop, Err(NotAnArray)),
        ("[1,1.5]", Drop, Err(NotAWord(1))),
        ("[\"x\",-1]", Drop, Err(NotAWord(0))),
        ("[[1]]", Drop, Err(NotAWord(0))),
        ("[200,\"x\"]", Refuse, Err(NotAWord(1))),
        ("[5,0,0]", Refuse, Ok(5)),
    ] {
        let read = letters_of_words(rt.alloc(), json, unknown);
        expect_read(&rt, json, read, wanted);
    }
}

// 9 is {A, bit 3}.
#[test]
fn mixed_numbers_that_are_read(rt: HostRuntime) {
    for (json, wanted) in [
        ("9", Ok(9)),
        ("256", Err(OutOfRange)),
        ("255", Ok(255)),
        ("\"9\"", Err(NotANumber)),
        ("1.5", Err(NotWhole)),
    ] {
        expect_read(&rt, json, marks_of_number(rt.alloc(), json), wanted);
    }
}

// The example of a set that is too wide is in the module `refused`.
#[test]
fn sets_that_are_written(rt: HostRuntime) -> Result<(), Fail> {
    let (alloc, set) = (rt.alloc(), EnumSet::from([Sparse::A, Sparse::D]));
    let words = to_words(alloc, &set)?.to_string(alloc)?;
    let wanted = "[1024,9223372036854775808]";
    expect(&rt, "{A, D}, to_words", words.as_str(), wanted);
    let fault = to_number(alloc, &set, U64).err();
    expect(&rt, "{A, D}, to_number", fault, Some(TooWide));
    let all = EnumSet::<Letters>::all();
    let number = to_number(alloc, &all, U8)?.to_string(alloc)?;
    expect(&rt, "all letters, to_number", number.as_str(), "127");
    Ok(())
}
