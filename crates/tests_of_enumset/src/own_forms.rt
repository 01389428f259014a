//! Sets as strings of JSON by the calls of their element types, which `enumset_derive` writes: one test of each form.

use crate::expect::expect;
use enumset::EnumSet;
use enumset::set_json::JsonFault::{UnknownBits, UnknownName};
use std::test::Fail;
use types_for_tests::{InWords, LaterLetters, NamedLetters, Numbered};

// 5 is {Read, Share}, and 8 is no right.
#[test]
fn numbers(rt: HostRuntime) -> Result<(), Fail> {
    let (alloc, set) = (rt.alloc(), EnumSet::from([Numbered::Read, Numbered::Share]));
    let text = Numbered::to_json_text(alloc, &set)?;
    expect(&rt, "{Read, Share}", text.as_str(), "5");
    expect(&rt, "13", Numbered::from_json_text(alloc, "13"), Ok(set));
    Ok(())
}

// Bit 1 is 2 in the first word, and bit 200 is bit 8 of the fourth word.
#[test]
fn words(rt: HostRuntime) -> Result<(), Fail> {
    let (alloc, set) = (rt.alloc(), EnumSet::from([InWords::Low, InWords::High]));
    let text = InWords::to_json_text(alloc, &set)?;
    expect(&rt, "{Low, High}", text.as_str(), "[2,0,0,256]");
    let read = InWords::from_json_text(alloc, " [2, 0, 0, 256]");
    expect(&rt, "[2, 0, 0, 256]", read, Ok(set));
    let read = InWords::from_json_text(alloc, "[3]");
    expect(&rt, "[3]", read, Err(UnknownBits));
    Ok(())
}

// Rust's crate writes and reads this list.
#[test]
fn lists(rt: HostRuntime) -> Result<(), Fail> {
    let (alloc, set) = (
        rt.alloc(),
        EnumSet::from([NamedLetters::A, NamedLetters::C, NamedLetters::G]),
    );
    let text = NamedLetters::to_json_text(alloc, &set)?;
    expect(&rt, "{A, C, G}", text.as_str(), "[\"A\",\"C\",\"G\"]");
    let read = NamedLetters::from_json_text(alloc, "[\"G\",\"C\",\"A\"]");
    expect(&rt, "G, C, A", read, Ok(set));
    let read = NamedLetters::from_json_text(alloc, "[\"\\u0041\",\"H\"]");
    expect(&rt, "A, H", read, Ok(EnumSet::only(NamedLetters::A)));
    Ok(())
}

#[test]
fn maps(rt: HostRuntime) -> Result<(), Fail> {
    let (alloc, set) = (
        rt.alloc(),
        EnumSet::from([LaterLetters::B, LaterLetters::Aa]),
    );
    let text = LaterLetters::to_json_text(alloc, &set)?;
    expect(&rt, "{B, Aa}", text.as_str(), "{\"Aa\":true,\"B\":true}");
    let read = LaterLetters::from_json_text(alloc, "{\"B\":true,\"C\":false,\"Aa\":true}");
    expect(&rt, "B and Aa, not C", read, Ok(set));
    let read = LaterLetters::from_json_text(alloc, "{\"B\":true,\"Wirte\":false}");
    expect(&rt, "B, not Wirte", read, Err(UnknownName(1)));
    Ok(())
}
