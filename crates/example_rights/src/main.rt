//! Prints rights that are granted, and those that are missing.
#![tactic(auto, using(enumset::specs::Sets::set_laws))]

mod chains;
mod exercises;
mod expressions;
mod granting;
mod loops;
mod missing;
mod operators;
mod proving;
mod requests;
mod rights;
mod sending;
mod sharing;

use enumset::{EnumSet, enum_set};
use missing::missing;
use rights::Right;
use std::io;

fn main(rt: HostRuntime) -> Result<(), io::Error> {
    let mut granted = Right::Read | Right::Share;
    println!(rt; "{granted:?}, {} rights", granted.len())?;
    for right in missing(granted, enum_set!(Right::Read | Right::Write)) {
        println!(rt; "{right:?} is missing")?;
    }
    granted.insert(Right::Write);
    granted.remove(Right::Share);
    println!(rt; "{}", granted.contains(Right::Write))?;
    println!(rt; "{granted:?}, not {:?}", !granted)?;
    let number = granted.as_u8();
    let read = EnumSet::<Right>::from_u8_truncated(number);
    println!(rt; "{number} is {read:?}")
}
