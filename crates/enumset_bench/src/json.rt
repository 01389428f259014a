//! Reads sets from JSON, and writes them again.

use crate::digest::Digest;
use crate::random::Random;
use crate::rights::Right;
use crate::settings::Setting;
use crate::symbols::Symbol;
use enumset::set_json::{
    JsonFault, JsonWidth, Unknown, from_list, from_list_text, from_map_text, from_number_text,
    from_words_text, to_list, to_list_text, to_map_text, to_number_text, to_words_text,
};
use enumset::{EnumSet, EnumSetNames};
use serde_json::Value;
use std::alloc::{AllocError, Global};

/// How many lists come in a round.
const LISTS: u32 = 60;

/// How many maps come in a round.
const MAPS: u32 = 20;

/// How many numbers come in a round.
const NUMBERS: u32 = 30;

/// How many rows of words come in a round.
const ROWS: u32 = 20;

/// How many users a document has.
const USERS: u32 = 40;

/// The digest of all sets, texts and faults.
pub fn digest(alloc: Global, seed: u32, rounds: u32) -> Result<u64, AllocError> {
    let mut random = Random::new(seed);
    let mut digest = Digest::new();
    let valid = EnumSet::<Symbol>::all().as_array_truncated();
    for _ in 0..rounds {
        for _ in 0..LISTS {
            add_list(alloc, &mut random, &mut digest)?;
        }
        for _ in 0..MAPS {
            add_map(alloc, &mut random, &mut digest)?;
        }
        for _ in 0..NUMBERS {
            add_number(alloc, &mut random, &mut digest)?;
        }
        for _ in 0..ROWS {
            add_words(alloc, &mut random, &mut digest, &valid)?;
        }
        add_document(alloc, &mut random, &mut digest)?;
        add_all_names(alloc, &mut random, &mut digest)?;
        add_faults(alloc, &mut random, &mut digest)?;
    }
    Ok(digest.value())
}

/// Reads a list of up to twenty names of rights, and writes its set again. The names are in any order, and some come
/// twice; one in 300 is unknown.
fn add_list(alloc: Global, random: &mut Random, digest: &mut Digest) -> Result<(), AllocError> {
    let mut text = String::new(alloc);
    push_rights(&mut text, random)?;
    match from_list_text::<Right>(alloc, text.as_str(), unknown(random)) {
        Ok(set) => add_written(to_list_text(alloc, &set), digest),
        Err(fault) => add_fault(alloc, &fault, digest),
    }
}

/// Reads a map of up to twelve settings, half of them false, and writes its set again.
fn add_map(alloc: Global, random: &mut Random, digest: &mut Digest) -> Result<(), AllocError> {
    let mut text = String::from_str(alloc, "{")?;
    let names = Setting::names();
    for place in 0..random.below(13) {
        let separator = if place == 0 { "\n  \"" } else { ",\n  \"" };
        text.push_str(separator)?;
        text.push_str(
            random
                .item(
                    names,
                    (
                        Setting::KeepLightsOnAfterHoursInNorthWingUpperFloorRoom01,
                        "",
                    ),
                )
                .1,
        )?;
        text.push_str(random.item(&["\": true", "\": false"], ""))?;
    }
    text.push_str("\n}\n")?;
    match from_map_text::<Setting>(alloc, text.as_str(), unknown(random)) {
        Ok(set) => add_written(to_map_text(alloc, &set), digest),
        Err(fault) => add_fault(alloc, &fault, digest),
    }
}

/// Reads a number of rights, and writes its set again. One number in eight is shifted, mostly to unknown bits.
fn add_number(alloc: Global, random: &mut Random, digest: &mut Digest) -> Result<(), AllocError> {
    let number = random.number() & 0xF_FFFF;
    let number = if random.is_one_in(8) {
        number << 3
    } else {
        number
    };
    let text = number.to_string(alloc)?;
    match from_number_text::<Right>(alloc, text.as_str(), JsonWidth::U32, unknown(random)) {
        Ok(set) => add_written(to_number_text(alloc, &set, JsonWidth::U32), digest),
        Err(fault) => add_fault(alloc, &fault, digest),
    }
}

/// Reads a row of up to five words of symbols, and writes its set again.
fn add_words(
    alloc: Global,
    random: &mut Random,
    digest: &mut Digest,
    valid: &[u64; 4],
) -> Result<(), AllocError> {
    let mut text = String::from_str(alloc, "[")?;
    for place in 0..random.below(6) {
        let kept = valid.get(place).copied().unwrap_or(0);
        let separator = if place == 0 { "" } else { ", " };
        write!(text, "{separator}{}", random.number() & kept)?;
    }
    text.push_str("]")?;
    match from_words_text::<Symbol>(alloc, text.as_str(), unknown(random)) {
        Ok(set) => add_written(to_words_text(alloc, &set), digest),
        Err(fault) => add_fault(alloc, &fault, digest),
    }
}

/// Reads a document that has a list of rights for each of many users, and writes each set as a value again.
fn add_document(alloc: Global, random: &mut Random, digest: &mut Digest) -> Result<(), AllocError> {
    let mut text = String::from_str(alloc, "{")?;
    for place in 0..USERS {
        let separator = if place == 0 { "\n" } else { ",\n" };
        write!(text, "{separator}\"user{place}\": ")?;
        push_rights(&mut text, random)?;
    }
    text.push_str("}")?;
    let Ok(document) = Value::from_str(alloc, text.as_str()) else {
        return Err(AllocError);
    };
    let Some(users) = document.as_object() else {
        return Ok(());
    };
    for (_name, rights) in users.iter() {
        match from_list::<Right>(rights, unknown(random)) {
            Ok(set) => match to_list(alloc, &set) {
                Ok(value) => digest.add(value.as_array().map_or(0, |items| items.len() as u64)),
                Err(fault) => add_fault(alloc, &fault, digest)?,
            },
            Err(fault) => add_fault(alloc, &fault, digest)?,
        }
    }
    Ok(())
}

/// Reads a list of nearly all names of settings, the last setting first. Its last item is a name that no setting has,
/// or a number.
fn add_all_names(
    alloc: Global,
    random: &mut Random,
    digest: &mut Digest,
) -> Result<(), AllocError> {
    let mut text = String::from_str(alloc, "[")?;
    for (_setting, name) in Setting::names().iter().rev() {
        if !random.is_one_in(20) {
            text.push_str("\"")?;
            text.push_str(name)?;
            text.push_str("\",")?;
        }
    }
    let last = [
        "\"KeepLightsOnAfterHoursInNorthWingUpperFloorRoom99\"]",
        "\"KeepLights\\u004Fn\"]",
        "7]",
    ];
    text.push_str(random.item(&last, "]"))?;
    match from_list_text::<Setting>(alloc, text.as_str(), unknown(random)) {
        Ok(set) => add_written(to_list_text(alloc, &set), digest),
        Err(fault) => add_fault(alloc, &fault, digest),
    }
}

/// Reads texts that are cut off, or of another form, and mixes in their faults.
fn add_faults(alloc: Global, random: &mut Random, digest: &mut Digest) -> Result<(), AllocError> {
    let mut text = String::new(alloc);
    push_rights(&mut text, random)?;
    let cut = text
        .as_str()
        .get(..random.below(text.len().max(1)))
        .unwrap_or("");
    if let Err(fault) = from_list_text::<Right>(alloc, cut, Unknown::Drop) {
        add_fault(alloc, &fault, digest)?;
    }
    if let Err(fault) = from_map_text::<Setting>(alloc, text.as_str(), Unknown::Drop) {
        add_fault(alloc, &fault, digest)?;
    }
    if let Err(fault) = from_words_text::<Symbol>(alloc, text.as_str(), Unknown::Drop) {
        add_fault(alloc, &fault, digest)?;
    }
    Ok(())
}

/// Writes a list of names of rights.
fn push_rights(text: &mut String, random: &mut Random) -> Result<(), AllocError> {
    let names = Right::names();
    let separator = random.item(&["\"", " \"", "\n    \""], "\"");
    text.push_str("[")?;
    for place in 0..random.below(21) {
        if place > 0 {
            text.push_str(",")?;
        }
        text.push_str(separator)?;
        if random.is_one_in(300) {
            text.push_str("Unknown")?;
        } else {
            text.push_str(random.item(names, (Right::Read, "")).1)?;
        }
        text.push_str("\"")?;
    }
    text.push_str("]")
}

/// Whether unknown bits and names are refused: half of the time.
fn unknown(random: &mut Random) -> Unknown {
    if random.is_one_in(2) {
        Unknown::Drop
    } else {
        Unknown::Refuse
    }
}

/// Mixes in a text that was written.
fn add_written(text: Result<String, JsonFault>, digest: &mut Digest) -> Result<(), AllocError> {
    match text {
        Ok(text) => digest.add_bytes(text.as_bytes()),
        Err(_) => digest.add(1),
    }
    Ok(())
}

/// Mixes in the text of a fault.
fn add_fault(alloc: Global, fault: &JsonFault, digest: &mut Digest) -> Result<(), AllocError> {
    let text = format!(in alloc; "{fault}")?;
    digest.add_bytes(text.as_bytes());
    Ok(())
}
