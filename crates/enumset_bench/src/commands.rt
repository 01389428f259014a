//! Serves inputs of commands over sets.

use crate::digest::Digest;
use crate::random::Random;
use enumset_machine::worked_types::{serve_worked, worked};
use std::alloc::{AllocError, Global};

/// How many bytes a random input has at most, not counting a bad last line.
const LENGTH: usize = 200000;

/// How many lines are made, from which each input takes its own.
const LINES: u32 = 2000;

/// The types that inputs are over.
const TYPES: [&str; 8] = [
    "letters",
    "mixed-letters",
    "wide",
    "sparse",
    "marks",
    "mixed-pair-number",
    "mixed-pair-words",
    "pair-words",
];

/// The digest of all replies and faults.
pub fn digest(alloc: Global, seed: u32, rounds: u32) -> Result<u64, AllocError> {
    let mut random = Random::new(seed);
    let mut digest = Digest::new();
    for _ in 0..rounds {
        let lines = random_lines(alloc, &mut random)?;
        for name in &TYPES {
            let input = random_input(alloc, &mut random, &lines)?;
            serve(alloc, name, &input, &mut digest)?;
        }
        let awkward = awkward_input(alloc, &mut random)?;
        serve(alloc, "wide", &awkward, &mut digest)?;
    }
    Ok(digest.value())
}

/// Serves an input, and mixes in the replies or the fault.
fn serve(alloc: Global, name: &str, input: &String, digest: &mut Digest) -> Result<(), AllocError> {
    let Some(worked) = worked(name) else {
        return Ok(());
    };
    match serve_worked(alloc, worked, input.as_bytes()) {
        Ok(replies) => digest.add_bytes(&replies),
        Err(fault) => {
            let text = format!(in alloc; "{fault}")?;
            digest.add_bytes(text.as_bytes());
        }
    }
    Ok(())
}

/// An input of random ones of these lines. One input in sixteen ends with a bad line.
fn random_input(
    alloc: Global,
    random: &mut Random,
    lines: &[String],
) -> Result<String, AllocError> {
    let mut input = String::with_capacity(alloc, LENGTH)?;
    for _ in 0..LENGTH {
        let Some(line) = lines.get(random.below(lines.len().max(1))) else {
            break;
        };
        if input.len().saturating_add(line.len()) > LENGTH {
            break;
        }
        input.push_str(line.as_str())?;
    }
    if random.is_one_in(16) {
        input.push_str("insert 0 one\n")?;
    }
    Ok(input)
}

/// Random lines, of all commands that every type has.
fn random_lines(alloc: Global, random: &mut Random) -> Result<Vec<String>, AllocError> {
    let mut lines = Vec::new(alloc);
    for _ in 0..LINES {
        let mut line = String::new(alloc);
        push_line(&mut line, random)?;
        lines.push(line)?;
    }
    Ok(lines)
}

/// Writes a random line.
fn push_line(line: &mut String, random: &mut Random) -> Result<(), AllocError> {
    let a = random.below(4);
    let b = random.below(4);
    let to = random.below(4);
    let i = random.below(2);
    let bit = random.item(&[0, 1, 2, 3, 4, 5, 6, 10, 64, 127, 130, 131], 0);
    let width = random.item(&[8, 16, 32, 64, 128], 8);
    match random.below(16) {
        0 => {
            let name = random.item(&["new", "all", "clear", "len", "empty"], "len");
            writeln!(line, "{name} {a}")?;
        }
        1..=5 => {
            let name = random.item(
                &["insert", "insert", "remove", "contains", "contains", "only"],
                "only",
            );
            writeln!(line, "{name} {a} {bit}")?;
        }
        6 | 7 => {
            let name = random.item(
                &["union", "intersection", "difference", "symmetric"],
                "union",
            );
            writeln!(line, "{name} {to} {a} {b}")?;
        }
        8 | 9 => {
            let names = [
                "complement",
                "insert_all",
                "remove_all",
                "disjoint",
                "superset",
                "subset",
                "equal",
                "compare",
            ];
            let name = random.item(&names, "equal");
            writeln!(line, "{name} {a} {b}")?;
        }
        10 => {
            let name = random.item(&["number", "number_cut"], "number");
            writeln!(line, "{name} {a} {width}")?;
        }
        11 => {
            let name = random.item(&["from_number", "from_number_cut"], "from_number");
            writeln!(line, "{name} {a} {width} {}", random.number() & 0x7F)?;
        }
        12 => {
            let name = random.item(&["words", "words_cut"], "words");
            writeln!(line, "{name} {a} {}", random.below(4))?;
        }
        13 => {
            let name = random.item(&["from_words", "from_words_cut"], "from_words");
            writeln!(
                line,
                "{name} {a} {} {}",
                random.number() & 15,
                random.number() & 1
            )?;
        }
        14 => writeln!(line, "iter {i} {a}")?,
        _ => {
            let name = random.item(&["next", "next_back", "next", "left"], "next");
            writeln!(line, "{name} {i}")?;
        }
    }
    Ok(())
}

/// An input of long lines: many words, leading zeros, and spaces.
fn awkward_input(alloc: Global, random: &mut Random) -> Result<String, AllocError> {
    let mut input = String::new(alloc);
    for _ in 0..20 {
        input.push_str("from_words_cut 1")?;
        for _ in 0..random.below(500) {
            write!(input, " {}", random.number())?;
        }
        input.push_str("\ninsert 000000000000000000000000000000000000000000001     ")?;
        input.push_str(
            "0000000000000000000000000000000000000000000000000000000000000000000000003\r\n",
        )?;
        for _ in 0..random.below(100) {
            input.push_str("                         \n")?;
        }
        writeln!(input, "  words_cut   1  {}  ", random.below(100))?;
    }
    Ok(input)
}
