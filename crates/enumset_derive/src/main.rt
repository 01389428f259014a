//! Writes the Rattle module that makes the enums of a Rust source element types.
//!
//! `enumset_derive CRATE MODULE` reads the source from standard input and prints the module of this name in this crate.
//! The module `bar` in the module `foo` is named `foo::bar`.
//! With `-o FILE` the module is written to that file instead, unless the source has a fault.
//! With `--bits FILE` the program also writes a file of definitions: the terms of contracts for the variants' bits, and
//! for sets in JSON that consist of names.
#![tactic(auto)]

mod element;
mod fault;
mod items;
mod output;
mod plan;
mod read;
mod report;
mod write;

use element::{Element, elements_of};
use enumset_source::{Place, tokens_of};
use fault::{DeriveError, Outcome, Reading, Reason};
use items::items_of;
use output::{Output, write_output};
use read::read_enums;
use report::Report;
use std::alloc::{AllocError, Global};
use std::env::{self, Env};
use std::io::{self, ErrorKind, Input, Print, Read};
use std::process::ExitCode;
use std::rt::Files;
use write::{bits_text, module_text};

const NOT_A_NAME: DeriveError = DeriveError::Arguments("an argument is not a valid name");

const WRONG: DeriveError = DeriveError::Arguments(
    "usage: enumset_derive CRATE MODULE [-o FILE] [--bits FILE]; -o writes the module to FILE instead of standard \
    output, and --bits writes terms for contracts to FILE",
);

const ONLY_TESTS: &str = "left out of the terms, since this enum exists only for tests";

/// What the program is to write, and where.
#[derive(Drop)]
pub struct Request<'a> {
    pub crate_name: &'a str,
    /// The path of the module.
    pub path: &'a str,
    /// The same, with a dot between two names.
    pub module: String,
    /// The file that the module is written to, if not standard output.
    pub file: Option<&'a str>,
    /// The file that the terms for contracts are written to, if there is one.
    pub bits: Option<&'a str>,
}

fn main(rt: HostRuntime) -> ExitCode {
    let fault = match answer(&rt) {
        Ok(true) => return ExitCode::SUCCESS,
        Ok(false) => return ExitCode::from(1),
        Err(fault) => fault,
    };
    let _ = eprintln!(rt; "{fault}");
    ExitCode::from(match fault {
        DeriveError::Arguments(_) => 2,
        DeriveError::OutOfMemory(_) => 3,
        _ => 1,
    })
}

/// Reads the arguments and the source, and writes the module. Returns `false` if the source has faults or no element
/// type, which standard error then says.
fn answer<R: Env + Files + Input + Print + Eprint + AllocGlobal>(rt: &R) -> Outcome<bool> {
    let arguments = env::args(rt).map_err(|error| fault_of(error, NOT_A_NAME))?;
    let arguments: Vec<String> = arguments.collect(rt.alloc())?;
    let request = request_of(rt.alloc(), &arguments)?;
    match derive(rt, &request)? {
        Some(output) => write_output(rt, &request, &output).map(|()| true),
        None => Ok(false),
    }
}

/// The fault for an error of the system: out of memory, or else this one.
fn fault_of(error: io::Error, other: DeriveError) -> DeriveError {
    match error.kind() {
        ErrorKind::OutOfMemory => DeriveError::OutOfMemory(AllocError),
        _ => other,
    }
}

/// What the arguments ask for.
fn request_of(alloc: Global, arguments: &[String]) -> Outcome<Request<'_>> {
    let [_, crate_name, path, rest @ ..] = arguments else {
        return Err(WRONG);
    };
    let (crate_name, path) = (crate_name.as_str(), path.as_str());
    if !is_name(crate_name) || !path.split("::").all(is_name) {
        return Err(NOT_A_NAME);
    }
    let mut request = Request {
        crate_name,
        path,
        module: path.replace(alloc, "::", ".")?,
        file: None,
        bits: None,
    };
    for option in rest.chunks(2) {
        let [flag, file] = option else {
            return Err(WRONG);
        };
        let given = match flag.as_str() {
            "-o" => &mut request.file,
            "--bits" => &mut request.bits,
            _ => return Err(WRONG),
        };
        if given.is_some() {
            return Err(WRONG);
        }
        *given = Some(file.as_str());
    }
    Ok(request)
}

/// Whether a text is a valid name: 1 to 256 lowercase letters, digits and `_`, not beginning with a digit.
fn is_name(name: &str) -> bool {
    let is_digit = |letter: char| letter.is_ascii_digit();
    let is_plain = |letter| matches!(letter, 'a'..='z' | '0'..='9' | '_');
    matches!(name.len(), 1..=256) && name.chars().all(is_plain) && !name.starts_with(is_digit)
}

/// What is written for the source on standard input, or `None` if it has faults or no element type. The faults, or else
/// the notes, are written to standard error.
fn derive<R: Input + Eprint + AllocGlobal>(rt: &R, request: &Request) -> Outcome<Option<Output>> {
    let alloc = rt.alloc();
    let mut input = Vec::new(alloc);
    let read = rt.reader().read_to_end(&mut input);
    read.map_err(|error| fault_of(error, DeriveError::Stream("reading failed", error)))?;
    let text = text_of(&input)?.replace(alloc, "\r\n", "\n")?;
    let tokens = tokens_of(alloc, text.as_str())?;
    let (docs, items) = items_of(alloc, &tokens)?;
    let mut report = Report::new(alloc);
    let enums = read_enums(&mut report, &items)?;
    let elements = elements_of(&mut report, enums)?;
    if request.bits.is_some() {
        note_without_terms(&mut report, &elements)?;
    }
    report.sort()?;
    for fault in &report.faults {
        let _ = eprintln!(rt; "{fault}");
    }
    if !report.faults.is_empty() {
        return Ok(None);
    }
    for note in &report.notes {
        let _ = eprintln!(rt; "{note}");
    }
    if report.has_items_left_out() {
        let _ = eprintln!(rt; "put the items that are left out into files of your own");
    }
    if elements.is_empty() {
        let _ = eprintln!(rt; "no enum derives EnumSetType");
        return Ok(None);
    }
    Ok(Some(Output {
        module: module_text(alloc, request, &docs, &elements)?,
        bits: match request.bits {
            Some(_) => Some(bits_text(alloc, request, &elements)?),
            None => None,
        },
    }))
}

/// The bytes as UTF-8 without a byte order mark, or the fault at the first invalid byte.
fn text_of(input: &[u8]) -> Outcome<&str> {
    let input = input.strip_prefix(b"\xEF\xBB\xBF").unwrap_or(input);
    match str::from_utf8(input) {
        Ok(text) => Ok(text),
        Err(_) => {
            let valid = input.utf8_chunks().next().map_or("", |chunk| chunk.valid());
            let end = valid.chars().fold(Place::BEGIN, Place::after);
            let fault = Reason::Text("these bytes are not valid UTF-8").at(end);
            Err(DeriveError::Fault(fault))
        }
    }
}

/// Notes the enums that have no terms for clauses.
fn note_without_terms(report: &mut Report, elements: &[Element]) -> Reading {
    for element in elements {
        if !element.has_terms() {
            report.remark(element.declaration.head.name.place, ONLY_TESTS)?;
        }
    }
    Ok(())
}
