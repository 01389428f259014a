//! Writes the module and the file of terms, or neither if one of these files cannot be opened.

use crate::Request;
use crate::fault::{DeriveError, Outcome};
use std::fs::{self, OpenOptions};
use std::io::{self, ErrorKind, Print, Write};
use std::rt::Files;

const SAME_FILE: DeriveError = DeriveError::Arguments("-o and --bits name the same file");

/// What the program writes for a source without a fault.
#[derive(Drop)]
pub struct Output {
    pub module: String,
    /// The terms for clauses, if they are asked for.
    pub bits: Option<String>,
}

/// A file that can be written.
#[derive(Clone, Copy)]
struct Target<'a> {
    name: &'a str,
    /// Whether it was not there before.
    is_new: bool,
}

/// Writes the module, and the terms if they are asked for. It opens both files before it changes one, so only a failure
/// of writing itself, such as a full disk, can leave a file cut off, and the other one new. If it fails, it removes the
/// files that were not there before.
pub fn write_output<R: Files + Print + AllocGlobal>(
    rt: &R,
    request: &Request,
    output: &Output,
) -> Outcome {
    let module = target_of(rt, request.file)?;
    let (bits, written) = match target_of(rt, request.bits) {
        Ok(bits) => (bits, write_both(rt, module, bits, output)),
        Err(error) => (None, Err(error)),
    };
    if written.is_err() {
        remove_new(rt, module);
        remove_new(rt, bits);
    }
    written
}

/// Writes the module and the terms to their targets. Without a target the module is written to standard output, and the
/// terms are not written.
fn write_both<R: Files + Print + AllocGlobal>(
    rt: &R,
    module: Option<Target>,
    bits: Option<Target>,
    output: &Output,
) -> Outcome {
    if let (Some(module), Some(bits)) = (module, bits) {
        if is_same(rt, module.name, bits.name) {
            return Err(SAME_FILE);
        }
    }
    match module {
        Some(module) => write_file(rt, module.name, &output.module)?,
        None => {
            let written = io::writer(rt).write_all(output.module.as_str().as_bytes());
            written.map_err(|error| DeriveError::Stream("writing failed", error))?;
        }
    }
    match (bits, &output.bits) {
        (Some(bits), Some(text)) => write_file(rt, bits.name, text),
        _ => Ok(()),
    }
}

/// The file with this name, if there is a name. It is opened for writing, but not changed.
fn target_of<'a, R: Files + AllocGlobal>(
    rt: &R,
    name: Option<&'a str>,
) -> Outcome<Option<Target<'a>>> {
    let Some(name) = name else {
        return Ok(None);
    };
    match open(rt, name) {
        Ok(is_new) => Ok(Some(Target { name, is_new })),
        Err(error) => Err(file_error(rt, name, error)?),
    }
}

/// Opens a file for writing, and returns whether it was not there before.
fn open<R: Files>(rt: &R, name: &str) -> io::Result<bool> {
    let created = OpenOptions::new()
        .write(true)
        .create_new(true)
        .open(rt, name);
    match created {
        Err(error) if error.kind() == ErrorKind::AlreadyExists => {
            OpenOptions::new().write(true).open(rt, name).map(|_| false)
        }
        created => created.map(|_| true),
    }
}

/// Whether two files that are there are the same.
fn is_same<R: Files + AllocGlobal>(rt: &R, one: &str, other: &str) -> bool {
    match (fs::canonicalize(rt, one), fs::canonicalize(rt, other)) {
        (Ok(one), Ok(other)) => one.as_path().as_str() == other.as_path().as_str(),
        _ => one == other,
    }
}

/// Removes a file that was not there before.
fn remove_new<R: Files>(rt: &R, target: Option<Target>) {
    if let Some(target) = target.filter(|target| target.is_new) {
        let _ = fs::remove_file(rt, target.name);
    }
}

/// Writes a text to a file.
fn write_file<R: Files + AllocGlobal>(rt: &R, name: &str, text: &String) -> Outcome {
    match fs::write(rt, name, text.as_str()) {
        Ok(()) => Ok(()),
        Err(error) => Err(file_error(rt, name, error)?),
    }
}

/// The error of the program for an error at a file.
fn file_error<R: AllocGlobal>(rt: &R, name: &str, error: io::Error) -> Outcome<DeriveError> {
    let name = String::from_str(rt.alloc(), name)?;
    Ok(DeriveError::File(name, error))
}
