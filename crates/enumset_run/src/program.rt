//! What the program does: its argument, its input and its output.

ghost use Rattle.std.specs.Prelude.{◌≡◌, ◌≢◌, ◌⊎◌, ◌+◌, ◌≤◌, [], length, take, nat_lt, true, IfOk, IfErr, IfSome, OnOk, OnErr, IsOk, IsOkAnd, vec_capacity};
ghost use Rattle.std.specs.List.{list_all};
ghost use Rattle.std.specs.Io.KnownBytes.{Appends};
ghost use Rattle.enumset_run.specs.Faults.{type_of_arguments, IsFaultOver, AppendsFrontOf};
ghost use Rattle.enumset_machine.specs.WorkedTypes.{names, answer_over};

use crate::fault::ProgramFault;
use enumset_commands::TextFault;
use enumset_machine::INPUT_LIMIT;
use enumset_machine::worked::Worked;
use enumset_machine::worked_types::{serve_worked, worked_of_bytes};
use std::alloc::Global;
use std::env::{Env, FillError};
use std::io::{self, ErrorKind, Input, Print, Read, Write};

/// No name of a type has more bytes.
const NAME_LIMIT: usize = 64;

/// The most bytes of an input that are read: one more than it may have, which shows that it is too long.
const READ_LIMIT: usize = INPUT_LIMIT + 1;

/// The room for an input. It is larger than an input, so that the end can be seen without more room.
pub(crate) const ROOM: usize = READ_LIMIT + 1;

/// Tests the argument, reads the input, and writes the answer once.
///
/// Room for the input is taken before it is read, so that running out of memory hides no fault of the input.
pub fn answer<R: Env + Input + Print + AllocGlobal>(rt: &R) -> Result<(), ProgramFault> {
    let worked = read_arguments(rt)?;
    let room = Vec::with_capacity(rt.alloc(), ROOM).map_err(TextFault::from)?;
    answer_input(rt.alloc(), worked, room, rt.reader(), &mut io::writer(rt))
}

/// The type that the one argument names. No clause can say what the arguments are.
fn read_arguments<E: Env>(env: &E) -> Result<Worked, ProgramFault>
    ensures { IfErr result (λ fault.
        (fault ≡ ProgramFault.OneArgument) ⊎ (fault ≡ ProgramFault.UnknownType)) }
{
    names_fit();
    let mut name = [0u8; NAME_LIMIT];
    let first = env.arg(1, &mut name);
    let mut next = [0u8; 1];
    let second = env.arg(2, &mut next);
    type_of_arguments(first, &name, second)
}

/// Tells the proof that each name of a type has at most [`NAME_LIMIT`] bytes. The call does nothing at run time.
fn names_fit()
    ensures { list_all (λ row. nat_lt (length row.0) (NAME_LIMIT + 1)) names ≡ true }
{}

/// The type that the arguments name, from what was found of the first and of the second. `name` begins with the bytes
/// of the first.
fn type_of_arguments(
    first: Result<usize, FillError>,
    name: &[u8],
    second: Result<usize, FillError>,
) -> Result<Worked, ProgramFault>
    requires { IfOk first (λ len. len ≤ length name.now) }
    ensures { result ≡ type_of_arguments first name.now second }
{
    match (first, second) {
        (Ok(len), Err(FillError::NotPresent)) => worked_of_bytes(&name[..len]).ok_or(
            ProgramFault::UnknownType,
        ),
        (Err(FillError::TooLong), Err(FillError::NotPresent)) => Err(ProgramFault::UnknownType),
        _ => Err(ProgramFault::OneArgument),
    }
}

/// Reads an input, and writes the answer to it over a worked type. `room` has room for the input.
pub(crate) fn answer_input<R: Read + Drop, W: Write>(
    alloc: Global,
    worked: Worked,
    room: Vec<u8>,
    reader: R,
    writer: &mut W,
) -> Result<(), ProgramFault>
    requires empty { room.items ≡ [] }
    requires room { READ_LIMIT ≤ vec_capacity room }
    // If the bytes of the reader are known, the writer gets the answer to them, and a fault is one that they may
    // have.
    ensures answer { OnOk result (IfSome (R.remaining reader) (λ input.
        IsOkAnd (answer_over worked input)
        (Appends (W.contents writer.old) (W.contents writer.new)))) }
    ensures fault { IfErr result (λ fault. IfSome (R.remaining reader) (λ input.
        IsFaultOver (answer_over worked input) fault)) }
    // If writing fails, some first bytes of the answer were written; with any other fault nothing was.
    ensures begun { result ≡ Err ProgramFault.Writing → IfSome (R.remaining reader) (λ input.
        IsOkAnd (answer_over worked input)
        (AppendsFrontOf (W.contents writer.old) (W.contents writer.new))) }
    ensures untouched { IfErr result (λ fault.
        fault ≢ ProgramFault.Writing → writer.new ≡ writer.old) }
{
    let input = read_input(room, reader)?;
    let output = serve_worked(alloc, worked, &input)?;
    write_output(writer, &output)?;
    Ok(())
}

/// The bytes of a reader until its end, or until there is one too many, in this empty vector, which has room for them.
/// A read that was interrupted is tried again.
fn read_input<R: Read + Drop>(room: Vec<u8>, reader: R) -> Result<Vec<u8>, ProgramFault>
    requires empty { room.items ≡ [] }
    requires room { READ_LIMIT ≤ vec_capacity room }
    ensures bytes { IfOk result (λ input. IfSome (R.remaining reader) (λ bytes.
        input.items ≡ take READ_LIMIT bytes)) }
    ensures fault { IfErr result (λ fault. fault ≡ ProgramFault.Reading) }
{
    let mut input = room;
    let mut reader = reader.take(READ_LIMIT as u64);
    match reader.read_to_end(&mut input) {
        Ok(_) => Ok(input),
        Err(_) => Err(ProgramFault::Reading),
    }
}

/// Writes an answer; an empty one needs no call. A write that was interrupted is tried again.
fn write_output<W: Write>(writer: &mut W, output: &[u8]) -> Result<(), ProgramFault>
    ensures written { OnOk result
        (Appends (W.contents writer.old) (W.contents writer.new) output.now) }
    ensures begun { OnErr result
        (AppendsFrontOf (W.contents writer.old) (W.contents writer.new) output.now) }
    ensures fault { IfErr result (λ fault. fault ≡ ProgramFault.Writing) }
    // An empty answer writes nothing.
    ensures succeeds { output.now ≡ [] → IsOk result }
    ensures untouched { output.now ≡ [] → writer.new ≡ writer.old }
{
    if output.is_empty() {
        return Ok(());
    }
    let mut count = 0;
    // The range only shows that the loop ends: no run makes so many calls.
    for _ in 0..u64::MAX {
        match writer.write(&output[count..]) {
            Ok(0) => return Err(ProgramFault::Writing),
            Ok(more) if count + more == output.len() => return Ok(()),
            Ok(more) => count += more,
            Err(error) if error.kind() == ErrorKind::Interrupted => {}
            Err(_) => return Err(ProgramFault::Writing),
        }
    }
    Err(ProgramFault::Writing)
}
