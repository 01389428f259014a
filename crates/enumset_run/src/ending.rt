//! How a run of the program ends: what it says on standard error, and its exit status.

ghost use Rattle.std.specs.Prelude.{◌≡◌, ◌++◌, codes, IfErr, OnOk};
ghost use Rattle.std.specs.Io.KnownBytes.{Appends};
ghost use Rattle.enumset_run.specs.Faults.{program_fault_text, status_of};

use crate::fault::ProgramFault;
use std::io::{self, Write};

/// Writes what a run says on standard error: nothing if it succeeded, else the text of its fault in a line.
pub fn report<W: Write>(answered: &Result<(), ProgramFault>, writer: &mut W) -> io::Result<()>
    ensures silent { OnOk answered.now (writer.new ≡ writer.old) }
    ensures said { IfErr answered.now (λ fault. OnOk result (Appends (W.contents writer.old)
        (W.contents writer.new) (program_fault_text fault ++ codes "\n"))) }
{
    match answered {
        Ok(()) => Ok(()),
        Err(fault) => writeln!(writer, "{fault}"),
    }
}

/// The exit status of a run: 0 if it succeeded, else the status of its fault.
pub fn exit_status(answered: &Result<(), ProgramFault>) -> u8
    ensures ok { OnOk answered.now (result ≡ 0) }
    ensures fault { IfErr answered.now (λ fault. result ≡ status_of fault) }
{
    match answered {
        Ok(()) => 0,
        Err(fault) => fault.status(),
    }
}
