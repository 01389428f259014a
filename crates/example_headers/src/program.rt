//! What the program does: its input and its output.

ghost use Rattle.std.specs.Prelude.{◌≡◌, ◌<◌, length, IfOk};
ghost use Rattle.std.specs.Process.{exit_status};

use crate::digits::decode;
use crate::frame::{Frame, read_frame, write_frame};
use std::process::ExitCode;
use std::{fmt, io};

/// Relays each frame in turn, up to the first line that is not a frame, and says what was understood. Skips empty
/// lines.
pub fn relay<R: Input + Print + Eprint + AllocGlobal>(rt: &R) -> io::Result<ExitCode> {
    for (line, number) in rt.lines(rt.alloc()).zip(1..=u64::MAX) {
        let line = line?;
        if line.is_empty() {
            continue;
        }
        let Some(bytes) = decode(rt.alloc(), line.as_str())? else {
            return stop(rt, number, "not two digits for each byte");
        };
        match read_frame(&bytes) {
            Ok(frame) => relay_frame(rt, number, &frame)?,
            Err(fault) => return stop(rt, number, fault),
        }
    }
    Ok(ExitCode::SUCCESS)
}

/// Says what was understood of a frame, and relays it.
fn relay_frame<R: Print + Eprint + AllocGlobal>(
    rt: &R,
    number: u64,
    frame: &Frame<'_>,
) -> io::Result<()>
    requires { length frame.now.body.now < 256 }
{
    eprintln!(rt; "line {number}: {frame}")?;
    for byte in &write_frame(rt.alloc(), &frame.relayed())? {
        print!(rt; "{byte:02x}")?;
    }
    println!(rt)
}

/// Says at which line the program stops, and why. The exit status is then 2.
fn stop(rt: &impl Eprint, number: u64, why: impl fmt::Display + Drop) -> io::Result<ExitCode>
    ensures { IfOk result (λ status. exit_status status ≡ 2) }
{
    eprintln!(rt; "example_headers: line {number}: {why}")?;
    Ok(ExitCode::from(2))
}
