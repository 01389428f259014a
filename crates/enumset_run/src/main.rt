//! Runs lists of commands over sets of an enum's variants.
//!
//! `enumset_run TYPE` reads lines of commands from standard input, runs them over the type of that name,
//! and prints one reply per line.
#![tactic(auto)]

mod ending;
mod fault;
mod program;
#[cfg(test)]
mod tests;

use std::process::ExitCode;

fn main(rt: HostRuntime) -> ExitCode {
    let answered = program::answer(&rt);
    // If standard error fails too, the exit status still tells the fault.
    let _ = ending::report(&answered, &mut rt.stderr());
    ExitCode::from(ending::exit_status(&answered))
}
