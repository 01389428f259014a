//! Relays frames, and keeps the flags of later versions.
//!
//! `example_headers` reads frames in hexadecimal digits from standard input, one a line, and writes each frame that is
//! sent on. Standard error says what was understood.
#![tactic(auto, using(enumset::specs::Sets::set_laws))]

mod digits;
mod flag;
mod flags;
mod frame;
mod newer_flag;
mod program;

use std::process::ExitCode;

fn main(rt: HostRuntime) -> ExitCode {
    match program::relay(&rt) {
        Ok(status) => status,
        Err(error) => {
            let _ = eprintln!(rt; "example_headers: {error}");
            ExitCode::from(2)
        }
    }
}
