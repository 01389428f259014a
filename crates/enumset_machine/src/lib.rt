//! Runs of commands over `EnumSet` and `MixedEnumSet`, for every element type, and over the worked types by their
//! names.
#![tactic(auto)]

pub mod answer;
mod commands;
pub mod laws;
pub mod machine;
mod mixed_commands;
mod nothing;
mod run_set;
pub mod runs;
pub mod serve;
mod transcript;
pub mod worked;
pub mod worked_types;

pub use answer::Answer;
pub use machine::{Machine, MixedMachine};
pub use runs::{run, run_into, run_mixed, run_mixed_into};
pub use serve::{INPUT_LIMIT, serve_mixed_text, serve_text};
