//! Tests of the program and of its parts together.

mod long_lists;
mod mixed_law;
mod paced;
mod program;
mod refused;
mod runs_into;
mod worked_examples;
