//! The commands that the lines of a text write.

mod fields;
pub mod line_command;
pub mod lines;
pub(crate) mod operands;
mod parts;
pub mod tokens;
mod words;
