//! Worked examples: calls with their operands and their answers, worked out by hand. They show what the definitions
//! that contracts cite are meant to say.
//!
//! Comments show a set by its members, as {A, C}. Tests compare its number or its words, since comparing sets would
//! take longer to prove. Examples of macros, folds and JSON are in `tests_of_enumset`, runs of commands in
//! `enumset_run`.

mod hashes;
mod mixed_sets;
mod no_variant;
mod numbers;
mod operations;
mod order;
mod representations;
mod texts;
mod walks;
mod words;

use enumset_sets::{EnumSet, EnumSetType};

/// The number of a set whose bits are below 128.
fn number<T: EnumSetType>(set: EnumSet<T>) -> u128 {
    set.as_u128_truncated()
}

/// The number of a set that a call may refuse to make.
fn number_if_made<T: EnumSetType>(made: Option<EnumSet<T>>) -> Option<u128> {
    made.map(|set| set.as_u128_truncated())
}
