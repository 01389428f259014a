//! Worked examples: calls with their operands and their answers, worked out by hand. They show what the definitions
//! that contracts cite are meant to say. More examples of calls of sets are in `tests_of_sets`.

mod calls;
mod folds;
mod json;
mod library;
mod macros;
mod mixed_calls;
