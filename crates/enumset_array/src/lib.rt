//! Representations of many words, and iterators over them that read the words a bounded number of times.
//!
//! - [`array_repr`]: the representation [`ArrayRepr`], of any number of words.
//! - [`array_iter`]: its iterator, from both ends.
//! - [`row`]: a list of words that can be read only by two calls, each of which counts as an ask.
//! - [`cursors`]: two cursors over a row, and a step from either end.
//! - [`traversal`]: many steps, with a bound on the number of asks.
//! - [`shown_row`]: a row that can show its count of asks.
//!
//! The count of asks takes no bytes at run time: only contracts see it. `specs/Words.antt` of `enumset_repr` says
//! which set a list of words represents, and `specs/ArrayWords.antt` which words of an `ArrayRepr` are in use.
#![tactic(auto)]

pub mod array_iter;
pub mod array_repr;
pub mod cursors;
mod lanes;
mod operators;
mod order;
pub mod row;
mod set_operation;
pub mod shown_row;
pub mod traversal;
mod words;

pub use array_iter::ArrayIter;
pub use array_repr::ArrayRepr;
pub use cursors::{Cursors, step_back, step_front};
pub use row::Row;
pub use shown_row::ShownRow;
pub use traversal::{End, walk, walk_into};
