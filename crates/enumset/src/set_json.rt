//! Sets to and from JSON values of `serde_json`, and to and from strings of JSON: as one number, as the array of the
//! set's words of 64 bits, as the list of its members' names, or as a map of names to booleans.
//!
//! These are the forms that the `serde` feature of Rust's `enumset` writes and reads.

mod digits;
mod fault;
mod lists;
mod maps;
mod mixed;
mod mixed_texts;
mod names_read;
mod numbers;
mod plain_lists;
mod plain_maps;
mod plain_numbers;
mod plain_words;
mod scan;
mod texts;
mod unknown;
mod width;
mod words;
mod words_read;

pub use fault::JsonFault;
pub use lists::{from_list, to_list};
pub use maps::{from_map, to_map};
pub use mixed::{mixed_from_number, mixed_from_words, mixed_to_number, mixed_to_words};
pub use mixed_texts::{
    mixed_from_number_text, mixed_from_words_text, mixed_to_number_text, mixed_to_words_text,
};
pub use numbers::{from_number, to_number};
pub use texts::{
    from_list_text, from_map_text, from_number_text, from_words_text, to_list_text, to_map_text,
    to_number_text, to_words_text,
};
pub use unknown::Unknown;
pub use width::JsonWidth;
pub use words::{from_words, to_words};
