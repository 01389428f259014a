//! Sets to and from JSON strings, by the form.

use enumset::set_json::{
    JsonFault, JsonWidth, Unknown, from_list_text, from_map_text, from_number_text,
    from_words_text, to_list_text, to_map_text, to_number_text, to_words_text,
};
use enumset::{EnumSet, EnumSetNames};
use std::alloc::Global;

/// The forms of a set. Numbers have 64 bits.
#[derive(Clone, Copy)]
pub enum Form {
    Number,
    Words,
    List,
    Map,
}

/// Writes a set in a form.
pub fn write<T: EnumSetNames>(
    alloc: Global,
    form: Form,
    set: &EnumSet<T>,
) -> Result<String, JsonFault> {
    match form {
        Form::Number => to_number_text(alloc, set, JsonWidth::U64),
        Form::Words => to_words_text(alloc, set),
        Form::List => to_list_text(alloc, set),
        Form::Map => to_map_text(alloc, set),
    }
}

/// Reads a text of a form.
pub fn read<T: EnumSetNames>(
    alloc: Global,
    form: Form,
    text: &str,
) -> Result<EnumSet<T>, JsonFault> {
    match form {
        Form::Number => from_number_text(alloc, text, JsonWidth::U64, Unknown::Refuse),
        Form::Words => from_words_text(alloc, text, Unknown::Refuse),
        Form::List => from_list_text(alloc, text, Unknown::Refuse),
        Form::Map => from_map_text(alloc, text, Unknown::Refuse),
    }
}
