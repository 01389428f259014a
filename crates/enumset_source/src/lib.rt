//! What `enumset_derive` reads whatever enums a source has: the tokens with their places, the numbers of literals and of
//! discriminants, the values of options by their names, and the styles of names in JSON.
#![tactic(auto)]

pub mod literals;
pub mod number;
pub mod option_values;
pub mod place;
pub mod styles;
pub mod token_error;
pub mod tokens;

pub use literals::{LiteralFault, read_literal};
pub use number::Number;
pub use option_values::{
    IntegerType, Map, Representation, Serialized, map_of, representation_of, serialized_of,
};
pub use place::Place;
pub use styles::{Style, style_of, styled};
pub use token_error::TokenError;
pub use tokens::{Kind, Token, Written, tokens_of};
