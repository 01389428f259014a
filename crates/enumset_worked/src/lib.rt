//! The worked types: element types that the program can run commands over.
//!
//! `enumset_derive` writes each module from its file in `enums/`: change that file, and call `scripts/written-types`.
#![tactic(auto, using(enumset_sets::specs::Laws::Elements::bits_of_variants))]

pub mod four;
pub mod high;
pub mod letters;
pub mod marks;
pub mod masks;
pub mod pair_number;
pub mod pair_words;
pub mod single;
pub mod sparse;
pub mod wide;

pub use four::Four;
pub use high::High;
pub use letters::Letters;
pub use marks::Marks;
pub use masks::Masks;
pub use pair_number::PairNumber;
pub use pair_words::PairWords;
pub use single::Single;
pub use sparse::Sparse;
pub use wide::Wide;
