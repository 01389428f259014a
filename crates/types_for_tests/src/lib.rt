//! Element types for the tests of `enumset`: with up to 256 variants, the most that an enum may have, with gaps, over
//! many words, and with a form in JSON. `NamedLetters`, `NamedSparse` and `NamedWide` have the variants of the worked
//! types, and names.
//!
//! `enumset_derive` writes most modules from files in `enums/`: change such a file, and call `scripts/written-types`.
//! None of them needs a proof file.
//!
//! With the types of `enumset_worked` they cover each `repr`, each form and width in JSON, `no_super_impls` (`of_64`),
//! gaps, and types with and without operators.
#![tactic(auto, using(enumset::specs::Sets::set_laws))]

pub mod far_bits;
pub mod forms;
pub mod named;
pub mod of_256;
pub mod of_256_names;
pub mod of_64;
pub mod priority;
pub mod priority_names;
pub mod wide;
pub mod wide_names;

pub use far_bits::In17Words;
pub use forms::{In32Bits, InWords, Numbered};
pub use named::{LaterLetters, NamedLetters, NamedSparse};
pub use of_64::Of64;
pub use of_256::Of256;
pub use priority::Priority;
pub use wide::NamedWide;
