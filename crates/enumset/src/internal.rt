//! What a crate with its own representation names, and what the macros call. The module mirrors the module `__internal`
//! of Rust's `enumset`.

pub mod set;

pub use enumset_array::ArrayRepr;
pub use enumset_repr::EnumSetTypeRepr;
