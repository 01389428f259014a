//! Sets to and from values of their representation. The module mirrors the helper module `set` of Rust's `enumset`.
pub use enumset_mixed::convert_mixed;
pub use enumset_sets::raw::{get, new};
