//! What a reader does with bits and names that no variant has.

/// What becomes of bits and names that no variant has. `Refuse` is `serialize_deny_unknown` of Rust's `enumset`.
#[derive(Clone, Copy, Debug, PartialEq, Eq)]
pub enum Unknown {
    /// They are left out. Rust's `enumset` leaves out bits unless `serialize_deny_unknown` is set, and never names.
    Drop,
    /// They are a fault.
    Refuse,
}
