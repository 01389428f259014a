//! Comparing a reply with the expected one.

use std::fmt::Debug;
use std::process::Abort;

/// Compares the reply to a call with the expected one. Tests call this function, since each `assert_eq!` of their own
/// would take seconds to prove.
pub fn expect<V: Copy + Eq + Debug>(rt: &impl Abort, call: &str, reply: V, wanted: V) {
    assert!(rt; reply == wanted, "{call}: {reply:?}, not {wanted:?}");
}
