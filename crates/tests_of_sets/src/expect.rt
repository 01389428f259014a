//! Comparing a reply with the expected one. Tests call these functions, since each `assert_eq!` of their own would take
//! seconds to prove.

use std::fmt::Debug;
use std::process::Abort;

/// Tests the reply to a call, or the replies to calls.
pub fn expect<V: Copy + Eq + Debug>(rt: &impl Abort, call: &str, reply: V, wanted: V) {
    assert!(rt; reply == wanted, "{call}: {reply:?}, not {wanted:?}");
}

/// Tests the reply to a call of a representation.
pub fn expect_at<V: Copy + Eq + Debug>(
    rt: &impl Abort,
    repr: &str,
    call: &str,
    reply: V,
    wanted: V,
) {
    assert!(rt;
        reply == wanted,
        "{call} at {repr}: {reply:?}, not {wanted:?}"
    );
}
