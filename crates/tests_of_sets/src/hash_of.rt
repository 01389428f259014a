//! The hash of a value.

use std::hash::{DefaultHasher, Hash, Hasher};

/// The hash of a value by std's hasher.
pub fn hash_of<V: Hash>(value: &V) -> u64 {
    let mut hasher = DefaultHasher::new();
    value.hash(&mut hasher);
    hasher.finish()
}
