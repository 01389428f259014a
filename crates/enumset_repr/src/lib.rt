//! Representations of sets of small numbers: a bit for each number.
//!
//! - [`repr`]: the trait [`EnumSetTypeRepr`] of representations. Each call is an operation on a finite set of bit
//!   numbers.
//! - [`arrays`]: sets to and from arrays of words, over every representation.
//! - [`ends`]: the least and the greatest member, over every representation.
//! - [`primitive`] and [`primitive_iter`]: an integer as the set of its bits, and the iterator over them, from both
//!   ends.
//! - [`integers`]: `u8`, `u16`, `u32`, `u64` and `u128` as representations.
//! - [`injective_hash`]: the trait [`InjectiveHash`] of representations whose values a hasher can tell apart.
//! - [`comparisons`]: whether two values represent one set, and how they compare.
//! - [`laws`]: laws that a proof learns from a call.
//! - [`asks`]: a count of asks (counted reads of a word) that takes no bytes.
//!
//! Contracts are about the finite sets of `specs/BitSet.antt`. `specs/Number.antt` says which set a number represents,
//! `specs/Words.antt` what the words of 64 bits of a set are, `specs/Ends.antt` what its least and its greatest member
//! are, and `specs/Order.antt` how two sets compare. `specs/Laws` has proved laws about all of these.
#![tactic(auto)]

pub mod arrays;
pub mod asks;
pub mod comparisons;
pub mod ends;
mod halves;
pub mod injective_hash;
pub mod integers;
pub mod laws;
pub mod primitive;
pub mod primitive_iter;
pub mod repr;

pub use arrays::{from_u64_array, to_u64_array, try_from_u64_array, try_to_u64_array};
pub use asks::Asks;
pub use comparisons::{are_same, order_of};
pub use ends::{greatest_bit, least_bit, least_bit_from};
pub use injective_hash::InjectiveHash;
pub use primitive::Primitive;
pub use primitive_iter::PrimitiveIter;
pub use repr::EnumSetTypeRepr;
