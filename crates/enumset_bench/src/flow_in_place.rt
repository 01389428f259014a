//! The flow of facts through the graphs of `flow`, by calls that change a set in place, that take a reference and that
//! take members out.

use crate::digest::Digest;
use crate::flow::{Flow, Node, PASSES, digest_by};
use enumset::{EnumSet, EnumSetType};
use std::alloc::{AllocError, Global};

/// The digest of the facts of all graphs, the same as in `flow`.
pub fn digest(alloc: Global, seed: u32, rounds: u32) -> Result<u64, AllocError> {
    digest_by::<InPlace>(alloc, seed, rounds)
}

/// Calls that change a set in place, that take a reference and that take members out.
pub(crate) struct InPlace;

impl Flow for InPlace {
    fn settle<T: EnumSetType>(nodes: &mut Vec<Node<T>>, digest: &mut Digest) {
        let mut facts = EnumSet::new();
        for _ in 0..PASSES {
            let mut has_changed = false;
            for at in 0..nodes.len() {
                gather(nodes, at, &mut facts);
                if let Some(node) = nodes.get_mut(at) {
                    facts.difference_with(&node.ended);
                    facts.union_with(&node.made);
                    // A set that gains nothing is only read.
                    if !facts.is_subset_of(&node.known) {
                        node.known.union_with(&facts);
                        has_changed = true;
                    }
                }
            }
            digest.add(u64::from(has_changed));
            if !has_changed {
                return;
            }
        }
    }

    // Two jobs call this. Where it is not inlined into both, each takes 1.3% more instructions.
    #[inline(always)]
    fn add_members<T: EnumSetType>(set: &EnumSet<T>, is_from_both: bool, digest: &mut Digest) {
        let mut left = set.copied();
        while let Some(first) = left.pop_first() {
            digest.add(u64::from(first.enum_into_u32()));
            if is_from_both {
                if let Some(last) = left.pop_last() {
                    digest.add(u64::from(last.enum_into_u32()));
                }
            }
        }
    }
}

/// Makes `facts` those that are known at the sources of a node.
pub(crate) fn gather<T: EnumSetType>(nodes: &[Node<T>], at: usize, facts: &mut EnumSet<T>) {
    let Some(node) = nodes.get(at) else {
        return;
    };
    let [first, second, third] = node.sources;
    if let Some(source) = nodes.get(first) {
        *facts = source.known.copied();
    }
    for other in [second, third] {
        if let Some(source) = nodes.get(other) {
            facts.union_with(&source.known);
        }
    }
}
