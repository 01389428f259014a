//! The flow of facts through the graphs of `flow`, where a call that changes a set also says whether it did.

use crate::digest::Digest;
use crate::flow::{Flow, Node, PASSES, digest_by};
use crate::flow_in_place::{InPlace, gather};
use enumset::{EnumSet, EnumSetType};
use std::alloc::{AllocError, Global};

/// The digest of the facts of all graphs, the same as in `flow`.
pub fn digest(alloc: Global, seed: u32, rounds: u32) -> Result<u64, AllocError> {
    digest_by::<ByAnswers>(alloc, seed, rounds)
}

/// Calls that change a set in place and say whether they did.
struct ByAnswers;

impl Flow for ByAnswers {
    fn settle<T: EnumSetType>(nodes: &mut Vec<Node<T>>, digest: &mut Digest) {
        let mut facts = EnumSet::new();
        for _ in 0..PASSES {
            let mut has_changed = false;
            for at in 0..nodes.len() {
                gather(nodes, at, &mut facts);
                if let Some(node) = nodes.get_mut(at) {
                    facts.difference_with(&node.ended);
                    facts.union_with(&node.made);
                    has_changed |= node.known.union_with(&facts);
                }
            }
            digest.add(u64::from(has_changed));
            if !has_changed {
                return;
            }
        }
    }

    fn add_members<T: EnumSetType>(set: &EnumSet<T>, is_from_both: bool, digest: &mut Digest) {
        InPlace::add_members(set, is_from_both, digest);
    }
}
