//! The flow of facts through a graph, to its fixed point.

use crate::digest::Digest;
use crate::far::Far;
use crate::random::Random;
use crate::symbols::Symbol;
use enumset::{EnumSet, EnumSetType};
use std::alloc::{AllocError, Global};

/// How many nodes a graph has whose facts are four words.
const NODES: usize = 600;

/// How many nodes a graph has whose facts are 1024 words.
const FAR_NODES: usize = 24;

/// More passes than a graph needs. The loops over passes have this bound, since the checker proves that each loop ends.
pub(crate) const PASSES: usize = 1000;

/// A node: the facts that it makes and ends, the facts known at it, and the nodes from which facts come.
pub(crate) struct Node<T: EnumSetType> {
    pub(crate) made: EnumSet<T>,
    pub(crate) ended: EnumSet<T>,
    pub(crate) known: EnumSet<T>,
    pub(crate) sources: [usize; 3],
}

impl<T: EnumSetType> Drop for Node<T> {
    fn drop(self) {
        let Node {
            made: _,
            ended: _,
            known: _,
            sources: _,
        } = self;
    }
}

/// The calls by which facts flow and are read.
pub(crate) trait Flow {
    /// Lets the facts flow until nothing changes.
    fn settle<T: EnumSetType>(nodes: &mut Vec<Node<T>>, digest: &mut Digest);

    /// Mixes in the members of a set: from both ends, or from the front.
    fn add_members<T: EnumSetType>(set: &EnumSet<T>, is_from_both: bool, digest: &mut Digest);
}

/// The digest of the facts of all graphs, where new sets are made.
pub fn digest(alloc: Global, seed: u32, rounds: u32) -> Result<u64, AllocError> {
    digest_by::<NewSets>(alloc, seed, rounds)
}

/// The digest of the facts of all graphs, whichever calls make them.
pub(crate) fn digest_by<F: Flow>(alloc: Global, seed: u32, rounds: u32) -> Result<u64, AllocError> {
    let mut random = Random::new(seed);
    let mut digest = Digest::new();
    let values: Vec<Far> = EnumSet::<Far>::all().iter().collect(alloc)?;
    for _ in 0..rounds {
        let mut nodes = random_nodes(alloc, &mut random)?;
        add_facts::<F, Symbol>(&mut nodes, &mut digest);
        let mut far = random_far_nodes(alloc, &mut random, &values)?;
        add_facts::<F, Far>(&mut far, &mut digest);
    }
    Ok(digest.value())
}

/// Lets the facts of a graph flow, and mixes in the facts of each node.
fn add_facts<F: Flow, T: EnumSetType>(nodes: &mut Vec<Node<T>>, digest: &mut Digest) {
    F::settle(nodes, digest);
    for (at, node) in nodes.iter().enumerate() {
        F::add_members(&node.known, at % 2 == 0, digest);
    }
}

/// Calls that make new sets, and iterators over sets.
struct NewSets;

impl Flow for NewSets {
    fn settle<T: EnumSetType>(nodes: &mut Vec<Node<T>>, digest: &mut Digest) {
        for _ in 0..PASSES {
            let mut has_changed = false;
            for at in 0..nodes.len() {
                let known = facts_at(nodes, at);
                if let Some(node) = nodes.get_mut(at) {
                    if node.known != known {
                        has_changed = true;
                        node.known = known;
                    }
                }
            }
            digest.add(u64::from(has_changed));
            if !has_changed {
                return;
            }
        }
    }

    fn add_members<T: EnumSetType>(set: &EnumSet<T>, is_from_both: bool, digest: &mut Digest) {
        if !is_from_both {
            for member in set.iter() {
                digest.add(u64::from(member.enum_into_u32()));
            }
            return;
        }
        let mut members = set.iter();
        // An iteration takes two members, so half of these are enough. The bound shows that the loop ends.
        for _ in 0..set.len() {
            if let Some(first) = members.next() {
                digest.add(u64::from(first.enum_into_u32()));
            }
            if let Some(last) = members.next_back() {
                digest.add(u64::from(last.enum_into_u32()));
            }
        }
    }
}

/// The facts that are known at a node by what is known at its sources.
fn facts_at<T: EnumSetType>(nodes: &[Node<T>], at: usize) -> EnumSet<T> {
    let mut facts = EnumSet::new();
    let Some(node) = nodes.get(at) else {
        return facts;
    };
    for source in &node.sources {
        if let Some(source) = nodes.get(*source) {
            if !source.known.is_subset(facts.copied()) {
                facts.insert_all(source.known.copied());
            }
        }
    }
    facts.remove_all(node.ended.copied());
    facts.insert_all(node.made.copied());
    facts
}

/// The nodes of a graph whose facts are four words.
fn random_nodes(alloc: Global, random: &mut Random) -> Result<Vec<Node<Symbol>>, AllocError> {
    let mut nodes = Vec::new(alloc);
    for at in 0..NODES {
        let words = [few(random), few(random), few(random), few(random)];
        let ended = [random.number(), few(random), random.number(), few(random)];
        nodes.push(Node {
            made: EnumSet::from_array_truncated(words),
            ended: EnumSet::from_array_truncated(ended),
            known: EnumSet::new(),
            sources: random_sources(random, at, NODES),
        })?;
    }
    Ok(nodes)
}

/// The nodes of a graph whose facts are 1024 words.
fn random_far_nodes(
    alloc: Global,
    random: &mut Random,
    values: &[Far],
) -> Result<Vec<Node<Far>>, AllocError> {
    let mut nodes = Vec::new(alloc);
    for at in 0..FAR_NODES {
        nodes.push(Node {
            made: far_set(values, random.number() & random.number()),
            ended: far_set(values, random.number() & random.number() & random.number()),
            known: EnumSet::new(),
            sources: random_sources(random, at, FAR_NODES),
        })?;
    }
    Ok(nodes)
}

/// The sources of a node: the node seven places on, so that facts go far, and two random ones.
fn random_sources(random: &mut Random, at: usize, count: usize) -> [usize; 3] {
    let nodes = count.max(1);
    [
        (at.saturating_add(7)) % nodes,
        random.number() as usize % nodes,
        random.number() as usize % nodes,
    ]
}

/// A number with few bits: one in thirty-two of them is set.
fn few(random: &mut Random) -> u64 {
    random.number() & random.number() & random.number() & random.number() & random.number()
}

/// The set of those values whose places are bits of a number.
fn far_set(values: &[Far], number: u64) -> EnumSet<Far> {
    let mut set = EnumSet::new();
    let mut bits = number;
    for value in values {
        if bits % 2 == 1 {
            set.insert(*value);
        }
        bits /= 2;
    }
    set
}
