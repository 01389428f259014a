//! Decodes numbers and words to sets, encodes them again, and sorts and groups what came.

use crate::digest::Digest;
use crate::random::Random;
use crate::rights::Right;
use crate::settings::Setting;
use crate::symbols::Symbol;
use enumset::set::MixedEnumSet;
use enumset::{EnumSet, EnumSetType};
use std::alloc::{AllocError, Global};
use std::cmp::Ordering;
use std::collections::BTreeMap;

/// How many values of each kind come in a round.
const VALUES: u32 = 20000;

/// The digest of the results of all numbers and rows.
pub fn digest(alloc: Global, seed: u32, rounds: u32) -> Result<u64, AllocError> {
    let mut random = Random::new(seed);
    let mut digest = Digest::new();
    let valid = EnumSet::<Symbol>::all().as_array_truncated();
    for _ in 0..rounds {
        let mut rights = Vec::new(alloc);
        let mut settings = Vec::new(alloc);
        let mut symbols = Vec::new(alloc);
        for _ in 0..VALUES {
            rights.push(right_set(&mut random, &mut digest))?;
            settings.push(setting_set(&mut random, &mut digest))?;
            symbols.push(symbol_set(alloc, &mut random, &mut digest, valid)?)?;
        }
        add_counts(alloc, &rights, &mut digest)?;
        add_sorted(&mut settings, &mut digest);
        add_sorted(&mut symbols, &mut digest);
    }
    Ok(digest.value())
}

/// The set of the valid bits of a number of 32 bits, with calls of its mixed set. A third of the numbers have unknown
/// bits.
fn right_set(random: &mut Random, digest: &mut Digest) -> EnumSet<Right> {
    let kept = if random.is_one_in(2) {
        0xFF_FFFF
    } else {
        0xF_FFFF
    };
    let bits = random.number_of_32_bits() & random.number_of_32_bits() & kept;
    let mut mixed = MixedEnumSet::<Right>::from_repr(bits);
    digest.add(u64::from(mixed.has_unknown_bits()));
    mixed.insert(Right::Read);
    digest.add(mixed.valid_len() as u64);
    digest.add(u64::from(mixed.as_repr()));
    match EnumSet::try_from_u32(bits) {
        Some(set) => {
            digest.add(set.as_u64_truncated());
            set
        }
        None => mixed.as_enumset_truncate(),
    }
}

/// The set of the valid bits of a number of 128 bits. A quarter of the numbers have unknown bits.
fn setting_set(random: &mut Random, digest: &mut Digest) -> EnumSet<Setting> {
    let low = random.number();
    let high = random.number() & if low & 3 == 0 { u64::MAX } else { 0xFFFF_FFFF };
    let number = u128::from(high) << 64 | u128::from(low);
    match EnumSet::<Setting>::try_from_u128(number) {
        Some(set) => {
            let number = set.as_u128();
            digest.add((number >> 64) as u64);
            set
        }
        None => {
            let set = EnumSet::<Setting>::from_u128_truncated(number);
            digest.add(set.len() as u64);
            set
        }
    }
}

/// A row of six words. The last two are 0. About half of the rows have unknown bits, and equal rows are frequent.
fn random_row(random: &mut Random, valid: [u64; 4]) -> [u64; 6] {
    let number = random.number();
    let [first, second, third, fourth] = if number >> 63 == 0 {
        valid
    } else {
        [u64::MAX; 4]
    };
    [
        number & 0xFF & first,
        number >> 8 & 0xF0F & second,
        number >> 16 & 1 & third,
        number >> 17 & 1 & fourth,
        0,
        0,
    ]
}

/// The set of the valid bits of a row's first words: four, five or six of them.
fn symbol_set(
    alloc: Global,
    random: &mut Random,
    digest: &mut Digest,
    valid: [u64; 4],
) -> Result<EnumSet<Symbol>, AllocError> {
    let row = random_row(random, valid);
    let count = 4 + random.below(3);
    let words = &row[..count];
    match EnumSet::<Symbol>::try_from_slice(words) {
        Some(set) => {
            let mut written = [0u64; 4];
            set.copy_into_slice_truncated(&mut written);
            let [first, second, _third, last] = written;
            digest.add(first ^ second.rotate_left(20) ^ last);
            Ok(set)
        }
        None => {
            let set = EnumSet::from_slice_truncated(words);
            for word in &set.to_vec(alloc)? {
                digest.add(*word);
            }
            Ok(set)
        }
    }
}

/// Mixes in each set once, with how often it comes.
fn add_counts(
    alloc: Global,
    sets: &[EnumSet<Right>],
    digest: &mut Digest,
) -> Result<(), AllocError> {
    let mut counts = BTreeMap::new(alloc);
    for set in sets {
        let count: u64 = match counts.get(set) {
            Some(count) => *count,
            None => 0,
        };
        counts
            .insert(*set, count.wrapping_add(1))
            .map_err(AllocError::from)?;
    }
    for (set, count) in counts.iter() {
        digest.add(set.as_u64_truncated());
        digest.add(*count);
    }
    Ok(())
}

/// Mixes in each set that has members once, ascending.
fn add_sorted<T: EnumSetType>(sets: &mut Vec<EnumSet<T>>, digest: &mut Digest) {
    sets.sort_unstable();
    let mut before = EnumSet::new();
    for set in sets {
        if before.cmp(set) == Ordering::Less {
            digest.add(set.as_u64_truncated());
            before = set.copied();
        }
    }
}
