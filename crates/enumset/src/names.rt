//! The names of an element type's values.

ghost use Rattle.std.specs.Prelude.{◌≡◌, ◌<◌, ℕ, List, IfSome, length, map, option_map, slice_index};
ghost use Rattle.std.specs.Str.{bytes_eq};
ghost use Rattle.enumset.specs.Names.{names_of, name_of, bit_named, IsNaming};

use enumset_sets::EnumSetType;

/// An element type whose values have names, one for each variant and no two the same.
///
/// Rust's `enumset` takes the names that `serde` derives. Here [`names_of!`](crate::names_of) lists them.
pub trait EnumSetNames: EnumSetType + 'static {
    // The names, one for each bit of the list of bits, in the order of this list.
    ghost names: { List (List ℕ) };

    /// Returns each variant with its name, in the order of the list of bits.
    fn names() -> &'static [(Self, &'static str)]
        ensures { map (λ n. (Self.elements.bit n.0, n.1.now)) result.now
            ≡ names_of Self.elements names };

    /// Returns the value's name.
    final fn name(self) -> &'static str
        ensures { result.now ≡ name_of (names_of Self.elements names) (Self.elements.bit self) }
    {
        let bit = self.enum_into_u32();
        let names = Self::names();
        // In most types the bit of a variant is its index in the list.
        if let Some((value, name)) = names.get(bit as usize)
            && value.enum_into_u32() == bit
        {
            return name;
        }
        for (value, name) in names {
            if value.enum_into_u32() == bit {
                return name;
            }
        }
        ""
    }

    /// Returns the value with the name `text`, if there is one. `FromStr` would have to return a `Result`.
    final fn of_name(text: &str) -> Option<Self>
        ensures { option_map Self.elements.bit result
            ≡ bit_named (names_of Self.elements names) text.now }
    {
        let (_, value) = find_in(Self::names(), text.as_bytes())?;
        Some(value)
    }

    // There are as many names as bits, and no two are the same.
    ghost named: { IsNaming Self.elements.bit_list names };
}

/// Returns the value with this name, if there is one. The search begins at the index `next` of the type's names and
/// then goes on from the front, since most lists and maps have their names in the order of the type. `next` becomes the
/// index after the name that was found.
#[inline(always)]
pub(crate) fn find_value<T: EnumSetNames>(wanted: &[u8], next: &mut usize) -> Option<T>
    ensures { option_map T.elements.bit result
        ≡ bit_named (names_of T.elements T.names) wanted.now }
{
    let names = T::names();
    let start = (*next).min(names.len());
    let (before, after) = names.split_at(start);
    if let Some((place, value)) = find_in(after, wanted) {
        *next = start + place + 1;
        return Some(value);
    }
    let (place, value) = find_in(before, wanted)?;
    *next = place + 1;
    Some(value)
}

/// Returns the index of the first value of a list that has this name, and the value, or `None` if none has it.
#[inline(always)]
fn find_in<T: EnumSetType>(names: &[(T, &str)], wanted: &[u8]) -> Option<(usize, T)>
    ensures within { IfSome result (λ found. found.0 < length names.now) }
    ensures place { IfSome result (λ found.
        slice_index (map (λ n. T.elements.bit n.0) names.now) found.0 ≡ T.elements.bit found.1) }
    ensures named { option_map (λ found. T.elements.bit found.1) result
        ≡ bit_named (map (λ n. (T.elements.bit n.0, n.1.now)) names.now) wanted.now }
{
    for (place, (value, name)) in names.iter().enumerate() {
        if has_bytes(name, wanted) {
            return Some((place, *value));
        }
    }
    None
}

/// Returns whether a name has exactly these bytes. The last eight are compared first, since names that begin alike
/// seldom end alike.
#[inline(always)]
fn has_bytes(name: &str, wanted: &[u8]) -> bool
    ensures { result ≡ bytes_eq name.now wanted.now }
{
    let name = name.as_bytes();
    if name.len() != wanted.len() {
        return false;
    }
    match (name.last_chunk(), wanted.last_chunk()) {
        (Some(end), Some(wanted_end)) => {
            u64::from_le_bytes(*end) == u64::from_le_bytes(*wanted_end) && name == wanted
        }
        _ => name == wanted,
    }
}
