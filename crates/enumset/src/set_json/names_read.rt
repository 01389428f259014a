//! The names of a list or of a map, read one by one.

ghost use Rattle.std.specs.Prelude.{◌≡◌, Some, None, if◌then◌else◌};
ghost use Rattle.std.specs.Option.{option_map_or, option_or};
ghost use Rattle.enumset_repr.specs.BitSet.{empty, insert};
ghost use Rattle.enumset.specs.JsonNames.{unless_unknown, is_unknown};
ghost use Rattle.enumset.specs.Names.{names_of, bit_named};

use super::fault::JsonFault;
use super::unknown::Unknown;
use crate::names::{EnumSetNames, find_value};
use enumset_sets::EnumSet;

/// The names that were read so far.
#[derive(Drop)]
pub(super) struct NamesRead<T: EnumSetNames> {
    /// The values of the known names that were read as members.
    set: EnumSet<T>,
    /// The place of the first name that no value has, if there is one.
    first_unknown: Option<usize>,
    /// The index in the list of all names where the search for the next name begins.
    next: usize,
}

impl<T: EnumSetNames> NamesRead<T> {
    /// Returns the state before any name was read.
    #[inline(always)]
    pub(super) fn new() -> Self
        ensures set { result.set ≡ empty }
        ensures first { result.first_unknown ≡ None }
    {
        NamesRead {
            set: EnumSet::new(),
            first_unknown: None,
            next: 0,
        }
    }

    /// Reads one more name: inserts its value if it is a member, or keeps the place of the first unknown name.
    #[inline(always)]
    pub(super) fn take(&mut self, name: &[u8], is_member: bool, place: usize)
        ensures set { self.new.set ≡ (if is_member
            then option_map_or (insert self.old.set) (bit_named (names_of T.elements T.names) name.now) self.old.set
            else self.old.set) }
        ensures first { self.new.first_unknown ≡ option_or self.old.first_unknown
            (if is_unknown (names_of T.elements T.names) name.now then Some place else None) }
    {
        match find_value(name, &mut self.next) {
            Some(value) if is_member => {
                self.set.insert(value);
            }
            Some(_) => {}
            None => self.first_unknown = self.first_unknown.or(Some(place)),
        }
    }

    /// Returns the set of the names, or [`JsonFault::UnknownName`] if a name is unknown and such names are refused.
    #[inline(always)]
    pub(super) fn into_set(self, unknown: Unknown) -> Result<EnumSet<T>, JsonFault>
        ensures { result ≡ unless_unknown unknown self.first_unknown self.set }
    {
        match (unknown, self.first_unknown) {
            (Unknown::Refuse, Some(place)) => Err(JsonFault::UnknownName(place)),
            _ => Ok(self.set),
        }
    }
}
