// Written by enumset_derive types_derived permissions from Permission: change the source, and write this again.

//! What an account may do with a document.

use enumset::{EnumSet, EnumSetNames, EnumSetType, EnumSetTypeWithRepr, names_of, set_json};

/// One right.
#[derive(Clone, Copy, PartialEq, Eq, Debug, Hash)]
#[non_exhaustive]
pub enum Permission {
    /// Look at it.
    Read,
    /// Change it.
    Write,
    /// Say something about it.
    AddComment,
    /// Give it away.
    ChangeOwner,
}

impl EnumSetType for Permission {
    ghost use Rattle.enumset.specs.Sets.{in_place, lawful_in_integer, lawful_in_place};
    ghost use Rattle.types_derived.specs.contracts.permissions.Permission.{the_type};

    type Repr = u16;

    ghost elements = { in_place the_type };

    ghost ALL_BITS = { 15 };

    const ALL_BITS: u16 = 0xF;

    ghost BIT_WIDTH = { 4 };

    const BIT_WIDTH: u32 = 4;

    ghost VARIANT_COUNT = { 4 };

    const VARIANT_COUNT: u32 = 4;

    fn enum_into_u32(self) -> u32 {
        self as u32
    }

    fn enum_from_u32(val: u32) -> Self {
        match val {
            0 => Self::Read,
            1 => Self::Write,
            2 => Self::AddComment,
            3 => Self::ChangeOwner,
            _ => unreachable!(),
        }
    }

    ghost lawful = { lawful_in_place the_type (lawful_in_integer the_type _ tt) };
}

impl EnumSetTypeWithRepr for Permission {
    ghost use Rattle.std.proofs.Common.{rules};

    ghost narrow = { Prim.search rules };
}

#[tactic(auto, unfolding(enumset::specs::Sets::place))]
impl EnumSetNames for Permission {
    ghost use Rattle.std.specs.Prelude.{codes, ◌∷◌, []};

    ghost names = { codes "read" ∷ codes "write" ∷ codes "add_comment" ∷ codes "hand-over" ∷
        [] };

    fn names() -> &'static [(Self, &'static str)] {
        names_of!(
            Permission: Read "read" Write "write" AddComment "add_comment" ChangeOwner "hand-over"
        )
    }

    ghost named = { tt };
}

/// The intersection of `{self}` and the set that `rhs` becomes.
impl<O: std::convert::Into<EnumSet<Permission>>> std::ops::BitAnd<O> for Permission {
    ghost use Rattle.std.specs.Prelude.{◌≡◌};
    ghost use Rattle.enumset.specs.Sets as set;

    type Output = EnumSet<Permission>;

    ghost bitand_gives = { λ a b r. (s t : set.BitSet)
        × (s ≡ set.only (⟦<Permission as EnumSetType>⟧.elements.bit a))
        × O.converts b t × (r ≡ set.intersection s t) };

    fn bitand(self, rhs: O) -> EnumSet<Self> {
        EnumSet::only(self).intersection(rhs.into())
    }
}

/// The union of `{self}` and the set that `rhs` becomes.
impl<O: std::convert::Into<EnumSet<Permission>>> std::ops::BitOr<O> for Permission {
    ghost use Rattle.std.specs.Prelude.{◌≡◌};
    ghost use Rattle.enumset.specs.Sets as set;

    type Output = EnumSet<Permission>;

    ghost bitor_gives = { λ a b r. (s t : set.BitSet)
        × (s ≡ set.only (⟦<Permission as EnumSetType>⟧.elements.bit a))
        × O.converts b t × (r ≡ set.union s t) };

    fn bitor(self, rhs: O) -> EnumSet<Self> {
        EnumSet::only(self).union(rhs.into())
    }
}

/// The symmetric difference of `{self}` and the set that `rhs` becomes.
impl<O: std::convert::Into<EnumSet<Permission>>> std::ops::BitXor<O> for Permission {
    ghost use Rattle.std.specs.Prelude.{◌≡◌};
    ghost use Rattle.enumset.specs.Sets as set;

    type Output = EnumSet<Permission>;

    ghost bitxor_gives = { λ a b r. (s t : set.BitSet)
        × (s ≡ set.only (⟦<Permission as EnumSetType>⟧.elements.bit a))
        × O.converts b t × (r ≡ set.symmetric_difference s t) };

    fn bitxor(self, rhs: O) -> EnumSet<Self> {
        EnumSet::only(self).symmetric_difference(rhs.into())
    }
}

/// The difference of `{self}` and the set that `rhs` becomes.
impl<O: std::convert::Into<EnumSet<Permission>>> std::ops::Sub<O> for Permission {
    ghost use Rattle.std.specs.Prelude.{◌≡◌};
    ghost use Rattle.enumset.specs.Sets as set;

    type Output = EnumSet<Permission>;

    ghost sub_gives = { λ a b r. (s t : set.BitSet)
        × (s ≡ set.only (⟦<Permission as EnumSetType>⟧.elements.bit a))
        × O.converts b t × (r ≡ set.difference s t) };

    fn sub(self, rhs: O) -> EnumSet<Self> {
        EnumSet::only(self).difference(rhs.into())
    }
}

/// The set of all other elements.
impl std::ops::Not for Permission {
    ghost use Rattle.std.specs.Prelude.{◌≡◌};
    ghost use Rattle.enumset.specs.Sets as set;
    ghost use Rattle.enumset.specs.Sets.{valid_bits};

    type Output = EnumSet<Permission>;

    ghost not_gives = { λ a r. r ≡ set.difference
        (valid_bits ⟦<Permission as EnumSetType>⟧.elements)
        (set.only (⟦<Permission as EnumSetType>⟧.elements.bit a)) };

    fn not(self) -> EnumSet<Self> {
        !EnumSet::only(self)
    }
}

impl Permission {
    ghost use Rattle.std.specs.Prelude.{◌≡◌, IfOk, IfErr, Some, string_bytes};
    ghost use Rattle.serde_json.specs.Written.{compact_text};
    ghost use Rattle.serde_json.specs.Read.{read};
    ghost use Rattle.serde_json.specs.View.{view};
    ghost use Rattle.enumset.specs.Names.{names_of};
    ghost use Rattle.enumset.specs.JsonNames.{list_value, set_of_list};
    ghost use Rattle.enumset.specs.JsonPlain.{IsPlainList};
    ghost use Rattle.enumset.specs.JsonReads.{value_read, IsResult, IsReadOf};
    ghost use Rattle.enumset.specs.declared.set_json.fault.JsonFault.TheVariants.{OutOfMemory};
    ghost use Rattle.enumset.specs.declared.set_json.unknown.Unknown.TheVariants as unknown;

    /// The array of the names of the set's members, in ascending order of their bits. The only fault is
    /// [`set_json::JsonFault::OutOfMemory`].
    pub fn to_json(
        alloc: std::alloc::Global,
        set: &EnumSet<Self>,
    ) -> std::result::Result<serde_json::Value, set_json::JsonFault>
        ensures value { IfOk result (λ value. view value ≡ list_value
            (names_of ⟦<Permission as EnumSetType>⟧.elements ⟦<Permission as EnumSetNames>⟧.names) set.now) }
        ensures fault { IfErr result (λ fault. fault ≡ OutOfMemory) }
    {
        set_json::to_list(alloc, set)
    }

    /// The set that `to_json` writes as this value. Names that no variant has are left out.
    ///
    /// The faults are those of [`set_json::from_list`], in the same order. It does not allocate.
    pub fn from_json(
        value: &serde_json::Value,
    ) -> std::result::Result<EnumSet<Self>, set_json::JsonFault>
        ensures { result ≡ set_of_list
            (names_of ⟦<Permission as EnumSetType>⟧.elements ⟦<Permission as EnumSetNames>⟧.names)
            unknown.Drop (view value.now) }
    {
        set_json::from_list(value, set_json::Unknown::Drop)
    }

    /// The string of `to_json`'s value, without spaces. The only fault is
    /// [`set_json::JsonFault::OutOfMemory`].
    pub fn to_json_text(
        alloc: std::alloc::Global,
        set: &EnumSet<Self>,
    ) -> std::result::Result<std::string::String, set_json::JsonFault>
        ensures text { IfOk result (λ text. string_bytes text
            ≡ compact_text (list_value
            (names_of ⟦<Permission as EnumSetType>⟧.elements ⟦<Permission as EnumSetNames>⟧.names) set.now)) }
        ensures reads { IfOk result (λ text. read (string_bytes text)
            ≡ Some (list_value
            (names_of ⟦<Permission as EnumSetType>⟧.elements ⟦<Permission as EnumSetNames>⟧.names) set.now)) }
        ensures fault { IfErr result (λ fault. fault ≡ OutOfMemory) }
    {
        set_json::to_list_text(alloc, set)
    }

    /// What `from_json` returns of the value that this string is read as. Names that no variant has are left out.
    ///
    /// The faults are those of [`set_json::from_list_text`].
    pub fn from_json_text(
        alloc: std::alloc::Global,
        text: &str,
    ) -> std::result::Result<EnumSet<Self>, set_json::JsonFault>
        ensures read { IsReadOf (set_of_list
            (names_of ⟦<Permission as EnumSetType>⟧.elements ⟦<Permission as EnumSetNames>⟧.names)
            unknown.Drop) text.now result }
        ensures plain { IsPlainList text.now → IsResult (value_read (set_of_list
            (names_of ⟦<Permission as EnumSetType>⟧.elements ⟦<Permission as EnumSetNames>⟧.names)
            unknown.Drop) text.now) result }
    {
        set_json::from_list_text(alloc, text, set_json::Unknown::Drop)
    }
}
