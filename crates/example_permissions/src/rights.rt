// Written by enumset_derive example_permissions rights from Right: change the source, and write this again.

//! What may be done with a document.

use enumset::{EnumSet, EnumSetNames, EnumSetType, EnumSetTypeWithRepr, names_of, set_json};

/// A right.
#[derive(Clone, Copy, PartialEq, Eq, Debug)]
pub enum Right {
    Read,
    Write,
    Share,
    Delete,
}

impl EnumSetType for Right {
    ghost use Rattle.enumset.specs.Sets.{in_place, lawful_in_integer, lawful_in_place};
    ghost use Rattle.example_permissions.specs.contracts.rights.Right.{the_type};

    type Repr = u8;

    ghost elements = { in_place the_type };

    ghost ALL_BITS = { 15 };

    const ALL_BITS: u8 = 0xF;

    ghost BIT_WIDTH = { 4 };

    const BIT_WIDTH: u32 = 4;

    ghost VARIANT_COUNT = { 4 };

    const VARIANT_COUNT: u32 = 4;

    fn enum_into_u32(self) -> u32 {
        self as u32
    }

    fn enum_from_u32(val: u32) -> Self {
        match val {
            0 => Self::Read,
            1 => Self::Write,
            2 => Self::Share,
            3 => Self::Delete,
            _ => unreachable!(),
        }
    }

    ghost lawful = { lawful_in_place the_type (lawful_in_integer the_type _ tt) };
}

impl EnumSetTypeWithRepr for Right {
    ghost use Rattle.std.proofs.Common.{rules};

    ghost narrow = { Prim.search rules };
}

#[tactic(auto, unfolding(enumset::specs::Sets::place))]
impl EnumSetNames for Right {
    ghost use Rattle.std.specs.Prelude.{codes, ◌∷◌, []};

    ghost names = { codes "Read" ∷ codes "Write" ∷ codes "Share" ∷ codes "Delete" ∷ [] };

    fn names() -> &'static [(Self, &'static str)] {
        names_of!(Right: Read Write Share Delete)
    }

    ghost named = { tt };
}

impl Right {
    ghost use Rattle.std.specs.Prelude.{◌≡◌, IfOk, IfErr, Some, string_bytes};
    ghost use Rattle.serde_json.specs.Written.{compact_text};
    ghost use Rattle.serde_json.specs.Read.{read};
    ghost use Rattle.serde_json.specs.View.{view};
    ghost use Rattle.enumset.specs.Names.{names_of};
    ghost use Rattle.enumset.specs.JsonNames.{list_value, set_of_list};
    ghost use Rattle.enumset.specs.JsonPlain.{IsPlainList};
    ghost use Rattle.enumset.specs.JsonReads.{value_read, IsResult, IsReadOf};
    ghost use Rattle.enumset.specs.declared.set_json.fault.JsonFault.TheVariants.{OutOfMemory};
    ghost use Rattle.enumset.specs.declared.set_json.unknown.Unknown.TheVariants as unknown;

    /// The array of the names of the set's members, in ascending order of their bits. The only fault is
    /// [`set_json::JsonFault::OutOfMemory`].
    pub fn to_json(
        alloc: std::alloc::Global,
        set: &EnumSet<Self>,
    ) -> std::result::Result<serde_json::Value, set_json::JsonFault>
        ensures value { IfOk result (λ value. view value ≡ list_value
            (names_of ⟦<Right as EnumSetType>⟧.elements ⟦<Right as EnumSetNames>⟧.names) set.now) }
        ensures fault { IfErr result (λ fault. fault ≡ OutOfMemory) }
    {
        set_json::to_list(alloc, set)
    }

    /// The set that `to_json` writes as this value. A name that no variant has is a fault.
    ///
    /// The faults are those of [`set_json::from_list`], in the same order. It does not allocate.
    pub fn from_json(
        value: &serde_json::Value,
    ) -> std::result::Result<EnumSet<Self>, set_json::JsonFault>
        ensures { result ≡ set_of_list
            (names_of ⟦<Right as EnumSetType>⟧.elements ⟦<Right as EnumSetNames>⟧.names)
            unknown.Refuse (view value.now) }
    {
        set_json::from_list(value, set_json::Unknown::Refuse)
    }

    /// The string of `to_json`'s value, without spaces. The only fault is
    /// [`set_json::JsonFault::OutOfMemory`].
    pub fn to_json_text(
        alloc: std::alloc::Global,
        set: &EnumSet<Self>,
    ) -> std::result::Result<std::string::String, set_json::JsonFault>
        ensures text { IfOk result (λ text. string_bytes text
            ≡ compact_text (list_value
            (names_of ⟦<Right as EnumSetType>⟧.elements ⟦<Right as EnumSetNames>⟧.names) set.now)) }
        ensures reads { IfOk result (λ text. read (string_bytes text)
            ≡ Some (list_value
            (names_of ⟦<Right as EnumSetType>⟧.elements ⟦<Right as EnumSetNames>⟧.names) set.now)) }
        ensures fault { IfErr result (λ fault. fault ≡ OutOfMemory) }
    {
        set_json::to_list_text(alloc, set)
    }

    /// What `from_json` returns of the value that this string is read as. A name that no variant has is a fault.
    ///
    /// The faults are those of [`set_json::from_list_text`].
    pub fn from_json_text(
        alloc: std::alloc::Global,
        text: &str,
    ) -> std::result::Result<EnumSet<Self>, set_json::JsonFault>
        ensures read { IsReadOf (set_of_list
            (names_of ⟦<Right as EnumSetType>⟧.elements ⟦<Right as EnumSetNames>⟧.names)
            unknown.Refuse) text.now result }
        ensures plain { IsPlainList text.now → IsResult (value_read (set_of_list
            (names_of ⟦<Right as EnumSetType>⟧.elements ⟦<Right as EnumSetNames>⟧.names)
            unknown.Refuse) text.now) result }
    {
        set_json::from_list_text(alloc, text, set_json::Unknown::Refuse)
    }
}
