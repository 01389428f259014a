// Written by enumset_derive types_for_tests priority from Priority: change the source, and write this again.

//! An enum whose bits count from the highest.

use enumset::{EnumSet, EnumSetType, EnumSetTypeWithRepr, set_json};

/// Priorities, on bits 15, 14 and 13, so that a set's number is the larger the higher its highest priority.
#[derive(Clone, Copy, PartialEq, Eq, Debug)]
pub enum Priority {
    Urgent,
    Normal,
    Low,
}

impl EnumSetType for Priority {
    ghost use Rattle.std.specs.Prelude.{◌∷◌, []};
    ghost use Rattle.enumset.specs.Sets.{with_bits, lawful_in_integer};
    ghost use Rattle.types_for_tests.specs.contracts.priority.Priority.{the_type};

    type Repr = u16;

    ghost elements = { with_bits the_type (15 ∷ 14 ∷ 13 ∷ []) };

    ghost ALL_BITS = { 57344 };

    const ALL_BITS: u16 = 0xE000;

    ghost BIT_WIDTH = { 16 };

    const BIT_WIDTH: u32 = 16;

    ghost VARIANT_COUNT = { 3 };

    const VARIANT_COUNT: u32 = 3;

    fn enum_into_u32(self) -> u32 {
        match self {
            Self::Urgent => 15,
            Self::Normal => 14,
            Self::Low => 13,
        }
    }

    fn enum_from_u32(val: u32) -> Self {
        match val {
            15 => Self::Urgent,
            14 => Self::Normal,
            13 => Self::Low,
            _ => unreachable!(),
        }
    }

    ghost lawful = { lawful_in_integer the_type _ tt };
}

impl EnumSetTypeWithRepr for Priority {
    ghost use Rattle.std.proofs.Common.{rules};

    ghost narrow = { Prim.search rules };
}

impl Priority {
    ghost use Rattle.std.specs.Prelude.{◌≡◌, ◌↔◌, ◌⊎◌, false, IsOk, IfOk, IfErr, Some, Err, IsTrue};
    ghost use Rattle.std.specs.Prelude.{string_bytes, decimal};
    ghost use Rattle.enumset.specs.Sets.{is_subset, below, number, valid_bits};
    ghost use Rattle.serde_json.specs.Read.{read};
    ghost use Rattle.serde_json.specs.View.{view};
    ghost use Rattle.enumset.specs.Json.{number_value, set_of_number};
    ghost use Rattle.enumset.specs.JsonPlain.{IsPlainNumber};
    ghost use Rattle.enumset.specs.JsonReads.{value_read, IsResult, IsReadOf};
    ghost use Rattle.enumset.specs.declared.set_json.fault.JsonFault.TheVariants.{TooWide, OutOfMemory};
    ghost use Rattle.enumset.specs.declared.set_json.unknown.Unknown.TheVariants as unknown;

    /// The set's number as a `u16`.
    ///
    /// The only fault is [`set_json::JsonFault::TooWide`], if a member is past its bits. It does not allocate.
    pub fn to_json(
        alloc: std::alloc::Global,
        set: &EnumSet<Self>,
    ) -> std::result::Result<serde_json::Value, set_json::JsonFault>
        ensures fits { IsOk result ↔ IsTrue (is_subset set.now (below 16)) }
        ensures value { IfOk result (λ value. view value ≡ number_value (number set.now)) }
        ensures fault { IfErr result (λ fault. fault ≡ TooWide) }
    {
        set_json::to_number(alloc, set, set_json::JsonWidth::U16)
    }

    /// The set that `to_json` writes as this value. Bits that no variant has are left out.
    ///
    /// The faults are those of [`set_json::from_number`], in the same order. It does not allocate.
    pub fn from_json(
        value: &serde_json::Value,
    ) -> std::result::Result<EnumSet<Self>, set_json::JsonFault>
        ensures { result ≡ set_of_number
            (valid_bits ⟦<Priority as EnumSetType>⟧.elements) 16
            unknown.Drop (view value.now) }
    {
        set_json::from_number(value, set_json::JsonWidth::U16, set_json::Unknown::Drop)
    }

    /// The string of `to_json`'s value, without spaces. The faults are [`set_json::JsonFault::TooWide`],
    /// if a member is past its bits, and [`set_json::JsonFault::OutOfMemory`].
    pub fn to_json_text(
        alloc: std::alloc::Global,
        set: &EnumSet<Self>,
    ) -> std::result::Result<std::string::String, set_json::JsonFault>
        ensures text { IfOk result (λ text. string_bytes text ≡ decimal (number set.now)) }
        ensures reads { IfOk result (λ text. read (string_bytes text)
            ≡ Some (number_value (number set.now))) }
        ensures too_wide { (result ≡ Err TooWide) ↔ (is_subset set.now (below 16) ≡ false) }
        ensures fault { IfErr result (λ fault. (fault ≡ TooWide) ⊎ (fault ≡ OutOfMemory)) }
    {
        set_json::to_number_text(alloc, set, set_json::JsonWidth::U16)
    }

    /// What `from_json` returns of the value that this string is read as. Bits that no variant has are left out.
    ///
    /// The faults are those of [`set_json::from_number_text`].
    pub fn from_json_text(
        alloc: std::alloc::Global,
        text: &str,
    ) -> std::result::Result<EnumSet<Self>, set_json::JsonFault>
        ensures read { IsReadOf (set_of_number
            (valid_bits ⟦<Priority as EnumSetType>⟧.elements) 16
            unknown.Drop) text.now result }
        ensures plain { IsPlainNumber text.now → IsResult (value_read (set_of_number
            (valid_bits ⟦<Priority as EnumSetType>⟧.elements) 16
            unknown.Drop) text.now) result }
    {
        set_json::from_number_text(
            alloc,
            text,
            set_json::JsonWidth::U16,
            set_json::Unknown::Drop,
        )
    }
}
