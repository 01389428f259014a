// Written by enumset_derive types_for_tests forms from Numbered, InWords, In32Bits: change the source, and write this again.

//! Enums whose sets are numbers, and words, in JSON.

use enumset::internal::ArrayRepr;
use enumset::{EnumSet, EnumSetType, EnumSetTypeWithRepr, set_json};

/// Rights whose sets are numbers.
#[derive(Clone, Copy, PartialEq, Eq, Debug)]
pub enum Numbered {
    Read,
    Write,
    Share,
}

impl EnumSetType for Numbered {
    ghost use Rattle.enumset.specs.Sets.{in_place, lawful_in_integer, lawful_in_place};
    ghost use Rattle.types_for_tests.specs.contracts.forms.Numbered.{the_type};

    type Repr = u8;

    ghost elements = { in_place the_type };

    ghost ALL_BITS = { 7 };

    const ALL_BITS: u8 = 0x7;

    ghost BIT_WIDTH = { 3 };

    const BIT_WIDTH: u32 = 3;

    ghost VARIANT_COUNT = { 3 };

    const VARIANT_COUNT: u32 = 3;

    fn enum_into_u32(self) -> u32 {
        self as u32
    }

    fn enum_from_u32(val: u32) -> Self {
        match val {
            0 => Self::Read,
            1 => Self::Write,
            2 => Self::Share,
            _ => unreachable!(),
        }
    }

    ghost lawful = { lawful_in_place the_type (lawful_in_integer the_type _ tt) };
}

impl EnumSetTypeWithRepr for Numbered {
    ghost use Rattle.std.proofs.Common.{rules};

    ghost narrow = { Prim.search rules };
}

impl Numbered {
    ghost use Rattle.std.specs.Prelude.{◌≡◌, ◌↔◌, ◌⊎◌, false, IsOk, IfOk, IfErr, Some, Err, IsTrue};
    ghost use Rattle.std.specs.Prelude.{string_bytes, decimal};
    ghost use Rattle.enumset.specs.Sets.{is_subset, below, number, valid_bits};
    ghost use Rattle.serde_json.specs.Read.{read};
    ghost use Rattle.serde_json.specs.View.{view};
    ghost use Rattle.enumset.specs.Json.{number_value, set_of_number};
    ghost use Rattle.enumset.specs.JsonPlain.{IsPlainNumber};
    ghost use Rattle.enumset.specs.JsonReads.{value_read, IsResult, IsReadOf};
    ghost use Rattle.enumset.specs.declared.set_json.fault.JsonFault.TheVariants.{TooWide, OutOfMemory};
    ghost use Rattle.enumset.specs.declared.set_json.unknown.Unknown.TheVariants as unknown;

    /// The set's number as a `u8`.
    ///
    /// The only fault is [`set_json::JsonFault::TooWide`], if a member is past its bits. It does not allocate.
    pub fn to_json(
        alloc: std::alloc::Global,
        set: &EnumSet<Self>,
    ) -> std::result::Result<serde_json::Value, set_json::JsonFault>
        ensures fits { IsOk result ↔ IsTrue (is_subset set.now (below 8)) }
        ensures value { IfOk result (λ value. view value ≡ number_value (number set.now)) }
        ensures fault { IfErr result (λ fault. fault ≡ TooWide) }
    {
        set_json::to_number(alloc, set, set_json::JsonWidth::U8)
    }

    /// The set that `to_json` writes as this value. Bits that no variant has are left out.
    ///
    /// The faults are those of [`set_json::from_number`], in the same order. It does not allocate.
    pub fn from_json(
        value: &serde_json::Value,
    ) -> std::result::Result<EnumSet<Self>, set_json::JsonFault>
        ensures { result ≡ set_of_number
            (valid_bits ⟦<Numbered as EnumSetType>⟧.elements) 8
            unknown.Drop (view value.now) }
    {
        set_json::from_number(value, set_json::JsonWidth::U8, set_json::Unknown::Drop)
    }

    /// The string of `to_json`'s value, without spaces. The faults are [`set_json::JsonFault::TooWide`],
    /// if a member is past its bits, and [`set_json::JsonFault::OutOfMemory`].
    pub fn to_json_text(
        alloc: std::alloc::Global,
        set: &EnumSet<Self>,
    ) -> std::result::Result<std::string::String, set_json::JsonFault>
        ensures text { IfOk result (λ text. string_bytes text ≡ decimal (number set.now)) }
        ensures reads { IfOk result (λ text. read (string_bytes text)
            ≡ Some (number_value (number set.now))) }
        ensures too_wide { (result ≡ Err TooWide) ↔ (is_subset set.now (below 8) ≡ false) }
        ensures fault { IfErr result (λ fault. (fault ≡ TooWide) ⊎ (fault ≡ OutOfMemory)) }
    {
        set_json::to_number_text(alloc, set, set_json::JsonWidth::U8)
    }

    /// What `from_json` returns of the value that this string is read as. Bits that no variant has are left out.
    ///
    /// The faults are those of [`set_json::from_number_text`].
    pub fn from_json_text(
        alloc: std::alloc::Global,
        text: &str,
    ) -> std::result::Result<EnumSet<Self>, set_json::JsonFault>
        ensures read { IsReadOf (set_of_number
            (valid_bits ⟦<Numbered as EnumSetType>⟧.elements) 8
            unknown.Drop) text.now result }
        ensures plain { IsPlainNumber text.now → IsResult (value_read (set_of_number
            (valid_bits ⟦<Numbered as EnumSetType>⟧.elements) 8
            unknown.Drop) text.now) result }
    {
        set_json::from_number_text(
            alloc,
            text,
            set_json::JsonWidth::U8,
            set_json::Unknown::Drop,
        )
    }
}

/// Two variants of four words, whose sets are these. Unknown bits are a fault.
#[derive(Clone, Copy, PartialEq, Eq, Debug)]
pub enum InWords {
    Low = 1,
    High = 200,
}

impl EnumSetType for InWords {
    ghost use Rattle.std.specs.Prelude.{◌∷◌, []};
    ghost use Rattle.enumset.specs.Sets.{with_bits, lawful_in_words};
    ghost use Rattle.types_for_tests.specs.contracts.forms.InWords.{the_type};

    type Repr = ArrayRepr<4>;

    ghost elements = { with_bits the_type (1 ∷ 200 ∷ []) };

    ghost ALL_BITS = { 2 ∷ 0 ∷ 0 ∷ 256 ∷ [] };

    const ALL_BITS: ArrayRepr<4> = ArrayRepr([0x2, 0x0, 0x0, 0x100]);

    ghost BIT_WIDTH = { 201 };

    const BIT_WIDTH: u32 = 201;

    ghost VARIANT_COUNT = { 2 };

    const VARIANT_COUNT: u32 = 2;

    fn enum_into_u32(self) -> u32 {
        self as u32
    }

    fn enum_from_u32(val: u32) -> Self {
        match val {
            1 => Self::Low,
            200 => Self::High,
            _ => unreachable!(),
        }
    }

    ghost lawful = { lawful_in_words the_type _ tt };
}

impl InWords {
    ghost use Rattle.std.specs.Prelude.{◌≡◌, IfOk, IfErr, Some, string_bytes};
    ghost use Rattle.enumset.specs.Sets.{words, valid_bits};
    ghost use Rattle.serde_json.specs.Written.{compact_text};
    ghost use Rattle.serde_json.specs.Read.{read};
    ghost use Rattle.serde_json.specs.View.{view};
    ghost use Rattle.enumset.specs.Json.{words_value, set_of_words};
    ghost use Rattle.enumset.specs.JsonPlain.{IsPlainWords};
    ghost use Rattle.enumset.specs.JsonReads.{value_read, IsResult, IsReadOf};
    ghost use Rattle.enumset.specs.declared.set_json.fault.JsonFault.TheVariants.{OutOfMemory};
    ghost use Rattle.enumset.specs.declared.set_json.unknown.Unknown.TheVariants as unknown;

    /// The array of the set's words of 64 bits, the lowest first. The only fault is
    /// [`set_json::JsonFault::OutOfMemory`].
    pub fn to_json(
        alloc: std::alloc::Global,
        set: &EnumSet<Self>,
    ) -> std::result::Result<serde_json::Value, set_json::JsonFault>
        ensures value { IfOk result (λ value. view value ≡ words_value (words set.now 4)) }
        ensures fault { IfErr result (λ fault. fault ≡ OutOfMemory) }
    {
        set_json::to_words(alloc, set)
    }

    /// The set that `to_json` writes as this value. A bit that no variant has is a fault.
    ///
    /// The faults are those of [`set_json::from_words`], in the same order. It does not allocate.
    pub fn from_json(
        value: &serde_json::Value,
    ) -> std::result::Result<EnumSet<Self>, set_json::JsonFault>
        ensures { result ≡ set_of_words
            (valid_bits ⟦<InWords as EnumSetType>⟧.elements)
            unknown.Refuse (view value.now) }
    {
        set_json::from_words(value, set_json::Unknown::Refuse)
    }

    /// The string of `to_json`'s value, without spaces. The only fault is
    /// [`set_json::JsonFault::OutOfMemory`].
    pub fn to_json_text(
        alloc: std::alloc::Global,
        set: &EnumSet<Self>,
    ) -> std::result::Result<std::string::String, set_json::JsonFault>
        ensures text { IfOk result (λ text. string_bytes text
            ≡ compact_text (words_value (words set.now 4))) }
        ensures reads { IfOk result (λ text. read (string_bytes text)
            ≡ Some (words_value (words set.now 4))) }
        ensures fault { IfErr result (λ fault. fault ≡ OutOfMemory) }
    {
        set_json::to_words_text(alloc, set)
    }

    /// What `from_json` returns of the value that this string is read as. A bit that no variant has is a fault.
    ///
    /// The faults are those of [`set_json::from_words_text`].
    pub fn from_json_text(
        alloc: std::alloc::Global,
        text: &str,
    ) -> std::result::Result<EnumSet<Self>, set_json::JsonFault>
        ensures read { IsReadOf (set_of_words
            (valid_bits ⟦<InWords as EnumSetType>⟧.elements)
            unknown.Refuse) text.now result }
        ensures plain { IsPlainWords text.now → IsResult (value_read (set_of_words
            (valid_bits ⟦<InWords as EnumSetType>⟧.elements)
            unknown.Refuse) text.now) result }
    {
        set_json::from_words_text(alloc, text, set_json::Unknown::Refuse)
    }
}

/// Two variants, on bits 0 and 31, whose sets are numbers of 32 bits.
#[derive(Clone, Copy, PartialEq, Eq, Debug)]
pub enum In32Bits {
    A,
    B = 31,
}

impl EnumSetType for In32Bits {
    ghost use Rattle.std.specs.Prelude.{◌∷◌, []};
    ghost use Rattle.enumset.specs.Sets.{with_bits, lawful_in_integer};
    ghost use Rattle.types_for_tests.specs.contracts.forms.In32Bits.{the_type};

    type Repr = u32;

    ghost elements = { with_bits the_type (0 ∷ 31 ∷ []) };

    ghost ALL_BITS = { 2147483649 };

    const ALL_BITS: u32 = 0x80000001;

    ghost BIT_WIDTH = { 32 };

    const BIT_WIDTH: u32 = 32;

    ghost VARIANT_COUNT = { 2 };

    const VARIANT_COUNT: u32 = 2;

    fn enum_into_u32(self) -> u32 {
        self as u32
    }

    fn enum_from_u32(val: u32) -> Self {
        match val {
            0 => Self::A,
            31 => Self::B,
            _ => unreachable!(),
        }
    }

    ghost lawful = { lawful_in_integer the_type _ tt };
}

impl EnumSetTypeWithRepr for In32Bits {
    ghost use Rattle.std.proofs.Common.{rules};

    ghost narrow = { Prim.search rules };
}

impl In32Bits {
    ghost use Rattle.std.specs.Prelude.{◌≡◌, ◌↔◌, ◌⊎◌, false, IsOk, IfOk, IfErr, Some, Err, IsTrue};
    ghost use Rattle.std.specs.Prelude.{string_bytes, decimal};
    ghost use Rattle.enumset.specs.Sets.{is_subset, below, number, valid_bits};
    ghost use Rattle.serde_json.specs.Read.{read};
    ghost use Rattle.serde_json.specs.View.{view};
    ghost use Rattle.enumset.specs.Json.{number_value, set_of_number};
    ghost use Rattle.enumset.specs.JsonPlain.{IsPlainNumber};
    ghost use Rattle.enumset.specs.JsonReads.{value_read, IsResult, IsReadOf};
    ghost use Rattle.enumset.specs.declared.set_json.fault.JsonFault.TheVariants.{TooWide, OutOfMemory};
    ghost use Rattle.enumset.specs.declared.set_json.unknown.Unknown.TheVariants as unknown;

    /// The set's number as a `u32`.
    ///
    /// The only fault is [`set_json::JsonFault::TooWide`], if a member is past its bits. It does not allocate.
    pub fn to_json(
        alloc: std::alloc::Global,
        set: &EnumSet<Self>,
    ) -> std::result::Result<serde_json::Value, set_json::JsonFault>
        ensures fits { IsOk result ↔ IsTrue (is_subset set.now (below 32)) }
        ensures value { IfOk result (λ value. view value ≡ number_value (number set.now)) }
        ensures fault { IfErr result (λ fault. fault ≡ TooWide) }
    {
        set_json::to_number(alloc, set, set_json::JsonWidth::U32)
    }

    /// The set that `to_json` writes as this value. Bits that no variant has are left out.
    ///
    /// The faults are those of [`set_json::from_number`], in the same order. It does not allocate.
    pub fn from_json(
        value: &serde_json::Value,
    ) -> std::result::Result<EnumSet<Self>, set_json::JsonFault>
        ensures { result ≡ set_of_number
            (valid_bits ⟦<In32Bits as EnumSetType>⟧.elements) 32
            unknown.Drop (view value.now) }
    {
        set_json::from_number(value, set_json::JsonWidth::U32, set_json::Unknown::Drop)
    }

    /// The string of `to_json`'s value, without spaces. The faults are [`set_json::JsonFault::TooWide`],
    /// if a member is past its bits, and [`set_json::JsonFault::OutOfMemory`].
    pub fn to_json_text(
        alloc: std::alloc::Global,
        set: &EnumSet<Self>,
    ) -> std::result::Result<std::string::String, set_json::JsonFault>
        ensures text { IfOk result (λ text. string_bytes text ≡ decimal (number set.now)) }
        ensures reads { IfOk result (λ text. read (string_bytes text)
            ≡ Some (number_value (number set.now))) }
        ensures too_wide { (result ≡ Err TooWide) ↔ (is_subset set.now (below 32) ≡ false) }
        ensures fault { IfErr result (λ fault. (fault ≡ TooWide) ⊎ (fault ≡ OutOfMemory)) }
    {
        set_json::to_number_text(alloc, set, set_json::JsonWidth::U32)
    }

    /// What `from_json` returns of the value that this string is read as. Bits that no variant has are left out.
    ///
    /// The faults are those of [`set_json::from_number_text`].
    pub fn from_json_text(
        alloc: std::alloc::Global,
        text: &str,
    ) -> std::result::Result<EnumSet<Self>, set_json::JsonFault>
        ensures read { IsReadOf (set_of_number
            (valid_bits ⟦<In32Bits as EnumSetType>⟧.elements) 32
            unknown.Drop) text.now result }
        ensures plain { IsPlainNumber text.now → IsResult (value_read (set_of_number
            (valid_bits ⟦<In32Bits as EnumSetType>⟧.elements) 32
            unknown.Drop) text.now) result }
    {
        set_json::from_number_text(
            alloc,
            text,
            set_json::JsonWidth::U32,
            set_json::Unknown::Drop,
        )
    }
}
