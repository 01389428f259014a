// Written by enumset_derive types_for_tests of_64 from Of64: change the source, and write this again.

//! An enum of 64 variants over a `u64`.

use enumset::{EnumSet, EnumSetType, EnumSetTypeWithRepr, set_json};

/// A variant for each bit of a `u64`, which JSON has as a number.
#[derive(Clone, Copy, PartialEq, Eq, Debug)]
pub enum Of64 {
    V0,
    V1,
    V2,
    V3,
    V4,
    V5,
    V6,
    V7,
    V8,
    V9,
    V10,
    V11,
    V12,
    V13,
    V14,
    V15,
    V16,
    V17,
    V18,
    V19,
    V20,
    V21,
    V22,
    V23,
    V24,
    V25,
    V26,
    V27,
    V28,
    V29,
    V30,
    V31,
    V32,
    V33,
    V34,
    V35,
    V36,
    V37,
    V38,
    V39,
    V40,
    V41,
    V42,
    V43,
    V44,
    V45,
    V46,
    V47,
    V48,
    V49,
    V50,
    V51,
    V52,
    V53,
    V54,
    V55,
    V56,
    V57,
    V58,
    V59,
    V60,
    V61,
    V62,
    V63,
}

impl EnumSetType for Of64 {
    ghost use Rattle.enumset.specs.Sets.{in_place, lawful_in_integer, lawful_in_place};
    ghost use Rattle.types_for_tests.specs.contracts.of_64.Of64.{the_type};

    type Repr = u64;

    ghost elements = { in_place the_type };

    ghost ALL_BITS = { 18446744073709551615 };

    const ALL_BITS: u64 = 0xFFFFFFFFFFFFFFFF;

    ghost BIT_WIDTH = { 64 };

    const BIT_WIDTH: u32 = 64;

    ghost VARIANT_COUNT = { 64 };

    const VARIANT_COUNT: u32 = 64;

    fn enum_into_u32(self) -> u32 {
        self as u32
    }

    fn enum_from_u32(val: u32) -> Self {
        match val {
            0 => Self::V0,
            1 => Self::V1,
            2 => Self::V2,
            3 => Self::V3,
            4 => Self::V4,
            5 => Self::V5,
            6 => Self::V6,
            7 => Self::V7,
            8 => Self::V8,
            9 => Self::V9,
            10 => Self::V10,
            11 => Self::V11,
            12 => Self::V12,
            13 => Self::V13,
            14 => Self::V14,
            15 => Self::V15,
            16 => Self::V16,
            17 => Self::V17,
            18 => Self::V18,
            19 => Self::V19,
            20 => Self::V20,
            21 => Self::V21,
            22 => Self::V22,
            23 => Self::V23,
            24 => Self::V24,
            25 => Self::V25,
            26 => Self::V26,
            27 => Self::V27,
            28 => Self::V28,
            29 => Self::V29,
            30 => Self::V30,
            31 => Self::V31,
            32 => Self::V32,
            33 => Self::V33,
            34 => Self::V34,
            35 => Self::V35,
            36 => Self::V36,
            37 => Self::V37,
            38 => Self::V38,
            39 => Self::V39,
            40 => Self::V40,
            41 => Self::V41,
            42 => Self::V42,
            43 => Self::V43,
            44 => Self::V44,
            45 => Self::V45,
            46 => Self::V46,
            47 => Self::V47,
            48 => Self::V48,
            49 => Self::V49,
            50 => Self::V50,
            51 => Self::V51,
            52 => Self::V52,
            53 => Self::V53,
            54 => Self::V54,
            55 => Self::V55,
            56 => Self::V56,
            57 => Self::V57,
            58 => Self::V58,
            59 => Self::V59,
            60 => Self::V60,
            61 => Self::V61,
            62 => Self::V62,
            63 => Self::V63,
            _ => {
                enumset::variants::is_below(val, 64);
                unreachable!()
            }
        }
    }

    ghost lawful = { lawful_in_place the_type (lawful_in_integer the_type _ tt) };
}

impl EnumSetTypeWithRepr for Of64 {
    ghost use Rattle.std.proofs.Common.{rules};

    ghost narrow = { Prim.search rules };
}

impl Of64 {
    ghost use Rattle.std.specs.Prelude.{◌≡◌, ◌↔◌, ◌⊎◌, false, IsOk, IfOk, IfErr, Some, Err, IsTrue};
    ghost use Rattle.std.specs.Prelude.{string_bytes, decimal};
    ghost use Rattle.enumset.specs.Sets.{is_subset, below, number, valid_bits};
    ghost use Rattle.serde_json.specs.Read.{read};
    ghost use Rattle.serde_json.specs.View.{view};
    ghost use Rattle.enumset.specs.Json.{number_value, set_of_number};
    ghost use Rattle.enumset.specs.JsonPlain.{IsPlainNumber};
    ghost use Rattle.enumset.specs.JsonReads.{value_read, IsResult, IsReadOf};
    ghost use Rattle.enumset.specs.declared.set_json.fault.JsonFault.TheVariants.{TooWide, OutOfMemory};
    ghost use Rattle.enumset.specs.declared.set_json.unknown.Unknown.TheVariants as unknown;

    /// The set's number as a `u64`.
    ///
    /// The only fault is [`set_json::JsonFault::TooWide`], if a member is past its bits. It does not allocate.
    pub fn to_json(
        alloc: std::alloc::Global,
        set: &EnumSet<Self>,
    ) -> std::result::Result<serde_json::Value, set_json::JsonFault>
        ensures fits { IsOk result ↔ IsTrue (is_subset set.now (below 64)) }
        ensures value { IfOk result (λ value. view value ≡ number_value (number set.now)) }
        ensures fault { IfErr result (λ fault. fault ≡ TooWide) }
    {
        set_json::to_number(alloc, set, set_json::JsonWidth::U64)
    }

    /// The set that `to_json` writes as this value. A bit that no variant has is a fault.
    ///
    /// The faults are those of [`set_json::from_number`], in the same order. It does not allocate.
    pub fn from_json(
        value: &serde_json::Value,
    ) -> std::result::Result<EnumSet<Self>, set_json::JsonFault>
        ensures { result ≡ set_of_number
            (valid_bits ⟦<Of64 as EnumSetType>⟧.elements) 64
            unknown.Refuse (view value.now) }
    {
        set_json::from_number(value, set_json::JsonWidth::U64, set_json::Unknown::Refuse)
    }

    /// The string of `to_json`'s value, without spaces. The faults are [`set_json::JsonFault::TooWide`],
    /// if a member is past its bits, and [`set_json::JsonFault::OutOfMemory`].
    pub fn to_json_text(
        alloc: std::alloc::Global,
        set: &EnumSet<Self>,
    ) -> std::result::Result<std::string::String, set_json::JsonFault>
        ensures text { IfOk result (λ text. string_bytes text ≡ decimal (number set.now)) }
        ensures reads { IfOk result (λ text. read (string_bytes text)
            ≡ Some (number_value (number set.now))) }
        ensures too_wide { (result ≡ Err TooWide) ↔ (is_subset set.now (below 64) ≡ false) }
        ensures fault { IfErr result (λ fault. (fault ≡ TooWide) ⊎ (fault ≡ OutOfMemory)) }
    {
        set_json::to_number_text(alloc, set, set_json::JsonWidth::U64)
    }

    /// What `from_json` returns of the value that this string is read as. A bit that no variant has is a fault.
    ///
    /// The faults are those of [`set_json::from_number_text`].
    pub fn from_json_text(
        alloc: std::alloc::Global,
        text: &str,
    ) -> std::result::Result<EnumSet<Self>, set_json::JsonFault>
        ensures read { IsReadOf (set_of_number
            (valid_bits ⟦<Of64 as EnumSetType>⟧.elements) 64
            unknown.Refuse) text.now result }
        ensures plain { IsPlainNumber text.now → IsResult (value_read (set_of_number
            (valid_bits ⟦<Of64 as EnumSetType>⟧.elements) 64
            unknown.Refuse) text.now) result }
    {
        set_json::from_number_text(
            alloc,
            text,
            set_json::JsonWidth::U64,
            set_json::Unknown::Refuse,
        )
    }
}
