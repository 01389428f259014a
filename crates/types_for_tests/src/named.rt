// Written by enumset_derive types_for_tests named from NamedLetters, LaterLetters, NamedSparse: change the source, and write this again.

//! Element types whose values have names, and whose sets are lists of them, or maps from them.

use enumset::internal::ArrayRepr;
use enumset::{EnumSet, EnumSetNames, EnumSetType, EnumSetTypeWithRepr, names_of, set_json};

/// Seven variants, on bits 0 to 6, in an integer.
#[derive(Clone, Copy, PartialEq, Eq, Debug)]
pub enum NamedLetters {
    A,
    B,
    C,
    D,
    E,
    F,
    G,
}

impl EnumSetType for NamedLetters {
    ghost use Rattle.enumset.specs.Sets.{in_place, lawful_in_integer, lawful_in_place};
    ghost use Rattle.types_for_tests.specs.contracts.named.NamedLetters.{the_type};

    type Repr = u8;

    ghost elements = { in_place the_type };

    ghost ALL_BITS = { 127 };

    const ALL_BITS: u8 = 0x7F;

    ghost BIT_WIDTH = { 7 };

    const BIT_WIDTH: u32 = 7;

    ghost VARIANT_COUNT = { 7 };

    const VARIANT_COUNT: u32 = 7;

    fn enum_into_u32(self) -> u32 {
        self as u32
    }

    fn enum_from_u32(val: u32) -> Self {
        match val {
            0 => Self::A,
            1 => Self::B,
            2 => Self::C,
            3 => Self::D,
            4 => Self::E,
            5 => Self::F,
            6 => Self::G,
            _ => unreachable!(),
        }
    }

    ghost lawful = { lawful_in_place the_type (lawful_in_integer the_type _ tt) };
}

impl EnumSetTypeWithRepr for NamedLetters {
    ghost use Rattle.std.proofs.Common.{rules};

    ghost narrow = { Prim.search rules };
}

#[tactic(auto, unfolding(enumset::specs::Sets::place))]
impl EnumSetNames for NamedLetters {
    ghost use Rattle.std.specs.Prelude.{codes, ◌∷◌, []};

    ghost names = { codes "A" ∷ codes "B" ∷ codes "C" ∷ codes "D" ∷ codes "E" ∷
        codes "F" ∷ codes "G" ∷ [] };

    fn names() -> &'static [(Self, &'static str)] {
        names_of!(NamedLetters: A B C D E F G)
    }

    ghost named = { tt };
}

impl NamedLetters {
    ghost use Rattle.std.specs.Prelude.{◌≡◌, IfOk, IfErr, Some, string_bytes};
    ghost use Rattle.serde_json.specs.Written.{compact_text};
    ghost use Rattle.serde_json.specs.Read.{read};
    ghost use Rattle.serde_json.specs.View.{view};
    ghost use Rattle.enumset.specs.Names.{names_of};
    ghost use Rattle.enumset.specs.JsonNames.{list_value, set_of_list};
    ghost use Rattle.enumset.specs.JsonPlain.{IsPlainList};
    ghost use Rattle.enumset.specs.JsonReads.{value_read, IsResult, IsReadOf};
    ghost use Rattle.enumset.specs.declared.set_json.fault.JsonFault.TheVariants.{OutOfMemory};
    ghost use Rattle.enumset.specs.declared.set_json.unknown.Unknown.TheVariants as unknown;

    /// The array of the names of the set's members, in ascending order of their bits. The only fault is
    /// [`set_json::JsonFault::OutOfMemory`].
    pub fn to_json(
        alloc: std::alloc::Global,
        set: &EnumSet<Self>,
    ) -> std::result::Result<serde_json::Value, set_json::JsonFault>
        ensures value { IfOk result (λ value. view value ≡ list_value
            (names_of ⟦<NamedLetters as EnumSetType>⟧.elements ⟦<NamedLetters as EnumSetNames>⟧.names) set.now) }
        ensures fault { IfErr result (λ fault. fault ≡ OutOfMemory) }
    {
        set_json::to_list(alloc, set)
    }

    /// The set that `to_json` writes as this value. Names that no variant has are left out.
    ///
    /// The faults are those of [`set_json::from_list`], in the same order. It does not allocate.
    pub fn from_json(
        value: &serde_json::Value,
    ) -> std::result::Result<EnumSet<Self>, set_json::JsonFault>
        ensures { result ≡ set_of_list
            (names_of ⟦<NamedLetters as EnumSetType>⟧.elements ⟦<NamedLetters as EnumSetNames>⟧.names)
            unknown.Drop (view value.now) }
    {
        set_json::from_list(value, set_json::Unknown::Drop)
    }

    /// The string of `to_json`'s value, without spaces. The only fault is
    /// [`set_json::JsonFault::OutOfMemory`].
    pub fn to_json_text(
        alloc: std::alloc::Global,
        set: &EnumSet<Self>,
    ) -> std::result::Result<std::string::String, set_json::JsonFault>
        ensures text { IfOk result (λ text. string_bytes text
            ≡ compact_text (list_value
            (names_of ⟦<NamedLetters as EnumSetType>⟧.elements ⟦<NamedLetters as EnumSetNames>⟧.names) set.now)) }
        ensures reads { IfOk result (λ text. read (string_bytes text)
            ≡ Some (list_value
            (names_of ⟦<NamedLetters as EnumSetType>⟧.elements ⟦<NamedLetters as EnumSetNames>⟧.names) set.now)) }
        ensures fault { IfErr result (λ fault. fault ≡ OutOfMemory) }
    {
        set_json::to_list_text(alloc, set)
    }

    /// What `from_json` returns of the value that this string is read as. Names that no variant has are left out.
    ///
    /// The faults are those of [`set_json::from_list_text`].
    pub fn from_json_text(
        alloc: std::alloc::Global,
        text: &str,
    ) -> std::result::Result<EnumSet<Self>, set_json::JsonFault>
        ensures read { IsReadOf (set_of_list
            (names_of ⟦<NamedLetters as EnumSetType>⟧.elements ⟦<NamedLetters as EnumSetNames>⟧.names)
            unknown.Drop) text.now result }
        ensures plain { IsPlainList text.now → IsResult (value_read (set_of_list
            (names_of ⟦<NamedLetters as EnumSetType>⟧.elements ⟦<NamedLetters as EnumSetNames>⟧.names)
            unknown.Drop) text.now) result }
    {
        set_json::from_list_text(alloc, text, set_json::Unknown::Drop)
    }
}

/// The letters with two more, `H` on bit 7 and `Aa` on bit 64, in words. Unknown names are a fault.
#[derive(Clone, Copy, PartialEq, Eq, Debug)]
pub enum LaterLetters {
    A,
    B,
    C,
    D,
    E,
    F,
    G,
    H,
    Aa = 64,
}

impl EnumSetType for LaterLetters {
    ghost use Rattle.std.specs.Prelude.{◌∷◌, []};
    ghost use Rattle.enumset.specs.Sets.{with_bits, lawful_in_words};
    ghost use Rattle.types_for_tests.specs.contracts.named.LaterLetters.{the_type};

    type Repr = ArrayRepr<2>;

    ghost elements = { with_bits the_type (0 ∷ 1 ∷ 2 ∷ 3 ∷ 4 ∷ 5 ∷ 6 ∷ 7 ∷ 64 ∷ []) };

    ghost ALL_BITS = { 255 ∷ 1 ∷ [] };

    const ALL_BITS: ArrayRepr<2> = ArrayRepr([0xFF, 0x1]);

    ghost BIT_WIDTH = { 65 };

    const BIT_WIDTH: u32 = 65;

    ghost VARIANT_COUNT = { 9 };

    const VARIANT_COUNT: u32 = 9;

    fn enum_into_u32(self) -> u32 {
        self as u32
    }

    fn enum_from_u32(val: u32) -> Self {
        match val {
            0 => Self::A,
            1 => Self::B,
            2 => Self::C,
            3 => Self::D,
            4 => Self::E,
            5 => Self::F,
            6 => Self::G,
            7 => Self::H,
            64 => Self::Aa,
            _ => unreachable!(),
        }
    }

    ghost lawful = { lawful_in_words the_type _ tt };
}

impl EnumSetTypeWithRepr for LaterLetters {
    ghost use Rattle.std.proofs.Common.{rules};

    ghost narrow = { Prim.search rules };
}

#[tactic(auto, unfolding(enumset::specs::Sets::listed_bit))]
impl EnumSetNames for LaterLetters {
    ghost use Rattle.std.specs.Prelude.{codes, ◌∷◌, []};

    ghost names = { codes "A" ∷ codes "B" ∷ codes "C" ∷ codes "D" ∷ codes "E" ∷
        codes "F" ∷ codes "G" ∷ codes "H" ∷ codes "Aa" ∷ [] };

    fn names() -> &'static [(Self, &'static str)] {
        names_of!(LaterLetters: A B C D E F G H Aa)
    }

    ghost named = { tt };
}

impl LaterLetters {
    ghost use Rattle.std.specs.Prelude.{◌≡◌, IfOk, IfErr, Some, string_bytes};
    ghost use Rattle.serde_json.specs.Written.{compact_text};
    ghost use Rattle.serde_json.specs.Read.{read};
    ghost use Rattle.serde_json.specs.View.{view};
    ghost use Rattle.enumset.specs.Names.{names_of};
    ghost use Rattle.enumset.specs.JsonNames.{map_value, set_of_map};
    ghost use Rattle.enumset.specs.JsonPlain.{IsPlainMap};
    ghost use Rattle.enumset.specs.JsonReads.{value_read, IsResult, IsReadOf};
    ghost use Rattle.enumset.specs.declared.set_json.fault.JsonFault.TheVariants.{OutOfMemory};
    ghost use Rattle.enumset.specs.declared.set_json.unknown.Unknown.TheVariants as unknown;

    /// The object that maps the name of each of the set's members to `true`. The only fault is
    /// [`set_json::JsonFault::OutOfMemory`].
    pub fn to_json(
        alloc: std::alloc::Global,
        set: &EnumSet<Self>,
    ) -> std::result::Result<serde_json::Value, set_json::JsonFault>
        ensures value { IfOk result (λ value. view value ≡ map_value
            (names_of ⟦<LaterLetters as EnumSetType>⟧.elements ⟦<LaterLetters as EnumSetNames>⟧.names) set.now) }
        ensures fault { IfErr result (λ fault. fault ≡ OutOfMemory) }
    {
        set_json::to_map(alloc, set)
    }

    /// The set that `to_json` writes as this value. A name that no variant has is a fault.
    ///
    /// The faults are those of [`set_json::from_map`], in the same order. It does not allocate.
    pub fn from_json(
        value: &serde_json::Value,
    ) -> std::result::Result<EnumSet<Self>, set_json::JsonFault>
        ensures { result ≡ set_of_map
            (names_of ⟦<LaterLetters as EnumSetType>⟧.elements ⟦<LaterLetters as EnumSetNames>⟧.names)
            unknown.Refuse (view value.now) }
    {
        set_json::from_map(value, set_json::Unknown::Refuse)
    }

    /// The string of `to_json`'s value, without spaces. The only fault is
    /// [`set_json::JsonFault::OutOfMemory`].
    pub fn to_json_text(
        alloc: std::alloc::Global,
        set: &EnumSet<Self>,
    ) -> std::result::Result<std::string::String, set_json::JsonFault>
        ensures text { IfOk result (λ text. string_bytes text
            ≡ compact_text (map_value
            (names_of ⟦<LaterLetters as EnumSetType>⟧.elements ⟦<LaterLetters as EnumSetNames>⟧.names) set.now)) }
        ensures reads { IfOk result (λ text. read (string_bytes text)
            ≡ Some (map_value
            (names_of ⟦<LaterLetters as EnumSetType>⟧.elements ⟦<LaterLetters as EnumSetNames>⟧.names) set.now)) }
        ensures fault { IfErr result (λ fault. fault ≡ OutOfMemory) }
    {
        set_json::to_map_text(alloc, set)
    }

    /// What `from_json` returns of the value that this string is read as. A name that no variant has is a fault.
    ///
    /// The faults are those of [`set_json::from_map_text`].
    pub fn from_json_text(
        alloc: std::alloc::Global,
        text: &str,
    ) -> std::result::Result<EnumSet<Self>, set_json::JsonFault>
        ensures read { IsReadOf (set_of_map
            (names_of ⟦<LaterLetters as EnumSetType>⟧.elements ⟦<LaterLetters as EnumSetNames>⟧.names)
            unknown.Refuse) text.now result }
        ensures plain { IsPlainMap
            (names_of ⟦<LaterLetters as EnumSetType>⟧.elements ⟦<LaterLetters as EnumSetNames>⟧.names) text.now →
            IsResult (value_read (set_of_map
            (names_of ⟦<LaterLetters as EnumSetType>⟧.elements ⟦<LaterLetters as EnumSetNames>⟧.names)
            unknown.Refuse) text.now) result }
    {
        set_json::from_map_text(alloc, text, set_json::Unknown::Refuse)
    }
}

/// Four variants, on bits 10, 20, 30 and 127 of an integer.
#[derive(Clone, Copy, PartialEq, Eq, Debug)]
pub enum NamedSparse {
    A = 10,
    B = 20,
    C = 30,
    D = 127,
}

impl EnumSetType for NamedSparse {
    ghost use Rattle.std.specs.Prelude.{◌∷◌, []};
    ghost use Rattle.enumset.specs.Sets.{with_bits, lawful_in_integer};
    ghost use Rattle.types_for_tests.specs.contracts.named.NamedSparse.{the_type};

    type Repr = u128;

    ghost elements = { with_bits the_type (10 ∷ 20 ∷ 30 ∷ 127 ∷ []) };

    ghost ALL_BITS = { 170141183460469231731687303716958897152 };

    const ALL_BITS: u128 = 0x80000000000000000000000040100400;

    ghost BIT_WIDTH = { 128 };

    const BIT_WIDTH: u32 = 128;

    ghost VARIANT_COUNT = { 4 };

    const VARIANT_COUNT: u32 = 4;

    fn enum_into_u32(self) -> u32 {
        self as u32
    }

    fn enum_from_u32(val: u32) -> Self {
        match val {
            10 => Self::A,
            20 => Self::B,
            30 => Self::C,
            127 => Self::D,
            _ => unreachable!(),
        }
    }

    ghost lawful = { lawful_in_integer the_type _ tt };
}

impl EnumSetTypeWithRepr for NamedSparse {
    ghost use Rattle.std.proofs.Common.{rules};

    ghost narrow = { Prim.search rules };
}

#[tactic(auto, unfolding(enumset::specs::Sets::listed_bit))]
impl EnumSetNames for NamedSparse {
    ghost use Rattle.std.specs.Prelude.{codes, ◌∷◌, []};

    ghost names = { codes "A" ∷ codes "B" ∷ codes "C" ∷ codes "D" ∷ [] };

    fn names() -> &'static [(Self, &'static str)] {
        names_of!(NamedSparse: A B C D)
    }

    ghost named = { tt };
}

impl NamedSparse {
    ghost use Rattle.std.specs.Prelude.{◌≡◌, IfOk, IfErr, Some, string_bytes};
    ghost use Rattle.serde_json.specs.Written.{compact_text};
    ghost use Rattle.serde_json.specs.Read.{read};
    ghost use Rattle.serde_json.specs.View.{view};
    ghost use Rattle.enumset.specs.Names.{names_of};
    ghost use Rattle.enumset.specs.JsonNames.{list_value, set_of_list};
    ghost use Rattle.enumset.specs.JsonPlain.{IsPlainList};
    ghost use Rattle.enumset.specs.JsonReads.{value_read, IsResult, IsReadOf};
    ghost use Rattle.enumset.specs.declared.set_json.fault.JsonFault.TheVariants.{OutOfMemory};
    ghost use Rattle.enumset.specs.declared.set_json.unknown.Unknown.TheVariants as unknown;

    /// The array of the names of the set's members, in ascending order of their bits. The only fault is
    /// [`set_json::JsonFault::OutOfMemory`].
    pub fn to_json(
        alloc: std::alloc::Global,
        set: &EnumSet<Self>,
    ) -> std::result::Result<serde_json::Value, set_json::JsonFault>
        ensures value { IfOk result (λ value. view value ≡ list_value
            (names_of ⟦<NamedSparse as EnumSetType>⟧.elements ⟦<NamedSparse as EnumSetNames>⟧.names) set.now) }
        ensures fault { IfErr result (λ fault. fault ≡ OutOfMemory) }
    {
        set_json::to_list(alloc, set)
    }

    /// The set that `to_json` writes as this value. Names that no variant has are left out.
    ///
    /// The faults are those of [`set_json::from_list`], in the same order. It does not allocate.
    pub fn from_json(
        value: &serde_json::Value,
    ) -> std::result::Result<EnumSet<Self>, set_json::JsonFault>
        ensures { result ≡ set_of_list
            (names_of ⟦<NamedSparse as EnumSetType>⟧.elements ⟦<NamedSparse as EnumSetNames>⟧.names)
            unknown.Drop (view value.now) }
    {
        set_json::from_list(value, set_json::Unknown::Drop)
    }

    /// The string of `to_json`'s value, without spaces. The only fault is
    /// [`set_json::JsonFault::OutOfMemory`].
    pub fn to_json_text(
        alloc: std::alloc::Global,
        set: &EnumSet<Self>,
    ) -> std::result::Result<std::string::String, set_json::JsonFault>
        ensures text { IfOk result (λ text. string_bytes text
            ≡ compact_text (list_value
            (names_of ⟦<NamedSparse as EnumSetType>⟧.elements ⟦<NamedSparse as EnumSetNames>⟧.names) set.now)) }
        ensures reads { IfOk result (λ text. read (string_bytes text)
            ≡ Some (list_value
            (names_of ⟦<NamedSparse as EnumSetType>⟧.elements ⟦<NamedSparse as EnumSetNames>⟧.names) set.now)) }
        ensures fault { IfErr result (λ fault. fault ≡ OutOfMemory) }
    {
        set_json::to_list_text(alloc, set)
    }

    /// What `from_json` returns of the value that this string is read as. Names that no variant has are left out.
    ///
    /// The faults are those of [`set_json::from_list_text`].
    pub fn from_json_text(
        alloc: std::alloc::Global,
        text: &str,
    ) -> std::result::Result<EnumSet<Self>, set_json::JsonFault>
        ensures read { IsReadOf (set_of_list
            (names_of ⟦<NamedSparse as EnumSetType>⟧.elements ⟦<NamedSparse as EnumSetNames>⟧.names)
            unknown.Drop) text.now result }
        ensures plain { IsPlainList text.now → IsResult (value_read (set_of_list
            (names_of ⟦<NamedSparse as EnumSetType>⟧.elements ⟦<NamedSparse as EnumSetNames>⟧.names)
            unknown.Drop) text.now) result }
    {
        set_json::from_list_text(alloc, text, set_json::Unknown::Drop)
    }
}
