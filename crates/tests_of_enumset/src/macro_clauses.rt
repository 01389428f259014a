//! Macros in functions with contracts, so that the check rejects a macro with another meaning: the macros of sets, over
//! sets of any enum with three operands, and over mixed sets with two; and `variant_of!`, with as many variants as it
//! takes without bits, and with more than the 64 bits that one step of its proof is about.

ghost use Rattle.std.specs.Prelude.{◌≡◌, ◌∷◌, [], IsTrue};
ghost use Rattle.std.specs.List.{range_with_len};
ghost use Rattle.enumset.specs.Sets as set;
ghost use Rattle.enumset.specs.Sets.{valid_bits};

use enumset::set::MixedEnumSet;
use enumset::{
    EnumSet, EnumSetType, EnumSetTypeWithRepr, enum_set, enum_set_complement, enum_set_difference,
    enum_set_intersection, enum_set_symmetric_difference, enum_set_union, mixed_enum_set,
    variant_of,
};
use types_for_tests::{Of64, Of256};

fn elements<T: EnumSetType>(a: T, b: T, c: T) -> (EnumSet<T>, EnumSet<T>, EnumSet<T>, EnumSet<T>)
    ensures none { result.0 ≡ set.empty }
    ensures one { result.1 ≡ set.only (T.elements.bit a) }
    ensures two { result.2 ≡ set.union (set.only (T.elements.bit a)) (set.only (T.elements.bit b)) }
    ensures three { result.3
        ≡ set.union (set.union (set.only (T.elements.bit a)) (set.only (T.elements.bit b)))
        (set.only (T.elements.bit c)) }
{
    (
        enum_set!(),
        enum_set!(a),
        enum_set!(a | b),
        enum_set!(a | b | c),
    )
}

fn union_of_three<T: EnumSetType>(a: EnumSet<T>, b: EnumSet<T>, c: EnumSet<T>) -> EnumSet<T>
    ensures { result ≡ set.union (set.union a b) c }
{
    enum_set_union!(a, b, c)
}

fn intersection_of_three<T: EnumSetType>(a: EnumSet<T>, b: EnumSet<T>, c: EnumSet<T>) -> EnumSet<T>
    ensures { result ≡ set.intersection (set.intersection a b) c }
{
    enum_set_intersection!(a, b, c)
}

fn difference_of_three<T: EnumSetType>(a: EnumSet<T>, b: EnumSet<T>, c: EnumSet<T>) -> EnumSet<T>
    ensures { result
        ≡ set.intersection (set.intersection a (set.difference (valid_bits T.elements) b))
        (set.difference (valid_bits T.elements) c) }
{
    enum_set_difference!(a, b, c)
}

fn symmetric_difference_of_three<T: EnumSetType>(
    a: EnumSet<T>,
    b: EnumSet<T>,
    c: EnumSet<T>,
) -> EnumSet<T>
    ensures { result ≡ set.symmetric_difference (set.symmetric_difference a b) c }
{
    enum_set_symmetric_difference!(a, b, c)
}

fn complement<T: EnumSetType>(a: EnumSet<T>) -> EnumSet<T>
    ensures { result ≡ set.difference (valid_bits T.elements) a }
{
    enum_set_complement!(a)
}

fn mixed_elements<T: EnumSetTypeWithRepr>(
    a: T,
    b: T,
) -> (MixedEnumSet<T>, MixedEnumSet<T>, MixedEnumSet<T>)
    ensures none { result.0 ≡ set.empty }
    ensures one { result.1 ≡ set.only (T.elements.bit a) }
    ensures two { result.2 ≡ set.union (set.only (T.elements.bit a)) (set.only (T.elements.bit b)) }
{
    (
        mixed_enum_set!(),
        mixed_enum_set!(a),
        mixed_enum_set!(a | b),
    )
}

fn mixed_union_of_two<T: EnumSetTypeWithRepr>(
    a: MixedEnumSet<T>,
    b: MixedEnumSet<T>,
) -> MixedEnumSet<T>
    ensures { result ≡ set.union a b }
{
    enum_set_union!(a, b)
}

fn mixed_intersection_of_two<T: EnumSetTypeWithRepr>(
    a: MixedEnumSet<T>,
    b: MixedEnumSet<T>,
) -> MixedEnumSet<T>
    ensures { result ≡ set.intersection a b }
{
    enum_set_intersection!(a, b)
}

fn mixed_difference_of_two<T: EnumSetTypeWithRepr>(
    a: MixedEnumSet<T>,
    b: MixedEnumSet<T>,
) -> MixedEnumSet<T>
    ensures { result ≡ set.intersection a (set.difference (valid_bits T.elements) b) }
{
    enum_set_difference!(a, b)
}

fn mixed_symmetric_difference_of_two<T: EnumSetTypeWithRepr>(
    a: MixedEnumSet<T>,
    b: MixedEnumSet<T>,
) -> MixedEnumSet<T>
    ensures { result ≡ set.symmetric_difference a b }
{
    enum_set_symmetric_difference!(a, b)
}

fn mixed_complement<T: EnumSetTypeWithRepr>(a: MixedEnumSet<T>) -> MixedEnumSet<T>
    ensures { result ≡ set.difference (valid_bits T.elements) a }
{
    enum_set_complement!(a)
}

#[tactic(auto, unfolding(enumset::specs::Sets::place))]
fn of_sixteen(bit: u32) -> Of64
    requires { IsTrue (set.is_in bit (range_with_len 0 16)) }
    ensures { ⟦<Of64 as EnumSetType>⟧.elements.bit result ≡ bit }
{
    variant_of!(bit, Of64: V0 V1 V2 V3 V4 V5 V6 V7 V8 V9 V10 V11 V12 V13 V14 V15)
}

#[tactic(auto, unfolding(enumset::specs::Sets::place))]
fn of_even(bit: u32) -> Of256
    requires { IsTrue (set.is_in bit (0 ∷ 2 ∷ 4 ∷ 6 ∷ 8 ∷ 10 ∷ 12 ∷ 14 ∷ 16 ∷ 18 ∷ 20 ∷ 22 ∷ 24 ∷ 26 ∷ 28 ∷
        30 ∷ 32 ∷ 34 ∷ 36 ∷ 38 ∷ 40 ∷ 42 ∷ 44 ∷ 46 ∷ 48 ∷ 50 ∷ 52 ∷ 54 ∷ 56 ∷ 58 ∷ 60 ∷ 62 ∷ 64 ∷ 66 ∷ 68 ∷
        70 ∷ 72 ∷ 74 ∷ 76 ∷ 78 ∷ 80 ∷ 82 ∷ 84 ∷ 86 ∷ 88 ∷ 90 ∷ 92 ∷ 94 ∷ 96 ∷ 98 ∷ 100 ∷ 102 ∷ 104 ∷ 106 ∷
        108 ∷ 110 ∷ 112 ∷ 114 ∷ 116 ∷ 118 ∷ 120 ∷ 122 ∷ 124 ∷ 126 ∷ 128 ∷ 130 ∷ [])) }
    ensures { ⟦<Of256 as EnumSetType>⟧.elements.bit result ≡ bit }
{
    variant_of!(
        bit, Of256:
        0 V0 2 V2 4 V4 6 V6 8 V8 10 V10 12 V12 14 V14 16 V16 18 V18 20 V20 22 V22 24 V24 26 V26 28 V28
        30 V30 32 V32 34 V34 36 V36 38 V38 40 V40 42 V42 44 V44 46 V46 48 V48 50 V50 52 V52 54 V54
        56 V56 58 V58 60 V60 62 V62 64 V64 66 V66 68 V68 70 V70 72 V72 74 V74 76 V76 78 V78 80 V80
        82 V82 84 V84 86 V86 88 V88 90 V90 92 V92 94 V94 96 V96 98 V98 100 V100 102 V102 104 V104
        106 V106 108 V108 110 V110 112 V112 114 V114 116 V116 118 V118 120 V120 122 V122 124 V124
        126 V126 128 V128 130 V130
    )
}
