//! The plan of an element type: the bits, the width of a set, and the set of all bits.

ghost use Rattle.std.specs.Prelude.{◌≡◌, ◌≤◌, ◌*◌, Some, length, IsTrue, IfOk, IfErr};
ghost use Rattle.enumset_repr.specs.Number.{is_distinct, lists_bits};
ghost use Rattle.enumset_repr.specs.Words.{lists_words};
ghost use Rattle.enumset_repr.specs.Lawful.{one_past_all};
ghost use Rattle.enumset_derive.specs.Numbers.{bit_end, bit_limit};
ghost use Rattle.enumset_derive.specs.Variants.{map_fault, plan_faults, bits_of};
ghost use Rattle.enumset_derive.specs.Plans.{kind_of, IsPlanned, IsLawfulPlan, IsStoredAsAsked};

mod declaration;
mod variants;

use crate::fault::{Fault, Reason};
pub use declaration::{
    Derive, Discriminant, EnumDeclaration, EnumHead, Given, Library, Line, Options, Rename, Variant,
};
use enumset_source::{IntegerType, Map, Number, Place, Representation};
use std::alloc::{AllocError, Global};
pub use variants::{Implied, discriminant_after, discriminant_of};
use variants::{Named, name_variants, push_some};

/// What the implementation of an element type states.
#[derive(Drop)]
pub struct Plan {
    /// The variants with their bits, in the order of the declaration. Their number is `VARIANT_COUNT`.
    pub variants: Vec<NamedVariant>,
    /// What a set is stored in, with `ALL_BITS`.
    pub store: Store,
    /// `BIT_WIDTH`: one past the greatest bit, or 0 if there is none.
    pub bit_width: u32,
}

/// A variant, with the bit that its discriminant names.
#[derive(Clone, Copy)]
pub struct NamedVariant {
    pub bit: u32,
    /// The discriminant, given or implied.
    pub number: Number,
    /// Where the discriminant is, or the name of the variant if the discriminant is implied.
    pub place: Place,
}

/// What a set is stored in, with the value of `ALL_BITS`.
#[derive(Drop)]
pub enum Store {
    /// An integer of this type, and the integer with all bits.
    Integer(IntegerType, u128),
    /// Words of 64 bits: those with all bits, the lowest first.
    Words(Vec<u64>),
}

/// The plan of an element type, or the faults of its variants and of its map. There may be none of these if a discriminant
/// could not be read.
pub fn plan_enum(
    alloc: Global,
    declaration: &EnumDeclaration,
) -> Result<Result<Plan, Vec<Fault>>, AllocError>
    ensures bits { IfOk result (λ planned. IfOk planned (IsPlanned declaration.now)) }
    ensures lawful { IfOk result (λ planned. IfOk planned (IsLawfulPlan (length declaration.now.variants.items))) }
    ensures representation { IfOk result (λ planned.
        IfOk planned (IsStoredAsAsked declaration.now.options.representation)) }
    ensures faults { IfOk result (λ planned. IfErr planned (λ faults. plan_faults declaration.now ≡ faults.items)) }
{
    let options = &declaration.options;
    let declared = declaration.variants.as_slice();
    let Named {
        variants,
        mut faults,
    } = name_variants(alloc, options, declared)?;
    push_some(&mut faults, map_fault(options))?;
    if !faults.is_empty() || variants.len() != declared.len() {
        return Ok(Err(faults));
    }
    Ok(Ok(plan_of(alloc, options.representation, variants)?))
}

/// The fault of `map = "msb"` without an integer.
fn map_fault(options: &Options) -> Option<Fault>
    ensures { result ≡ map_fault options.now.map options.now.representation }
{
    match (options.map, options.representation) {
        (Some((Map::Msb, place)), None | Some(Representation::Words)) => {
            Some(Reason::IntegerMissing.at(place))
        }
        _ => None,
    }
}

/// The plan with these variants, whose sets are stored as `repr` asks.
fn plan_of(
    alloc: Global,
    asked: Option<Representation>,
    variants: Vec<NamedVariant>,
) -> Result<Plan, AllocError>
    requires distinct { IsTrue (is_distinct (bits_of variants.items)) }
    requires range { one_past_all (bits_of variants.items) ≤ bit_limit asked }
    ensures variants { IfOk result (λ plan. plan.variants ≡ variants) }
    ensures lawful { IfOk result (IsLawfulPlan (length variants.items)) }
    ensures representation { IfOk result (IsStoredAsAsked asked) }
{
    let bit_width = width_of(variants.as_slice());
    let store = match kind_of(asked, bit_width) {
        Representation::Integer(integer) => Store::Integer(integer, number_of(variants.as_slice())),
        Representation::Words => {
            let words = words_of(alloc, variants.as_slice(), bit_width.div_ceil(64))?;
            Store::Words(words)
        }
    };
    Ok(Plan {
        variants,
        store,
        bit_width,
    })
}

/// One past the greatest bit, or 0 if there is none.
fn width_of(named: &[NamedVariant]) -> u32
    requires { one_past_all (bits_of named.now) ≤ bit_end }
    ensures { result ≡ one_past_all (bits_of named.now) }
{
    match named.split_first() {
        None => 0,
        Some((first, rest)) => (first.bit + 1).max(width_of(rest)),
    }
}

/// What a set is stored in: what `repr` asks for, or else the smallest integer with at least this many bits, or words.
fn kind_of(asked: Option<Representation>, width: u32) -> Representation
    requires { width ≤ bit_limit asked }
    ensures kind { result ≡ kind_of asked width }
    ensures room { width ≤ bit_limit (Some result) }
{
    match asked {
        Some(representation) => representation,
        None if width <= 8 => Representation::Integer(IntegerType::U8),
        None if width <= 16 => Representation::Integer(IntegerType::U16),
        None if width <= 32 => Representation::Integer(IntegerType::U32),
        None if width <= 64 => Representation::Integer(IntegerType::U64),
        None if width <= 128 => Representation::Integer(IntegerType::U128),
        None => Representation::Words,
    }
}

/// The integer with the variants' bits.
fn number_of(named: &[NamedVariant]) -> u128
    requires distinct { IsTrue (is_distinct (bits_of named.now)) }
    requires below { one_past_all (bits_of named.now) ≤ 128 }
    ensures { IsTrue (lists_bits (bits_of named.now) result) }
{
    match named.split_first() {
        None => 0,
        Some((first, rest)) => number_of(rest) | 1 << first.bit,
    }
}

/// The words with the variants' bits. Their number is `count`.
fn words_of(alloc: Global, named: &[NamedVariant], count: u32) -> Result<Vec<u64>, AllocError>
    requires distinct { IsTrue (is_distinct (bits_of named.now)) }
    requires below { one_past_all (bits_of named.now) ≤ 64 * count }
    ensures count { IfOk result (λ words. length words.items ≡ count) }
    ensures bits { IfOk result (λ words. IsTrue (lists_words (bits_of named.now) words.items)) }
{
    let Some((first, rest)) = named.split_first() else {
        return Ok(vec![in alloc; 0u64; count as usize]?);
    };
    let mut words = words_of(alloc, rest, count)?;
    words[(first.bit / 64) as usize] |= 1 << (first.bit % 64);
    Ok(words)
}
