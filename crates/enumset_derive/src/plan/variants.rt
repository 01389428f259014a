//! The variants of an enum, each with its bit, and all faults of them.

ghost use Rattle.std.specs.Prelude.{◌≡◌, ◌<◌, ◌≤◌, false, [], IsTrue, IfOk, IfSome, None};
ghost use Rattle.std.specs.List.{find};
ghost use Rattle.std.specs.Option.{option_map};
ghost use Rattle.enumset_repr.specs.BitSet.{is_in};
ghost use Rattle.enumset_repr.specs.Number.{is_distinct};
ghost use Rattle.enumset_repr.specs.Lawful.{one_past_all};
ghost use Rattle.enumset_source.specs.declared.number.Number.TheVariants.{Natural};
ghost use Rattle.enumset_derive.specs.declared.plan.variants.Implied.TheVariants as implied;
ghost use Rattle.enumset_derive.specs.Numbers.{bit_of, bit_limit, json_limit};
ghost use Rattle.enumset_derive.specs.Variants.{has_taken, taken_fault, map_of, repr_fault, json_fault, without_bit, with_bit, variant_plan, fault_at};
ghost use Rattle.enumset_derive.specs.Variants.{discriminant_of, discriminant_after, name_fault, named_after, bits_of, with_some};

use crate::fault::{Fault, Reason};
use crate::plan::{Discriminant, NamedVariant, Options, Variant};
use enumset_source::{Map, Number, Place, Representation, Serialized};
use std::alloc::{AllocError, Global};

/// The greatest number of variants that an enum may have.
const VARIANT_LIMIT: usize = 256;

/// One past the greatest bit that a variant may have, since the constants of a module list all words of a set.
const BIT_LIMIT: u32 = 65536;

/// The variants with a bit of their own, and all faults.
#[derive(Drop)]
pub struct Named {
    pub variants: Vec<NamedVariant>,
    pub faults: Vec<Fault>,
}

/// A variant with its bit, and its faults.
#[derive(Clone, Copy)]
struct VariantPlan {
    /// If it has a bit of its own.
    variant: Option<NamedVariant>,
    /// Why it has no bit, or not one of its own.
    bit_fault: Option<Fault>,
    /// That its bit is past `repr`.
    repr_fault: Option<Fault>,
    /// That its bit is past `serialize_repr`.
    json_fault: Option<Fault>,
}

impl VariantPlan {
    /// A variant without a bit.
    fn without_bit(fault: Option<Fault>) -> VariantPlan
        ensures { result ≡ without_bit fault }
    {
        VariantPlan {
            variant: None,
            bit_fault: fault,
            repr_fault: None,
            json_fault: None,
        }
    }
}

/// The discriminant of a variant that gives none.
#[derive(Clone, Copy)]
pub enum Implied {
    Number(Number),
    /// It is past 2^128 - 1.
    TooLarge,
    /// That of a variant before could not be read.
    Unknown,
}

impl Implied {
    /// That of the first variant.
    pub const FIRST: Implied = Implied::Number(Number::Natural(0));
}

/// The variants with their bits, and all faults.
pub fn name_variants(
    alloc: Global,
    options: &Options,
    variants: &[Variant],
) -> Result<Named, AllocError>
    ensures named { IfOk result (λ named. named_after options.now [] [] [] (implied.Number (Natural 0)) variants.now
        ≡ (named.variants.items, named.faults.items)) }
    ensures distinct { IfOk result (λ named. IsTrue (is_distinct (bits_of named.variants.items))) }
    ensures range { IfOk result (λ named. named.faults.items ≡ [] →
        one_past_all (bits_of named.variants.items) ≤ bit_limit options.now.representation) }
{
    let mut named = Vec::new(alloc);
    let mut faults = Vec::new(alloc);
    let mut implied = Implied::FIRST;
    for (i, variant) in variants.iter().enumerate() {
        let number = discriminant_of(variant, implied);
        implied = discriminant_after(number);
        push_some(&mut faults, name_fault(&variants[..i], variant))?;
        let plan = plan_variant(options, i, &named, number, variant);
        push_some(&mut named, plan.variant)?;
        push_some(&mut faults, plan.bit_fault)?;
        push_some(&mut faults, plan.repr_fault)?;
        push_some(&mut faults, plan.json_fault)?;
    }
    Ok(Named {
        variants: named,
        faults,
    })
}

/// Adds an item at the end, if there is one.
pub fn push_some<T: Drop>(items: &mut Vec<T>, item: Option<T>) -> Result<(), AllocError>
    ensures { IfOk result (λ _. items.new.items ≡ with_some items.old.items item) }
{
    match item {
        Some(item) => Ok(items.push(item)?),
        None => Ok(()),
    }
}

/// The discriminant of a variant, given or implied.
pub fn discriminant_of(variant: &Variant, implied: Implied) -> Implied
    ensures { result ≡ discriminant_of variant.now implied }
{
    match variant.discriminant {
        Discriminant::Implied => implied,
        Discriminant::Given(given) => Implied::Number(given.number),
        Discriminant::Unread => Implied::Unknown,
    }
}

/// The implied discriminant after this one.
pub fn discriminant_after(number: Implied) -> Implied
    ensures { result ≡ discriminant_after number }
{
    match number {
        Implied::Number(number) => number.next().map_or(Implied::TooLarge, Implied::Number),
        Implied::TooLarge | Implied::Unknown => Implied::Unknown,
    }
}

/// The fault of a variant with the same name as an earlier one.
fn name_fault(earlier: &[Variant], variant: &Variant) -> Option<Fault>
    ensures { result ≡ name_fault earlier.now variant.now }
{
    let first = earlier.iter().find(|other| other.name == variant.name)?;
    Some(Reason::NameTwice(first.place).at(variant.place))
}

/// The variant at this place with its bit, and its faults. `named` are the variants before it that have a bit of their own.
fn plan_variant(
    options: &Options,
    place: usize,
    named: &[NamedVariant],
    number: Implied,
    variant: &Variant,
) -> VariantPlan
    ensures plan { result ≡ variant_plan options.now place named.now number variant.now }
    ensures new { IfSome result.variant (λ n. is_in n.bit (bits_of named.now) ≡ false) }
    ensures range { result.repr_fault ≡ None →
        IfSome result.variant (λ n. n.bit < bit_limit options.now.representation) }
{
    if place >= VARIANT_LIMIT {
        return VariantPlan::without_bit(Some(Reason::TooManyVariants.at(variant.place)));
    }
    let number = match number {
        Implied::Number(number) => number,
        Implied::TooLarge => {
            return VariantPlan::without_bit(Some(Reason::ImpliedTooLarge.at(variant.place)));
        }
        Implied::Unknown => return VariantPlan::without_bit(None),
    };
    let at = variant.number_place();
    let width = bit_limit(options.representation);
    match bit_of(map_of(options), width, place as u32, number) {
        Ok(bit) => with_bit(options, at, number, bit, named),
        Err(reason) => VariantPlan::without_bit(Some(reason.at(at))),
    }
}

/// A variant with this bit, and its faults, where `named` are the variants before it that have a bit of their own.
#[tactic(auto, using(crate::proofs::Named::not_taken))]
fn with_bit(
    options: &Options,
    place: Place,
    number: Number,
    bit: u32,
    named: &[NamedVariant],
) -> VariantPlan
    ensures plan { result ≡ with_bit options.now place number bit (find (has_taken bit number) named.now) }
    ensures new { IfSome result.variant (λ n. is_in n.bit (bits_of named.now) ≡ false) }
    ensures range { result.repr_fault ≡ None →
        IfSome result.variant (λ n. n.bit < bit_limit options.now.representation) }
{
    let (variant, bit_fault) = match taken_by(named, bit, number) {
        Some(first) => (None, Some(taken_fault(bit, first).at(place))),
        None => (Some(NamedVariant { bit, number, place }), None),
    };
    VariantPlan {
        variant,
        bit_fault,
        repr_fault: fault_of(repr_fault(options, bit), place),
        json_fault: fault_of(json_fault(options, bit), place),
    }
}

/// The fault for a reason at a place, if there is one.
fn fault_of(reason: Option<Reason>, place: Place) -> Option<Fault>
    ensures { result ≡ option_map (fault_at place) reason }
{
    match reason {
        Some(reason) => Some(reason.at(place)),
        None => None,
    }
}

/// The fault of a variant that has the bit or the discriminant of this one.
fn taken_fault(bit: u32, first: NamedVariant) -> Reason
    ensures { result ≡ taken_fault bit first }
{
    match bit == first.bit {
        true => Reason::BitTwice(first.place),
        false => Reason::DiscriminantTwice(first.place),
    }
}

/// The fault of a bit past `repr`.
fn repr_fault(options: &Options, bit: u32) -> Option<Reason>
    ensures { result ≡ repr_fault options.now bit }
{
    let width = bit_limit(options.representation);
    match bit < width {
        true => None,
        false => Some(Reason::PastRepresentation { bit, width }),
    }
}

/// The fault of a bit past `serialize_repr`.
fn json_fault(options: &Options, bit: u32) -> Option<Reason>
    ensures { result ≡ json_fault options.now bit }
{
    let width = json_limit(options.serialized);
    match bit < width {
        true => None,
        false => Some(Reason::PastSerialized { bit, width }),
    }
}

/// The map: `msb` only if `repr` is an integer, since it is a fault otherwise.
fn map_of(options: &Options) -> Map
    ensures { result ≡ map_of options.now }
{
    match (options.map, options.representation) {
        (Some((Map::Msb, _)), None | Some(Representation::Words)) | (None, _) => Map::Lsb,
        (Some((map, _)), _) => map,
    }
}

/// The first variant that has this bit or this discriminant.
fn taken_by(named: &[NamedVariant], bit: u32, number: Number) -> Option<NamedVariant>
    ensures { result ≡ find (has_taken bit number) named.now }
{
    let mut named = named.iter().copied();
    named.find(|other| bit == other.bit || number == other.number)
}

/// The bit of the variant with this discriminant at a place, counted from 0, or the reason why it has none. `width` is
/// the number of bits that a set is stored in.
fn bit_of(map: Map, width: u32, place: u32, number: Number) -> Result<u32, Reason>
    ensures { result ≡ bit_of map width place number }
{
    match (map, number) {
        (Map::Compact, _) => Ok(place),
        (Map::Mask, Number::Natural(mask)) if mask.is_power_of_two() => Ok(mask.trailing_zeros()),
        (Map::Mask, _) => Err(Reason::NotAMask),
        (Map::Lsb, Number::Natural(bit)) if bit < u128::from(BIT_LIMIT) => Ok(bit as u32),
        (Map::Msb, Number::Natural(bit)) if bit < u128::from(BIT_LIMIT) => match bit as u32 {
            bit if bit < width => Ok(width - 1 - bit),
            bit => Err(Reason::PastRepresentation { bit, width }),
        },
        _ => Err(Reason::PastGreatest),
    }
}

/// One past the greatest bit that a set in this representation may have.
fn bit_limit(representation: Option<Representation>) -> u32
    ensures { result ≡ bit_limit representation }
{
    match representation {
        Some(Representation::Integer(integer)) => integer.width(),
        _ => BIT_LIMIT,
    }
}

/// One past the greatest bit that a set in this form of JSON may have.
fn json_limit(serialized: Option<Serialized>) -> u32
    ensures { result ≡ json_limit serialized }
{
    match serialized {
        Some(Serialized::Bits(representation)) => bit_limit(Some(representation)),
        _ => BIT_LIMIT,
    }
}
