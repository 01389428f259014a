//! Features that a text in JSON lists or has as a number, and what is checked of them.

ghost use Rattle.std.specs.Prelude.{◌≡◌, ◌≢◌, ◌⊎◌, ℕ, true, false, Some, Ok, Err, IfOk, IfErr, IfSome, IfNone};
ghost use Rattle.std.specs.Prelude.{option_map, is_ok, string_bytes, decimal};
ghost use Rattle.enumset.specs.Sets as set;
ghost use Rattle.enumset.specs.Sets.{BitSet, number, valid_bits};
ghost use Rattle.enumset.specs.Json.{set_of_number};
ghost use Rattle.enumset.specs.JsonNames.{list_value};
ghost use Rattle.enumset.specs.JsonReads.{IsReadOf, value_read};
ghost use Rattle.enumset.specs.declared.set_json.fault.JsonFault.{JsonFault};
ghost use Rattle.enumset.specs.declared.set_json.fault.JsonFault.TheVariants as fault;
ghost use Rattle.enumset.specs.declared.set_json.unknown.Unknown.TheVariants as unknown;
ghost use Rattle.example_set_facts.specs.Bits.{feature};
ghost use Rattle.example_set_facts.specs.Configs.{IsFaultOfBoth};
ghost use Rattle.example_set_facts.specs.Features.{names, set_in, set_read};
ghost use Rattle.serde_json.specs.Written.{compact_text};

use crate::features::Feature;
use enumset::set_json::{
    JsonFault, JsonWidth, Unknown, from_list_text, from_number_text, to_list_text, to_number_text,
};
use enumset::{EnumSet, EnumSetNames, EnumSetType, laws};
use std::alloc::Global;

/// Why the features of a text are refused.
#[derive(Drop)]
pub enum Refusal {
    /// The text does not list a set.
    Unread(JsonFault),
    /// These are required, and the text does not list them.
    Missing(EnumSet<Feature>),
    /// The text lists these, and they are forbidden.
    Forbidden(EnumSet<Feature>),
}

impl From<JsonFault> for Refusal {
    ghost use Rattle.std.specs.Prelude.{◌≡◌};
    ghost use Rattle.example_set_facts.specs.declared.configs.Refusal.TheVariants.{Unread};

    ghost from_gives = { λ fault refusal. refusal ≡ Unread fault };

    fn from(fault: JsonFault) -> Refusal {
        Refusal::Unread(fault)
    }
}

/// The features that a text lists. A name that no feature has is a fault.
pub fn listed(alloc: Global, text: &str) -> Result<EnumSet<Feature>, JsonFault>
    ensures { IsReadOf set_read text.now result }
{
    Feature::from_json_text(alloc, text)
}

/// The features that a text lists, and the defaults.
pub fn with_defaults(
    alloc: Global,
    text: &str,
    defaults: &EnumSet<Feature>,
) -> Result<EnumSet<Feature>, JsonFault>
    ensures defaults { IfOk result (λ s. set.is_subset defaults.now s ≡ true) }
    ensures listed { (s : BitSet) → set_in text.now ≡ Some (Ok s)
        → IfOk result (λ all. all ≡ set.union s defaults.now) }
    ensures read { IfOk result (λ _. option_map is_ok (set_in text.now) ≡ Some true) }
    ensures fault { IfErr result (λ f. IsReadOf set_read text.now (Err f)) }
{
    let listed = listed(alloc, text)?;
    Ok(listed.union(defaults.copied()))
}

/// The features that a text lists, or the fault of the reader as a refusal.
pub fn read(alloc: Global, text: &str) -> Result<EnumSet<Feature>, Refusal>
    ensures read { IfOk result (λ s. set_in text.now ≡ Some (Ok s)) }
    ensures unread { IfErr result (λ r. (f : JsonFault) × (r ≡ Refusal.Unread f)
        × IsReadOf set_read text.now (Err f)) }
{
    Ok(Feature::from_json_text(alloc, text)?)
}

/// The features, if all required ones are among them, else the required ones that are missing.
pub fn required(
    features: &EnumSet<Feature>,
    required: &EnumSet<Feature>,
) -> Result<EnumSet<Feature>, Refusal>
    ensures same { IfOk result (λ s. s ≡ features.now) }
    ensures has { IfOk result (λ s. set.is_subset required.now s ≡ true) }
    ensures missing { IfErr result (λ r. r ≡ Refusal.Missing (set.difference required.now features.now)) }
    ensures lacks { IfErr result (λ _. set.is_subset required.now features.now ≡ false) }
{
    let missing = required.difference(features.copied());
    if missing.is_empty() {
        Ok(features.copied())
    } else {
        Err(Refusal::Missing(missing))
    }
}

/// The features, if none of them is forbidden, else those that are.
pub fn permitted(
    features: &EnumSet<Feature>,
    forbidden: &EnumSet<Feature>,
) -> Result<EnumSet<Feature>, Refusal>
    ensures same { IfOk result (λ s. s ≡ features.now) }
    ensures apart { IfOk result (λ s. set.is_disjoint s forbidden.now ≡ true) }
    ensures forbidden { IfErr result (λ r. r ≡ Refusal.Forbidden (set.intersection features.now forbidden.now)) }
    ensures shares { IfErr result (λ _. set.is_disjoint features.now forbidden.now ≡ false) }
{
    let refused = features.intersection(forbidden.copied());
    if refused.is_empty() {
        Ok(features.copied())
    } else {
        Err(Refusal::Forbidden(refused))
    }
}

/// The features that a text lists, if all that is required is among them, and nothing that is forbidden. Else the fault
/// of the reader, or what is missing; or, if nothing is, what is forbidden.
pub fn checked(
    alloc: Global,
    text: &str,
    wanted: &EnumSet<Feature>,
    forbidden: &EnumSet<Feature>,
) -> Result<EnumSet<Feature>, Refusal>
    ensures has { IfOk result (λ s. set.is_subset wanted.now s ≡ true) }
    ensures apart { IfOk result (λ s. set.is_disjoint s forbidden.now ≡ true) }
    ensures listed { IfOk result (λ s. set_in text.now ≡ Some (Ok s)) }
    ensures unread { IfErr result (λ r. (f : JsonFault) → r ≡ Refusal.Unread f
        → IsReadOf set_read text.now (Err f)) }
    ensures read { IfErr result (λ r. (s : BitSet) → (r ≡ Refusal.Missing s) ⊎ (r ≡ Refusal.Forbidden s)
        → option_map is_ok (set_in text.now) ≡ Some true) }
    ensures missing { (s : BitSet) → set_in text.now ≡ Some (Ok s)
        → IfErr result (λ r. (missing : BitSet) → r ≡ Refusal.Missing missing
        → (missing ≡ set.difference wanted.now s) × (set.is_subset wanted.now s ≡ false)) }
    ensures refused { (s : BitSet) → set_in text.now ≡ Some (Ok s)
        → IfErr result (λ r. (refused : BitSet) → r ≡ Refusal.Forbidden refused
        → (refused ≡ set.intersection s forbidden.now)
        × (set.is_subset wanted.now s ≡ true) × (set.is_disjoint s forbidden.now ≡ false)) }
{
    let features = listed(alloc, text)?;
    let features = required(&features, wanted)?;
    permitted(&features, forbidden)
}

/// Returns the place of the first name in a text that no feature has, or `None` if the text lists a set. Any other
/// fault is returned as an error.
pub fn unknown_name(alloc: Global, text: &str) -> Result<Option<usize>, JsonFault>
    ensures place { IfOk result (λ found. IfSome found (λ place. set_in text.now
        ≡ Some (Err (fault.UnknownName place)))) }
    ensures none { IfOk result (λ found. IfNone found (option_map is_ok (set_in text.now) ≡ Some true)) }
    ensures fault { IfErr result (λ f. IsReadOf set_read text.now (Err f)) }
    ensures other { IfErr result (λ f. (place : ℕ) → f ≢ fault.UnknownName place) }
{
    match Feature::from_json_text(alloc, text) {
        Ok(_) => Ok(None),
        Err(JsonFault::UnknownName(place)) => Ok(Some(place)),
        Err(fault) => Err(fault),
    }
}

/// The text that lists features. It is read as these.
pub fn written(alloc: Global, features: &EnumSet<Feature>) -> Result<String, JsonFault>
    ensures text { IfOk result (λ text. string_bytes text ≡ compact_text (list_value names features.now)) }
    ensures reads { IfOk result (λ text. set_in (string_bytes text) ≡ Some (Ok features.now)) }
    ensures fault { IfErr result (λ f. f ≡ fault.OutOfMemory) }
{
    laws::json_list_and_back(features, Unknown::Refuse);
    Feature::to_json_text(alloc, features)
}

/// Features, written into a text and read again: the same.
pub fn written_and_read<T: EnumSetNames>(
    alloc: Global,
    features: &EnumSet<T>,
) -> Result<EnumSet<T>, JsonFault>
    ensures same { IfOk result (λ s. s ≡ features.now) }
    ensures fault { IfErr result (λ f. f ≡ fault.OutOfMemory) }
{
    laws::json_list_and_back(features, Unknown::Refuse);
    let text = to_list_text(alloc, features)?;
    from_list_text(alloc, text.as_str(), Unknown::Refuse)
}

/// The text that lists the features of a text and one more.
pub fn with_feature(alloc: Global, text: &str, new: Feature) -> Result<String, JsonFault>
    ensures reads { (s : BitSet) → set_in text.now ≡ Some (Ok s) → IfOk result (λ text. set_in
        (string_bytes text) ≡ Some (Ok (set.insert s (feature new)))) }
    ensures text { (s : BitSet) → set_in text.now ≡ Some (Ok s) → IfOk result (λ text. string_bytes text
        ≡ compact_text (list_value names (set.insert s (feature new)))) }
    ensures read { IfOk result (λ _. option_map is_ok (set_in text.now) ≡ Some true) }
    ensures fault { IfErr result (λ f. IsReadOf set_read text.now (Err f)) }
{
    let mut features = listed(alloc, text)?;
    features.insert(new);
    written(alloc, &features)
}

/// The features of a number in a text, if no reserved bit is set.
pub fn numbered<T: EnumSetType>(alloc: Global, text: &str) -> Result<EnumSet<T>, JsonFault>
    ensures read { IsReadOf (set_of_number (valid_bits T.elements) 8 unknown.Refuse) text.now result }
    ensures known { IfOk result (λ s. set.is_subset s (valid_bits T.elements) ≡ true) }
{
    from_number_text(alloc, text, JsonWidth::U8, Unknown::Refuse)
}

/// Whether the number in a text has a reserved bit. A text that has no number of a byte is a fault.
pub fn has_reserved<T: EnumSetType>(alloc: Global, text: &str) -> Result<bool, JsonFault>
    ensures reserved { IfOk result (λ has. has ≡ true
        → value_read (set_of_number (valid_bits T.elements) 8 unknown.Refuse) text.now
        ≡ Some (Err fault.UnknownBits)) }
    ensures none { IfOk result (λ has. has ≡ false
        → option_map is_ok (value_read (set_of_number (valid_bits T.elements) 8 unknown.Refuse) text.now)
        ≡ Some true) }
    ensures fault { IfErr result (λ f.
        IsReadOf (set_of_number (valid_bits T.elements) 8 unknown.Refuse) text.now (Err f)) }
    ensures other { IfErr result (λ f. f ≢ fault.UnknownBits) }
{
    match from_number_text::<T>(alloc, text, JsonWidth::U8, Unknown::Refuse) {
        Ok(_) => Ok(false),
        Err(JsonFault::UnknownBits) => Ok(true),
        Err(fault) => Err(fault),
    }
}

/// The number of the features that both texts list, if it fits a byte.
pub fn number_of_both(alloc: Global, one: &str, other: &str) -> Result<String, JsonFault>
    ensures number { (s t : BitSet) → set_in one.now ≡ Some (Ok s) → set_in other.now ≡ Some (Ok t)
        → IfOk result (λ text. string_bytes text ≡ decimal (number (set.intersection s t))) }
    ensures fits { (s t : BitSet) → set_in one.now ≡ Some (Ok s) → set_in other.now ≡ Some (Ok t)
        → IfOk result (λ _. set.is_subset (set.intersection s t) (set.below 8) ≡ true) }
    ensures too_wide { (s t : BitSet) → set_in one.now ≡ Some (Ok s) → set_in other.now ≡ Some (Ok t)
        → IfErr result (λ f. f ≡ fault.TooWide → set.is_subset (set.intersection s t) (set.below 8) ≡ false) }
    ensures read { IfOk result (λ _. (option_map is_ok (set_in one.now) ≡ Some true)
        × (option_map is_ok (set_in other.now) ≡ Some true)) }
    ensures fault { IfErr result (IsFaultOfBoth one.now other.now) }
{
    let both = listed(alloc, one)?.intersection(listed(alloc, other)?);
    to_number_text(alloc, &both, JsonWidth::U8)
}
