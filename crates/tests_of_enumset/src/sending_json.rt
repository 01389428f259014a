//! Flags that are sent as JSON.

ghost use Rattle.std.specs.Prelude.{◌≡◌, ◌≤◌, ◌↔◌, IsOk, IsTrue, IfOk, IfErr};
ghost use Rattle.enumset.specs.Sets as set;
ghost use Rattle.enumset.specs.Json.{width_of};
ghost use Rattle.enumset.specs.declared.set_json.fault.JsonFault.TheVariants.{OutOfMemory};

use enumset::set::MixedEnumSet;
use enumset::set_json::{
    JsonFault, JsonWidth, Unknown, from_list_text, from_number, from_words, mixed_from_number,
    mixed_to_number, to_list_text, to_number, to_words,
};
use enumset::{EnumSet, EnumSetNames, EnumSetType, EnumSetTypeWithRepr, laws};
use std::alloc::Global;

/// Sends flags as a number, and reads them again.
pub fn sent_as_number<T: EnumSetType>(
    alloc: Global,
    flags: &EnumSet<T>,
    width: JsonWidth,
    unknown: Unknown,
) -> Result<EnumSet<T>, JsonFault>
    ensures fits { IsOk result ↔ IsTrue (set.is_subset flags.now (set.below (width_of width))) }
    ensures same { IfOk result (λ read. read ≡ flags.now) }
{
    laws::json_number_and_back(flags, width, unknown);
    from_number(&to_number(alloc, flags, width)?, width, unknown)
}

/// Sends flags as words, and reads them again.
pub fn sent_as_words<T: EnumSetType>(
    alloc: Global,
    flags: &EnumSet<T>,
    unknown: Unknown,
) -> Result<EnumSet<T>, JsonFault>
    ensures same { IfOk result (λ read. read ≡ flags.now) }
    ensures fault { IfErr result (λ fault. fault ≡ OutOfMemory) }
{
    laws::json_words_and_back(flags, unknown);
    from_words(&to_words(alloc, flags)?, unknown)
}

/// Sends flags as the text of a list, and reads them again.
pub fn sent_as_list_text<T: EnumSetNames>(
    alloc: Global,
    flags: &EnumSet<T>,
    unknown: Unknown,
) -> Result<EnumSet<T>, JsonFault>
    ensures same { IfOk result (λ read. read ≡ flags.now) }
    ensures fault { IfErr result (λ fault. fault ≡ OutOfMemory) }
{
    laws::json_list_and_back(flags, unknown);
    let text = to_list_text(alloc, flags)?;
    from_list_text(alloc, text.as_str(), unknown)
}

/// Sends flags, unknown ones included, as a number, and reads them again.
pub fn sent_with_unknown<T: EnumSetTypeWithRepr>(
    alloc: Global,
    flags: &MixedEnumSet<T>,
) -> Result<MixedEnumSet<T>, JsonFault>
    requires narrow { T.Repr.WIDTH ≤ 64 }
    ensures succeeds { IsOk result }
    ensures same { IfOk result (λ read. read ≡ flags.now) }
{
    laws::json_mixed_number_and_back(flags);
    mixed_from_number(&mixed_to_number(alloc, flags)?)
}
