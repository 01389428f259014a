//! Flags in a config file.

ghost use Rattle.std.specs.Prelude.{◌≡◌, ◌≢◌, ℕ, String, Some, None, Ok, Err, IfOk, OnOk};
ghost use Rattle.std.specs.Prelude.{option_and_then, option_map, string_bytes};
ghost use Rattle.std.specs.declared.alloc.Global.{Global};
ghost use Rattle.enumset.specs.Sets as set;
ghost use Rattle.enumset.specs.Sets.{BitSet};
ghost use Rattle.serde_json.specs.Data.{Data, string};
ghost use Rattle.serde_json.specs.Find.{at};
ghost use Rattle.serde_json.specs.Read.{read};
ghost use Rattle.serde_json.specs.View.{view};
ghost use Rattle.enumset.specs.JsonNames.{set_of_list};
ghost use Rattle.enumset.specs.Names.{names_of};
ghost use Rattle.enumset.specs.declared.set_json.fault.JsonFault.{JsonFault};
ghost use Rattle.enumset.specs.declared.set_json.fault.JsonFault.TheVariants as fault;
ghost use Rattle.enumset.specs.declared.set_json.unknown.Unknown.TheVariants as unknown;
ghost use Rattle.tests_of_enumset.specs.Configs.{list_in, flags_in, with_flags};

use enumset::set_json::{JsonFault, Unknown, from_list, to_list};
use enumset::{EnumSet, EnumSetNames};
use serde_json::{Error, Value, put};
use std::alloc::{AllocError, Global};
use std::{error, fmt};

/// Why the flags of a config text were not changed.
#[derive(Debug, Drop)]
pub enum ConfigFault {
    /// The text is not JSON. The error was found at this line.
    NotJson(usize),
    /// The text is not an object with a member `flags`.
    NoFlags,
    /// The list has this name, which is not a flag.
    UnknownName(String),
    /// The member `flags` is not a set, or the new set has no such JSON value.
    Flags(JsonFault),
    /// Out of memory.
    OutOfMemory,
}

impl fmt::Display for ConfigFault {
    ghost use Rattle.std.specs.Prelude.{Some, ◌++◌, codes, decimal, string_bytes};
    ghost use Rattle.enumset.specs.JsonTexts.{json_fault_text};
    ghost use Rattle.tests_of_enumset.specs.declared.config.ConfigFault.TheVariants.{NotJson, NoFlags, UnknownName, Flags, OutOfMemory};

    ghost output = { λ fault. Some (elim fault [
      | NotJson line ↦ codes "line " ++ (decimal line ++ codes ": not JSON")
      | NoFlags ↦ codes "no flags"
      | UnknownName name ↦ codes "flags: no flag is called " ++ string_bytes name
      | Flags f ↦ codes "flags: " ++ json_fault_text f
      | OutOfMemory ↦ codes "out of memory"
    ]) };

    fn fmt<W: fmt::Write>(&self, f: &mut fmt::Formatter<W>) -> fmt::Result {
        match self {
            ConfigFault::NotJson(line) => write!(f, "line {line}: not JSON"),
            ConfigFault::NoFlags => f.write_str("no flags"),
            ConfigFault::UnknownName(name) => write!(f, "flags: no flag is called {name}"),
            ConfigFault::Flags(fault) => write!(f, "flags: {fault}"),
            ConfigFault::OutOfMemory => f.write_str("out of memory"),
        }
    }
}

impl error::Error for ConfigFault {}

impl From<Error> for ConfigFault {
    ghost use Rattle.std.specs.Prelude.{◌≡◌, ◌⊎◌, ℕ};
    ghost use Rattle.serde_json.specs.Errors.{IsMemory};
    ghost use Rattle.tests_of_enumset.specs.declared.config.ConfigFault.TheVariants.{NotJson, OutOfMemory};

    ghost from_gives = { λ error fault. (IsMemory error × (fault ≡ OutOfMemory))
        ⊎ ((¬ IsMemory error) × ((line : ℕ) × (fault ≡ NotJson line))) };

    fn from(error: Error) -> ConfigFault {
        if error.is_memory() {
            ConfigFault::OutOfMemory
        } else {
            ConfigFault::NotJson(error.line())
        }
    }
}

impl From<JsonFault> for ConfigFault {
    ghost use Rattle.std.specs.Prelude.{◌⊎◌};
    ghost use Rattle.tests_of_enumset.specs.declared.config.ConfigFault.TheVariants.{Flags, OutOfMemory};

    ghost from_gives = { λ f refusal. ((f ≡ fault.OutOfMemory) × (refusal ≡ OutOfMemory))
        ⊎ ((f ≢ fault.OutOfMemory) × (refusal ≡ Flags f)) };

    fn from(fault: JsonFault) -> ConfigFault {
        match fault {
            JsonFault::OutOfMemory => ConfigFault::OutOfMemory,
            other => ConfigFault::Flags(other),
        }
    }
}

impl From<AllocError> for ConfigFault {
    ghost use Rattle.std.specs.Prelude.{◌≡◌};
    ghost use Rattle.tests_of_enumset.specs.declared.config.ConfigFault.TheVariants.{OutOfMemory};

    ghost from_gives = { λ _ fault. fault ≡ OutOfMemory };

    fn from(_error: AllocError) -> ConfigFault {
        ConfigFault::OutOfMemory
    }
}

/// A config text with one more flag, if the flags are a list of names. All other values stay as they were.
pub fn with_flag_in_list<T: EnumSetNames>(
    alloc: Global,
    text: &str,
    flag: T,
) -> Result<String, ConfigFault>
    ensures changed { IfOk result (λ new. (config : Data) × (flags : BitSet)
        × (read text.now ≡ Some config)
        × (flags_in (names_of T.elements T.names) config ≡ Some (Ok flags))
        × (read (string_bytes new) ≡ Some (with_flags (names_of T.elements T.names)
        (set.insert flags (T.elements.bit flag)) config))) }
    ensures not_json { (line : ℕ) → result ≡ Err (ConfigFault.NotJson line) → read text.now ≡ None }
    ensures no_flags { result ≡ Err ConfigFault.NoFlags → option_map list_in (read text.now) ≡ Some None }
    ensures unknown { (name : String Global) → result ≡ Err (ConfigFault.UnknownName name)
        → (config : Data) × (place : ℕ) × (read text.now ≡ Some config)
        × (flags_in (names_of T.elements T.names) config ≡ Some (Err (fault.UnknownName place)))
        × (option_and_then (at place) (list_in config) ≡ Some (string (string_bytes name))) }
    ensures flags { (f : JsonFault) → result ≡ Err (ConfigFault.Flags f)
        → option_and_then (flags_in (names_of T.elements T.names)) (read text.now) ≡ Some (Err f) }
    ensures named { (place : ℕ) → result ≢ Err (ConfigFault.Flags (fault.UnknownName place)) }
{
    let mut config = Value::from_str(alloc, text)?;
    insert_flag(alloc, &mut config, flag)?;
    Ok(config.to_string_pretty(alloc)?)
}

/// Inserts a flag into the list of a config.
fn insert_flag<T: EnumSetNames>(
    alloc: Global,
    config: &mut Value,
    flag: T,
) -> Result<(), ConfigFault>
    ensures changed { OnOk result ((flags : BitSet)
        × (flags_in (names_of T.elements T.names) (view config.old) ≡ Some (Ok flags))
        × (view config.new ≡ with_flags (names_of T.elements T.names)
        (set.insert flags (T.elements.bit flag)) (view config.old))) }
    ensures parsed { (line : ℕ) → result ≢ Err (ConfigFault.NotJson line) }
    ensures no_flags { result ≡ Err ConfigFault.NoFlags → list_in (view config.old) ≡ None }
    ensures unknown { (name : String Global) → result ≡ Err (ConfigFault.UnknownName name)
        → (place : ℕ)
        × (flags_in (names_of T.elements T.names) (view config.old) ≡ Some (Err (fault.UnknownName place)))
        × (option_and_then (at place) (list_in (view config.old)) ≡ Some (string (string_bytes name))) }
    ensures flags { (f : JsonFault) → result ≡ Err (ConfigFault.Flags f)
        → flags_in (names_of T.elements T.names) (view config.old) ≡ Some (Err f) }
    ensures named { (place : ℕ) → result ≢ Err (ConfigFault.Flags (fault.UnknownName place)) }
{
    let list = config.get("flags").ok_or(ConfigFault::NoFlags)?;
    let mut flags: EnumSet<T> = read_flags(alloc, list)?;
    flags.insert(flag);
    let list = to_list(alloc, &flags)?;
    let members = config.as_object_mut().ok_or(ConfigFault::NoFlags)?;
    Ok(put(members, alloc, "flags", list)?)
}

/// Reads a list of flags. The fault for an unknown name has this name.
#[tactic(auto, using(crate::proofs::Unknown::unknown_texts))]
fn read_flags<T: EnumSetNames>(alloc: Global, list: &Value) -> Result<EnumSet<T>, ConfigFault>
    ensures read { IfOk result (λ flags.
        set_of_list (names_of T.elements T.names) unknown.Refuse (view list.now) ≡ Ok flags) }
    ensures parsed { (line : ℕ) → result ≢ Err (ConfigFault.NotJson line) }
    ensures found { result ≢ Err ConfigFault.NoFlags }
    ensures unknown { (name : String Global) → result ≡ Err (ConfigFault.UnknownName name)
        → (place : ℕ)
        × (set_of_list (names_of T.elements T.names) unknown.Refuse (view list.now) ≡ Err (fault.UnknownName place))
        × (at place (view list.now) ≡ Some (string (string_bytes name))) }
    ensures flags { (f : JsonFault) → result ≡ Err (ConfigFault.Flags f)
        → set_of_list (names_of T.elements T.names) unknown.Refuse (view list.now) ≡ Err f }
    ensures named { (place : ℕ) → result ≢ Err (ConfigFault.Flags (fault.UnknownName place)) }
{
    let read = from_list(list, Unknown::Refuse);
    if let Err(JsonFault::UnknownName(place)) = read {
        if let Some(name) = list.get(place).and_then(|item| item.as_str()) {
            return Err(ConfigFault::UnknownName(String::from_str(alloc, name)?));
        }
    }
    Ok(read?)
}
