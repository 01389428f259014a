//! Settings, a struct with a set in it, as an object in JSON.

ghost use Rattle.std.specs.Prelude.{◌≡◌, Ok, Some, None, Err, IfOk, IfErr, option_map, option_and_then, codes};
ghost use Rattle.enumset.specs.JsonNames.{list_value};
ghost use Rattle.enumset.specs.declared.set_json.fault.JsonFault.{JsonFault};
ghost use Rattle.enumset.specs.declared.set_json.fault.JsonFault.TheVariants as fault;
ghost use Rattle.example_set_facts.specs.Features.{names, set_read};
ghost use Rattle.serde_json.specs.Data.{object, number, unsigned, put, no_members};
ghost use Rattle.serde_json.specs.Find.{get, as_number, as_u64};
ghost use Rattle.serde_json.specs.View.{view};

use crate::features::Feature;
use enumset::EnumSet;
use enumset::set_json::JsonFault;
use serde_json::{Map, Value, put};
use std::alloc::Global;

/// Settings. In JSON they are an object like `{"features":["Reports","Alerts"],"limit":80}`.
#[derive(Clone, Copy, Debug, PartialEq, Eq)]
pub struct Settings {
    pub features: EnumSet<Feature>,
    pub limit: u64,
}

/// Why a value is not read as settings.
#[derive(Clone, Copy, Debug, PartialEq, Eq)]
pub enum SettingsFault {
    /// There is no member `features`.
    NoFeatures,
    /// The member `features` is not a set.
    Features(JsonFault),
    /// There is no member `limit` that is a whole number from 0 to 2^64 - 1.
    NoLimit,
}

impl From<JsonFault> for SettingsFault {
    ghost use Rattle.std.specs.Prelude.{◌≡◌};
    ghost use Rattle.example_set_facts.specs.declared.settings.SettingsFault.TheVariants.{Features};

    ghost from_gives = { λ fault refusal. refusal ≡ Features fault };

    fn from(fault: JsonFault) -> SettingsFault {
        SettingsFault::Features(fault)
    }
}

/// The settings that a value has.
pub fn settings_of(value: &Value) -> Result<Settings, SettingsFault>
    ensures features { IfOk result (λ settings. option_map set_read (get (codes "features") (view value.now))
        ≡ Some (Ok settings.features)) }
    ensures limit { IfOk result (λ settings. option_and_then as_u64
        (option_and_then as_number (get (codes "limit") (view value.now))) ≡ Some settings.limit) }
    ensures no_features { result ≡ Err SettingsFault.NoFeatures → get (codes "features") (view value.now) ≡ None }
    ensures not_read { (f : JsonFault) → result ≡ Err (SettingsFault.Features f)
        → option_map set_read (get (codes "features") (view value.now)) ≡ Some (Err f) }
    ensures no_limit { result ≡ Err SettingsFault.NoLimit → option_and_then as_u64
        (option_and_then as_number (get (codes "limit") (view value.now))) ≡ None }
{
    let features = value.get("features").ok_or(SettingsFault::NoFeatures)?;
    let features = Feature::from_json(features)?;
    let limit = value.get("limit").and_then(|limit| limit.as_u64());
    Ok(Settings {
        features,
        limit: limit.ok_or(SettingsFault::NoLimit)?,
    })
}

/// The object of settings.
pub fn value_of(alloc: Global, settings: &Settings) -> Result<Value, JsonFault>
    ensures object { IfOk result (λ value. view value ≡ object
        (put (codes "limit") (number (unsigned settings.now.limit))
        (put (codes "features") (list_value names settings.now.features) no_members))) }
    ensures fault { IfErr result (λ f. f ≡ fault.OutOfMemory) }
{
    let features = Feature::to_json(alloc, &settings.features)?;
    let mut members = Map::new(alloc);
    put(&mut members, alloc, "features", features)?;
    put(&mut members, alloc, "limit", Value::from(settings.limit))?;
    Ok(Value::Object(members))
}
