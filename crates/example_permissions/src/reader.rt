//! Policies and requests as texts.

ghost use Rattle.std.specs.Prelude.{◌≡◌, map, option_map, string_bytes, [], Ok, IfOk, IfErr, IsOk, ◌↔◌};
ghost use Rattle.enumset.specs.Names.{names_of};
ghost use Rattle.enumset.specs.JsonNames.{members_in};
ghost use Rattle.serde_json.specs.View.{view, members_view};
ghost use Rattle.example_permissions.specs.Answers.{grant_seen, user_of, AreUsersRead, IsPolicyRead, IsAnswerTo};
ghost use Rattle.example_permissions.specs.Reading.{words_of, object_in, set_in, grants_in, users_in, policy_read, request_in, IsFaultOf, IsFaultOfText};

use crate::decision::{Decision, decide};
use crate::fault::Fault;
use crate::policy::{Grant, User, add_grant};
use crate::rights::Right;
use crate::roles::Role;
use enumset::set_json::{Unknown, from_list};
use enumset::{EnumSet, EnumSetNames};
use serde_json::{Map, Value};
use std::alloc::{AllocError, Global};
use std::collections::BTreeMap;

/// What roles are granted, and the users by name.
#[derive(Debug, Drop)]
pub struct Policy {
    pub grants: Vec<Grant>,
    pub users: BTreeMap<String, User>,
}

impl Policy {
    /// The policy of a JSON text. The fault says what is wrong with the first part that is wrong, that the text is not
    /// JSON, or that memory ran out.
    pub fn from_json(alloc: Global, text: &str) -> Result<Policy, Fault>
        ensures policy { IfOk result (IsPolicyRead (policy_read text.now)) }
        ensures fault { IfErr result (IsFaultOfText (policy_read text.now)) }
    {
        let policy = Value::from_str(alloc, text).map_err(Fault::Json)?;
        let grants = read_grants(alloc, object_in(&policy, "grants")?)?;
        let users = read_users(alloc, object_in(&policy, "users")?)?;
        Ok(Policy { grants, users })
    }

    /// The decision for a request, such as `ann Read Write`, or `None` for a line without words. The fault has the
    /// first unknown name, or says that memory ran out while this name was copied.
    pub fn answer(&self, alloc: Global, line: &str) -> Result<Option<Decision>, Fault>
        ensures answer { IfOk result
            (IsAnswerTo self.now (request_in (user_of self.now) (words_of line.now))) }
        ensures fault { IfErr result
            (IsFaultOf (request_in (user_of self.now) (words_of line.now))) }
        ensures answered { IsOk result
            ↔ IsOk (request_in (user_of self.now) (words_of line.now)) }
    {
        let mut words = line.split_ascii_whitespace();
        let Some(name) = words.next() else {
            return Ok(None);
        };
        let Some(user) = self.users.get(name) else {
            return Err(Fault::NoUser(String::from_str(alloc, name)?));
        };
        let mut asked = EnumSet::new();
        for word in words {
            let Some(right) = Right::of_name(word) else {
                return Err(Fault::NoRight(String::from_str(alloc, word)?));
            };
            asked.insert(right);
        }
        Ok(Some(decide(&self.grants, user, asked)))
    }
}

/// The object that a value has under a name.
fn object_in<'a>(value: &'a Value, name: &'static str) -> Result<&'a Map<String, Value>, Fault>
    ensures object { IfOk result (λ object. object_in name.now (view value.now)
        ≡ Ok (members_in (members_view object.now.entries))) }
    ensures fault { IfErr result (IsFaultOf (object_in name.now (view value.now))) }
{
    let object = value.get(name).and_then(|member| member.as_object());
    object.ok_or(Fault::NoObject(name))
}

/// What each role is granted.
fn read_grants(alloc: Global, roles: &Map<String, Value>) -> Result<Vec<Grant>, Fault>
    ensures grants { IfOk result (λ grants. grants_in (members_in (members_view roles.now.entries))
        ≡ Ok (map grant_seen grants.items)) }
    ensures fault { IfErr result
        (IsFaultOf (grants_in (members_in (members_view roles.now.entries)))) }
{
    let mut grants = Vec::new(alloc);
    for (name, rights) in roles.iter() {
        let Some(role) = Role::of_name(name.as_str()) else {
            return Err(Fault::NoRole(name.clone()?));
        };
        let rights = read_list("grants", name, Some(rights))?;
        add_grant(&mut grants, Grant { role, rights })?;
    }
    Ok(grants)
}

/// The users by name.
fn read_users(alloc: Global, members: &Map<String, Value>) -> Result<BTreeMap<String, User>, Fault>
    ensures users { IfOk result
        (AreUsersRead (users_in [] (members_in (members_view members.now.entries)))) }
    ensures fault { IfErr result
        (IsFaultOf (users_in [] (members_in (members_view members.now.entries)))) }
{
    let mut users = BTreeMap::new(alloc);
    for (name, member) in members.iter() {
        let user = User {
            roles: read_list("roles", name, member.get("roles"))?,
            denied: read_list("denials", name, member.get("denied"))?,
        };
        users.insert(name.clone()?, user).map_err(AllocError::from)?;
    }
    Ok(users)
}

/// The set of a list of names; empty if there is no list.
fn read_list<T: EnumSetNames>(
    list: &'static str,
    name: &String,
    names: Option<&Value>,
) -> Result<EnumSet<T>, Fault>
    ensures set { IfOk result (λ set. set_in (names_of T.elements T.names) list.now
        (string_bytes name.now) (option_map (λ v. view v.now) names.entry) ≡ Ok set) }
    ensures fault { IfErr result (IsFaultOf (set_in (names_of T.elements T.names) list.now
        (string_bytes name.now) (option_map (λ v. view v.now) names.entry))) }
{
    let Some(names) = names else {
        return Ok(EnumSet::new());
    };
    match from_list(names, Unknown::Refuse) {
        Ok(set) => Ok(set),
        Err(fault) => Err(Fault::List(list, name.clone()?, fault)),
    }
}
