//! Decides requests: unites the rights of a user's roles, takes away what is denied, and names what is missing.

use crate::digest::Digest;
use crate::random::Random;
use crate::rights::{Right, Role};
use crate::symbols::Symbol;
use enumset::EnumSet;
use std::alloc::{AllocError, Global};

/// How many users a policy has.
const USERS: u32 = 4096;

/// How many grants a policy has.
const GRANTS: u32 = 24;

/// How many requests come in a round.
const REQUESTS: u32 = 20000;

/// What a role may do, and in which of the 160 areas.
#[derive(Clone, Copy)]
struct Grant {
    role: Role,
    rights: EnumSet<Right>,
    areas: EnumSet<Symbol>,
}

/// What is known of a user.
#[derive(Clone, Copy)]
struct User {
    roles: EnumSet<Role>,
    denied: EnumSet<Right>,
    closed: EnumSet<Symbol>,
}

/// What is asked for.
#[derive(Clone, Copy)]
struct Request {
    user: User,
    rights: EnumSet<Right>,
    areas: EnumSet<Symbol>,
}

/// The digest of the answers to all requests.
pub fn digest(alloc: Global, seed: u32, rounds: u32) -> Result<u64, AllocError> {
    let mut random = Random::new(seed);
    let mut digest = Digest::new();
    for _ in 0..rounds {
        let grants = random_grants(alloc, &mut random)?;
        let users = random_users(alloc, &mut random)?;
        let mut log = String::new(alloc);
        for _ in 0..REQUESTS {
            let request = random_request(&mut random, &users);
            answer(&grants, &request, &mut digest, &mut log)?;
        }
        digest.add_bytes(log.as_bytes());
    }
    Ok(digest.value())
}

/// Answers a request.
fn answer(
    grants: &[Grant],
    request: &Request,
    digest: &mut Digest,
    log: &mut String,
) -> Result<(), AllocError> {
    let mut rights = EnumSet::new();
    let mut areas = EnumSet::new();
    for grant in grants {
        if request.user.roles.contains(grant.role) {
            rights |= grant.rights;
            areas |= grant.areas;
        }
    }
    rights -= request.user.denied;
    areas -= request.user.closed;
    if rights.is_superset(request.rights) && request.areas.is_subset(areas) {
        digest.add(rights.len() as u64);
        return Ok(());
    }
    let missing = request.rights - rights;
    for right in missing {
        digest.add(u64::from(right as u32));
    }
    for area in (request.areas - areas).iter() {
        digest.add(area as u64);
    }
    if missing.len() == 1 {
        writeln!(log, "{} missing: {missing}", request.rights)?;
    }
    Ok(())
}

fn random_grants(alloc: Global, random: &mut Random) -> Result<Vec<Grant>, AllocError> {
    let mut grants = Vec::new(alloc);
    for number in 0..GRANTS {
        grants.push(Grant {
            role: role_of(number),
            rights: EnumSet::from_u64_truncated(random.number() & random.number()),
            areas: random_areas(random),
        })?;
    }
    Ok(grants)
}

fn random_users(alloc: Global, random: &mut Random) -> Result<Vec<User>, AllocError> {
    let mut users = Vec::new(alloc);
    for _ in 0..USERS {
        let roles = random.number() & random.number();
        let denied = random.number() & random.number() & random.number() & random.number();
        users.push(User {
            roles: EnumSet::from_u64_truncated(roles),
            denied: EnumSet::from_u64_truncated(denied),
            closed: random_areas(random) & random_areas(random) & random_areas(random),
        })?;
    }
    Ok(users)
}

fn random_request(random: &mut Random, users: &[User]) -> Request {
    let nobody = User {
        roles: EnumSet::new(),
        denied: EnumSet::new(),
        closed: EnumSet::new(),
    };
    let user = random.item(users, nobody);
    let rights = random.number() & random.number() & random.number();
    let area = random.number();
    let words = [
        area & area >> 8 & area >> 16 & area >> 24,
        0,
        1 << (area & 63),
        0,
    ];
    Request {
        user,
        rights: EnumSet::from_u64_truncated(rights),
        areas: EnumSet::from_array_truncated(words),
    }
}

fn role_of(number: u32) -> Role {
    match number % 12 {
        0 => Role::Guest,
        1 => Role::Reader,
        2 => Role::Commenter,
        3 => Role::Author,
        4 => Role::Editor,
        5 => Role::Reviewer,
        6 => Role::Translator,
        7 => Role::Publisher,
        8 => Role::Archivist,
        9 => Role::Auditor,
        10 => Role::Manager,
        _ => Role::Owner,
    }
}

fn random_areas(random: &mut Random) -> EnumSet<Symbol> {
    EnumSet::from_array_truncated([
        random.number(),
        random.number(),
        random.number(),
        random.number(),
    ])
}
