//! What versions of a server can do, and lists of what clients may use, with exceptions.

ghost use Rattle.std.specs.Prelude.{◌≡◌, ◌↔◌, ◌&&◌, not, true, false, IfOk, IfErr};
ghost use Rattle.enumset.specs.Sets as set;
ghost use Rattle.enumset.specs.Sets.{union_all};
ghost use Rattle.example_set_facts.specs.Bits.{capability};

use crate::capabilities::Capability;
use enumset::EnumSet;

/// Whether a capability may be used: it is listed, and not excepted.
pub fn may_use(
    listed: &EnumSet<Capability>,
    except: &EnumSet<Capability>,
    asked: Capability,
) -> bool
    ensures { result ≡ (set.contains listed.now (capability asked)
        && not (set.contains except.now (capability asked))) }
{
    listed.contains(asked) && !except.contains(asked)
}

/// What a client asks for that a list does not admit: what is not on it, and the exceptions.
pub fn kept_out(
    listed: &EnumSet<Capability>,
    except: &EnumSet<Capability>,
    asked: &EnumSet<Capability>,
) -> EnumSet<Capability>
    ensures { result ≡ set.union (set.difference asked.now listed.now)
        (set.intersection asked.now except.now) }
{
    *asked - (*listed - *except)
}

/// The capabilities that a new version lacks.
pub fn lost(old: &EnumSet<Capability>, new: &EnumSet<Capability>) -> EnumSet<Capability>
    ensures lost { result ≡ set.difference old.now new.now }
    ensures none { result ≡ set.empty ↔ (set.is_subset old.now new.now ≡ true) }
    ensures kept { set.difference old.now result ≡ set.intersection old.now new.now }
{
    *old - *new
}

/// A version that loses nothing, or else what it loses.
pub fn upgraded(
    old: &EnumSet<Capability>,
    new: &EnumSet<Capability>,
) -> Result<EnumSet<Capability>, EnumSet<Capability>>
    ensures ok { IfOk result (λ s. (s ≡ new.now) × (set.is_subset old.now s ≡ true)) }
    ensures err { IfErr result (λ s. (s ≡ set.difference old.now new.now) × (set.is_empty s ≡ false)) }
{
    if old.is_subset(*new) {
        Ok(*new)
    } else {
        Err(lost(old, new))
    }
}

/// What a version lost that a later one has again.
pub fn restored(
    old: &EnumSet<Capability>,
    new: &EnumSet<Capability>,
    later: &EnumSet<Capability>,
) -> EnumSet<Capability>
    ensures { result ≡ set.intersection (set.difference old.now new.now) (set.difference later.now new.now) }
{
    (*old & *later) - *new
}

/// What many versions have together, without what is reserved.
pub fn unreserved(
    sets: &[EnumSet<Capability>],
    reserved: &EnumSet<Capability>,
) -> EnumSet<Capability>
    ensures whole { result ≡ set.difference (union_all sets.now) reserved.now }
    ensures apart { set.is_disjoint result reserved.now ≡ true }
{
    let all: EnumSet<Capability> = sets.iter().copied().sum();
    all - *reserved
}
