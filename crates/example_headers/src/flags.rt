//! What this version does with a frame's flags.

ghost use Rattle.std.specs.Prelude.{◌≡◌};
ghost use Rattle.enumset.specs.Sets as set;
ghost use Rattle.example_headers.specs.Frames.{bit, known, reserved};

use crate::flag::Flag;
use crate::newer_flag::NewerFlag;
use enumset::set::MixedEnumSet;
use enumset::{EnumSet, laws};

/// What this version does with the flags that it knows. It clears the request for a receipt, and marks the frame as
/// relayed.
pub fn decide(flags: EnumSet<Flag>) -> EnumSet<Flag>
    ensures { result ≡ set.insert (set.remove flags (bit Flag.WantsReceipt)) (bit Flag.Relayed) }
{
    let mut decided = flags;
    decided.remove(Flag::WantsReceipt);
    decided.insert(Flag::Relayed);
    decided
}

/// The flags, with those that this version knows replaced by others. The reserved bits stay.
pub fn replace_known(flags: MixedEnumSet<Flag>, decided: EnumSet<Flag>) -> MixedEnumSet<Flag>
    ensures known { known result ≡ decided }
    ensures reserved { reserved result ≡ reserved flags }
{
    laws::members_are_valid(&decided);
    (flags - EnumSet::all()) | decided
}

/// The flags of a frame that is sent on.
pub fn relay_flags(flags: MixedEnumSet<Flag>) -> MixedEnumSet<Flag>
    ensures known { known result
        ≡ set.insert (set.remove (known flags) (bit Flag.WantsReceipt)) (bit Flag.Relayed) }
    ensures reserved { reserved result ≡ reserved flags }
{
    replace_known(flags, decide(flags.as_enumset_truncate()))
}

/// The flags that a program of version 2 gets back from this version. What only version 2 knows is as it was sent.
///
/// The program does not call it. It carries the theorem that a relay of version 1 loses no bit of version 2.
pub fn back_at_newer(sent: EnumSet<NewerFlag>) -> MixedEnumSet<NewerFlag>
    ensures known { known result
        ≡ set.insert (set.remove (known sent) (bit Flag.WantsReceipt)) (bit Flag.Relayed) }
    ensures reserved { reserved result ≡ reserved sent }
{
    let at_this_version = MixedEnumSet::<Flag>::from_repr(sent.as_repr());
    MixedEnumSet::from_repr(relay_flags(at_this_version).as_repr())
}
