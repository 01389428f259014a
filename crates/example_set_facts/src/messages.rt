//! Bytes of messages, some bits of which are reserved for later versions.

ghost use Rattle.std.specs.Prelude.{◌≡◌, ◌↔◌, true, IsSome, IfSome};
ghost use Rattle.enumset.specs.Sets as set;
ghost use Rattle.enumset.specs.Sets.{bits, number, valid_bits};
ghost use Rattle.example_set_facts.specs.Bits.{flag};

use crate::flags::Flag;
use enumset::{EnumSet, EnumSetType, laws};

/// The known flags of a byte. Reserved bits are ignored.
pub fn known(byte: u8) -> EnumSet<Flag>
    ensures known { result ≡ set.difference (bits byte)
        (set.difference (bits byte) (valid_bits ⟦<Flag as EnumSetType>⟧.elements)) }
    ensures sent { set.is_subset result (bits byte) ≡ true }
{
    EnumSet::from_u8_truncated(byte)
}

/// The byte with a flag set. Only known flags are kept.
pub fn marked(byte: u8, new: Flag) -> u8
    ensures { bits result ≡ set.insert (set.intersection (bits byte)
        (valid_bits ⟦<Flag as EnumSetType>⟧.elements)) (flag new) }
{
    let mut flags = EnumSet::from_u8_truncated(byte);
    flags.insert(new);
    flags.as_u8()
}

/// The byte with flags cleared. Its other bits stay, also reserved ones.
pub fn cleared(byte: u8, flags: EnumSet<Flag>) -> u8
    ensures { bits result ≡ set.difference (bits byte) flags }
{
    byte & !flags.as_u8()
}

/// Whether a byte has none of the flags.
pub fn has_none(byte: u8, flags: EnumSet<Flag>) -> bool
    ensures { result ≡ set.is_disjoint (bits byte) flags }
{
    byte & flags.as_u8() == 0
}

/// The byte that flags are stored as.
pub fn stored(flags: EnumSet<Flag>) -> u8
    ensures { result ≡ number flags }
{
    flags.as_repr()
}

/// The flags of a stored byte, if it has no reserved bit.
pub fn loaded(byte: u8) -> Option<EnumSet<Flag>>
    ensures known { IsSome result
        ↔ (set.is_subset (bits byte) (valid_bits ⟦<Flag as EnumSetType>⟧.elements) ≡ true) }
    ensures same { IfSome result (λ flags. flags ≡ bits byte) }
{
    EnumSet::try_from_repr(byte)
}

/// What a peer reads of the flags that were sent: the same.
pub fn sent(flags: EnumSet<Flag>) -> EnumSet<Flag>
    ensures { result ≡ flags }
{
    laws::number_and_back(&flags);
    EnumSet::from_u8(flags.as_u8())
}

/// Whether the flags that a byte asks for are supported.
pub fn is_supported(byte: u8, supported: EnumSet<Flag>) -> bool
    ensures { result ≡ true ↔ (set.is_subset (bits byte) supported ≡ true) }
{
    match EnumSet::try_from_u8(byte) {
        Some(asked) => supported.is_superset(asked),
        None => false,
    }
}

/// The flags that both bytes have. Bits that are no flag are dropped.
pub fn negotiated(ours: u8, theirs: u8) -> EnumSet<Flag>
    ensures common { result ≡ set.intersection (set.intersection (bits ours) (bits theirs))
        (valid_bits ⟦<Flag as EnumSetType>⟧.elements) }
    ensures offered { set.is_subset result (bits ours) ≡ true }
{
    EnumSet::<Flag>::from_u8_truncated(ours) & EnumSet::<Flag>::from_u8_truncated(theirs)
}
