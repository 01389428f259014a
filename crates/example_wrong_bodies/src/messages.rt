//! Bytes of messages, some bits of which are reserved for later versions.

ghost use Rattle.std.specs.Prelude.{◌≡◌, ◌↔◌, IfSome, IsSome, length};
ghost use Rattle.enumset.specs.Sets as set;
ghost use Rattle.enumset.specs.Sets.{bits, valid_bits};

use crate::permissions::Permission;
use enumset::{EnumSet, EnumSetType};

/// The permissions of a byte, if no reserved bit is set.
pub fn read(byte: u8) -> Option<EnumSet<Permission>>
    ensures read { IfSome result (λ s. s ≡ bits byte) }
    ensures known { IsSome result ↔ (set.difference (bits byte)
        (valid_bits ⟦<Permission as EnumSetType>⟧.elements) ≡ set.empty) }
{
    EnumSet::try_from_u8(byte)
}

/// Writes permissions into the words of a message: words after the last permission become 0.
pub fn write(permissions: EnumSet<Permission>, out: &mut [u64])
    ensures { out.new ≡ set.words permissions (length out.old) }
{
    permissions.copy_into_slice_truncated(out);
}
