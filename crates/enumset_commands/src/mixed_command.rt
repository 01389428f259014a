//! The commands of a run of mixed sets, and their names.
ghost use Rattle.std.specs.Prelude.{◌≡◌};
ghost use Rattle.enumset_commands.specs.Lines.{mixed_command_of};
ghost use Rattle.enumset_commands.specs.Verbs.{own_verbs, written};

use crate::command::{Command, command_of_name};
use crate::grammar::line_command::LineCommand;
use crate::grammar::tokens::Tokens;
use crate::names::is;
use std::alloc::{AllocError, Global};

/// One command of a run of mixed sets: one that every run has, or one on bits that need not be valid.
///
/// The fields are as in a [`Command`]. Any bit below the width of the representation may be a member.
#[derive(Drop)]
pub enum MixedCommand {
    /// A command that every run has.
    Common(Command),
    /// `has_bit r bit`: replies whether the bit is a member.
    HasBit { r: u8, bit: u32 },
    /// `insert_bit r bit`: puts a bit below the width into a set, and replies whether it was absent.
    InsertBit { r: u8, bit: u32 },
    /// `remove_bit r bit`: takes the bit out of a set, and replies whether it was present.
    RemoveBit { r: u8, bit: u32 },
    /// `full_complement to a`: puts the bits below the width that are not in `a` into `to`.
    FullComplement { to: u8, a: u8 },
    /// `valid_len r`: replies how many members of a set are valid bits.
    ValidLen { r: u8 },
    /// `unknown r`: replies whether some member of a set is not a valid bit.
    Unknown { r: u8 },
    /// `as_enumset to a`: puts the members of `a` into `to`, if each of them is a valid bit.
    AsEnumset { to: u8, a: u8 },
    /// `truncate to a`: puts those members of `a` that are valid bits into `to`.
    Truncate { to: u8, a: u8 },
}

impl LineCommand for MixedCommand {
    ghost command_of = { mixed_command_of };

    fn read(
        alloc: Global,
        name: &[u8],
        fields: Tokens,
    ) -> Option<Result<MixedCommand, AllocError>> {
        if let Some(command) = own_command(name, &fields) {
            return Some(Ok(command));
        }
        match Command::read(alloc, name, fields)? {
            Ok(command) => Some(Ok(MixedCommand::Common(command))),
            Err(error) => Some(Err(error)),
        }
    }
}

/// The command of this name, if only mixed sets have it.
fn own_command(name: &[u8], fields: &Tokens) -> Option<MixedCommand>
    ensures { result ≡ written own_verbs name.now fields.now }
{
    command_of_name! { name, fields => MixedCommand:
        "has_bit" register_and_u32 HasBit { r, bit };
        "insert_bit" register_and_u32 InsertBit { r, bit };
        "remove_bit" register_and_u32 RemoveBit { r, bit };
        "full_complement" two_registers FullComplement { to, a };
        "valid_len" register ValidLen { r };
        "unknown" register Unknown { r };
        "as_enumset" two_registers AsEnumset { to, a };
        "truncate" two_registers Truncate { to, a };
    }
}
