//! Commands as what lines of text write.

ghost use Rattle.std.specs.Prelude.{ℕ, List, Option, ◌∷◌};
ghost use Rattle.enumset_commands.specs.Texts.{IsReadAs};

use super::tokens::Tokens;
use std::alloc::{AllocError, Global};

/// A command that the tokens of a line may write.
pub trait LineCommand: Sized + Drop {
    // The command that tokens write. The first token is its name.
    ghost command_of: { List (List ℕ) → Option Self };

    /// Returns the command with this name whose fields are the remaining tokens, or `None` if they write no command.
    /// The only error is out of memory, for the words of a command.
    fn read(alloc: Global, name: &[u8], fields: Tokens) -> Option<Result<Self, AllocError>>
        ensures { IsReadAs (command_of (name.now ∷ fields.entry)) result };
}
