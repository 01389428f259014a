//! Why a text of commands has no answer.

use std::alloc::{AllocError, AllocFailed};
use std::error::Error;
use std::fmt;

/// Why a text of commands has no text of replies.
#[derive(Clone, Copy, Debug, PartialEq, Eq)]
pub enum TextFault {
    /// The input has more than 1,048,576 bytes.
    TooLong,
    /// The line of this number, counted from 1, is the first that is not a command.
    BadLine(u64),
    /// Memory ran out.
    OutOfMemory,
}

impl fmt::Display for TextFault {
    ghost use Rattle.std.specs.Prelude.{Some};
    ghost use Rattle.enumset_commands.specs.Texts.{fault_text};

    ghost output = { λ fault. Some (fault_text fault) };

    fn fmt<W: fmt::Write>(&self, f: &mut fmt::Formatter<W>) -> fmt::Result {
        match self {
            TextFault::TooLong => write!(f, "input too long"),
            TextFault::BadLine(line) => write!(f, "line {line}: not a command"),
            TextFault::OutOfMemory => write!(f, "out of memory"),
        }
    }
}

impl Error for TextFault {}

impl From<AllocError> for TextFault {
    ghost use Rattle.std.specs.Prelude.{◌≡◌};
    ghost use Rattle.enumset_commands.specs.declared.text_fault.TextFault.TheVariants.{OutOfMemory};

    ghost from_gives = { λ _ fault. fault ≡ OutOfMemory };

    fn from(_error: AllocError) -> TextFault {
        TextFault::OutOfMemory
    }
}

impl<T: Drop> From<AllocFailed<T>> for TextFault {
    ghost use Rattle.std.specs.Prelude.{◌≡◌};
    ghost use Rattle.enumset_commands.specs.declared.text_fault.TextFault.TheVariants.{OutOfMemory};

    ghost from_gives = { λ _ fault. fault ≡ OutOfMemory };

    fn from(_error: AllocFailed<T>) -> TextFault {
        TextFault::OutOfMemory
    }
}
