//! How a run of the program can fail.

ghost use Rattle.std.specs.Prelude.{◌≡◌};

use enumset_commands::TextFault;
use std::error::Error;
use std::fmt;

/// Why the program printed no replies, or not all of them.
#[derive(Clone, Copy, Debug, PartialEq, Eq)]
pub enum ProgramFault {
    /// There is not exactly one argument.
    OneArgument,
    /// The argument is not the name of a type.
    UnknownType,
    /// The input has no text of replies.
    Text(TextFault),
    /// Standard input failed.
    Reading,
    /// Standard output failed.
    Writing,
}

impl ProgramFault {
    ghost use Rattle.enumset_run.specs.Faults.{status_of};

    /// The exit status of the program: 2 where the request is at fault, 3 if memory ran out, and 1 if
    /// standard input or output failed.
    pub fn status(&self) -> u8
        ensures { result ≡ status_of self.now }
    {
        match self {
            ProgramFault::OneArgument | ProgramFault::UnknownType => 2,
            ProgramFault::Text(TextFault::OutOfMemory) => 3,
            ProgramFault::Text(_) => 2,
            ProgramFault::Reading | ProgramFault::Writing => 1,
        }
    }
}

/// What the program writes on standard error, without the line feed at its end.
impl fmt::Display for ProgramFault {
    ghost use Rattle.std.specs.Prelude.{Some};
    ghost use Rattle.enumset_run.specs.Faults.{program_fault_text};

    ghost output = { λ fault. Some (program_fault_text fault) };

    fn fmt<W: fmt::Write>(&self, f: &mut fmt::Formatter<W>) -> fmt::Result {
        match self {
            ProgramFault::OneArgument => write!(f, "one argument: the name of a type"),
            ProgramFault::UnknownType => write!(f, "unknown type"),
            ProgramFault::Text(fault) => write!(f, "{fault}"),
            ProgramFault::Reading => write!(f, "reading failed"),
            ProgramFault::Writing => write!(f, "writing failed"),
        }
    }
}

impl Error for ProgramFault {}

impl From<TextFault> for ProgramFault {
    ghost use Rattle.std.specs.Prelude.{◌≡◌};
    ghost use Rattle.enumset_run.specs.declared.fault.ProgramFault.TheVariants.{Text};

    ghost from_gives = { λ fault given. given ≡ Text fault };

    fn from(fault: TextFault) -> ProgramFault {
        ProgramFault::Text(fault)
    }
}
