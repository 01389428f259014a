//! Faults of schedules.

use std::alloc::AllocFailed;
use std::fmt;

/// Why schedules could not be read. Lines are counted from 1.
#[derive(Clone, Copy, Debug)]
pub enum Fault<'a> {
    /// Memory ran out.
    OutOfMemory,
    /// This line has no colon.
    NoName(usize),
    /// This line has this word, which is not a day.
    NoDay(usize, &'a str),
}

impl<T: Drop> From<AllocFailed<T>> for Fault<'_> {
    ghost use Rattle.std.specs.Prelude.{◌≡◌};
    ghost use Rattle.example_weekdays.specs.declared.fault.Fault.TheVariants.{OutOfMemory};

    ghost from_gives = { λ _ fault. fault ≡ OutOfMemory };

    fn from(_refused: AllocFailed<T>) -> Self {
        Fault::OutOfMemory
    }
}

impl fmt::Display for Fault<'_> {
    ghost use Rattle.std.specs.Prelude.{Some};
    ghost use Rattle.example_weekdays.specs.Texts.{fault_text};

    ghost output = { λ fault. Some (fault_text fault) };

    fn fmt<W: fmt::Write>(&self, f: &mut fmt::Formatter<W>) -> fmt::Result {
        match self {
            Fault::OutOfMemory => f.write_str("memory ran out"),
            Fault::NoName(line) => write!(f, "line {line}: no `NAME: DAY..`"),
            Fault::NoDay(line, word) => write!(f, "line {line}: no day `{word}`"),
        }
    }
}
