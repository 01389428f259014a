//! Faults: why a line has no value.

ghost use Rattle.std.specs.Prelude.{◌≡◌};
ghost use Rattle.example_expressions.specs.Faults.{fault_at};

use crate::parser::Unexpected;
use std::fmt;

/// Why a line has no value, and the column of the fault.
#[derive(Clone, Copy, Debug)]
pub struct Fault {
    pub column: usize,
    pub reason: Reason,
}

/// Why a line has no value.
#[derive(Clone, Copy, Debug)]
pub enum Reason {
    /// This character begins no token.
    NoToken(char),
    /// A number does not fit 64 bits.
    LargeNumber,
    /// A token, or the end, comes where others were expected.
    Unexpected(Unexpected),
    /// A divisor is 0.
    ZeroDivisor,
    /// A value on the way does not fit 64 bits.
    LargeValue,
    /// Memory ran out.
    OutOfMemory,
}

impl Reason {
    /// The fault of this reason at a column.
    pub fn at(self, column: usize) -> Fault
        ensures { result ≡ fault_at column self }
    {
        Fault {
            column,
            reason: self,
        }
    }
}

impl fmt::Display for Fault {
    ghost use Rattle.std.specs.Prelude.{Some};
    ghost use Rattle.example_expressions.specs.Texts.{fault_text};

    ghost output = { λ fault. Some (fault_text fault) };

    fn fmt<W: fmt::Write>(&self, f: &mut fmt::Formatter<W>) -> fmt::Result {
        write!(f, "column {}: {}", self.column, self.reason)
    }
}

impl fmt::Display for Reason {
    ghost use Rattle.std.specs.Prelude.{Some};
    ghost use Rattle.example_expressions.specs.Texts.{reason_text};

    ghost output = { λ reason. Some (reason_text reason) };

    fn fmt<W: fmt::Write>(&self, f: &mut fmt::Formatter<W>) -> fmt::Result {
        match self {
            Reason::NoToken(character) => write!(f, "{character} begins no token"),
            Reason::LargeNumber => f.write_str("the number is too large"),
            Reason::Unexpected(unexpected) => write!(f, "{unexpected}"),
            Reason::ZeroDivisor => f.write_str("division by zero"),
            Reason::LargeValue => f.write_str("the value does not fit 64 bits"),
            Reason::OutOfMemory => f.write_str("memory ran out"),
        }
    }
}
