//! Why a set was not written as a JSON value, or a JSON value not read as a set.

use std::alloc::{AllocError, AllocFailed};
use std::{error, fmt};

/// Why a set was not written as a JSON value, or a JSON value not read as a set. Rust's `enumset` has the errors of
/// each format instead.
#[derive(Clone, Copy, Debug, PartialEq, Eq)]
pub enum JsonFault {
    /// A member is at or past the width.
    TooWide,
    /// The value is not a JSON number.
    NotANumber,
    /// The number is not one that the parser keeps as a whole number from 0 to 2^64 - 1.
    NotWhole,
    /// A bit of the number or of the words is at or past the width.
    OutOfRange,
    /// The value is not a JSON array.
    NotAnArray,
    /// The element at this place, counted from 0, is the first that is not a whole number from 0 to 2^64 - 1.
    NotAWord(usize),
    /// The value is not a JSON object.
    NotAnObject,
    /// The element at this place, counted from 0, is the first that is not a string.
    NotAText(usize),
    /// The name at this place, counted from 0 in the order of the names' bytes, is the first whose value is not a
    /// boolean.
    NotABoolean(usize),
    /// A bit is not valid, and such bits are refused.
    UnknownBits,
    /// The name at this place is the first that no variant has, and such names are refused. Places count from 0, in an
    /// object in the order of the names' bytes.
    UnknownName(usize),
    /// The string is not JSON. The parser found the error at this line, counted from 1.
    NotJson(usize),
    /// An allocation failed.
    OutOfMemory,
}

impl fmt::Display for JsonFault {
    ghost use Rattle.std.specs.Prelude.{Some};
    ghost use Rattle.enumset.specs.JsonTexts.{json_fault_text};

    ghost output = { λ fault. Some (json_fault_text fault) };

    fn fmt<W: fmt::Write>(&self, f: &mut fmt::Formatter<W>) -> fmt::Result {
        match self {
            JsonFault::TooWide => f.write_str("a member is too large for the width"),
            JsonFault::NotANumber => f.write_str("not a number"),
            JsonFault::NotWhole => f.write_str("not a whole number of 64 bits"),
            JsonFault::OutOfRange => f.write_str("number out of range"),
            JsonFault::NotAnArray => f.write_str("not an array"),
            JsonFault::NotAWord(place) => {
                write!(f, "element {place}: not a whole number of 64 bits")
            }
            JsonFault::NotAnObject => f.write_str("not an object"),
            JsonFault::NotAText(place) => write!(f, "element {place}: not a text"),
            JsonFault::NotABoolean(place) => write!(f, "name {place}: not a boolean"),
            JsonFault::UnknownBits => f.write_str("unknown bits"),
            JsonFault::UnknownName(place) => write!(f, "name {place}: unknown"),
            JsonFault::NotJson(line) => write!(f, "line {line}: not JSON"),
            JsonFault::OutOfMemory => f.write_str("out of memory"),
        }
    }
}

impl error::Error for JsonFault {}

impl From<AllocError> for JsonFault {
    ghost use Rattle.std.specs.Prelude.{◌≡◌};
    ghost use Rattle.enumset.specs.declared.set_json.fault.JsonFault.TheVariants.{OutOfMemory};

    ghost from_gives = { λ _ fault. fault ≡ OutOfMemory };

    fn from(_error: AllocError) -> JsonFault {
        JsonFault::OutOfMemory
    }
}

impl<T: Drop> From<AllocFailed<T>> for JsonFault {
    ghost use Rattle.std.specs.Prelude.{◌≡◌};
    ghost use Rattle.enumset.specs.declared.set_json.fault.JsonFault.TheVariants.{OutOfMemory};

    ghost from_gives = { λ _ fault. fault ≡ OutOfMemory };

    fn from(_error: AllocFailed<T>) -> JsonFault {
        JsonFault::OutOfMemory
    }
}

impl From<serde_json::Error> for JsonFault {
    ghost use Rattle.std.specs.Prelude.{◌≡◌, ◌⊎◌, ℕ};
    ghost use Rattle.serde_json.specs.Errors.{IsMemory};
    ghost use Rattle.enumset.specs.declared.set_json.fault.JsonFault.TheVariants.{NotJson, OutOfMemory};

    ghost from_gives = { λ error fault. (IsMemory error × (fault ≡ OutOfMemory))
        ⊎ ((¬ IsMemory error) × ((line : ℕ) × (fault ≡ NotJson line))) };

    fn from(error: serde_json::Error) -> JsonFault {
        if error.is_memory() {
            JsonFault::OutOfMemory
        } else {
            JsonFault::NotJson(error.line())
        }
    }
}
