//! Faults and their places.

ghost use Rattle.std.specs.Prelude.{◌≡◌};
ghost use Rattle.enumset_derive.specs.Variants.{fault_at};

use enumset_source::{Kind, Place, Token, TokenError};
use std::alloc::{AllocError, AllocFailed};
use std::{fmt, io};

/// Why the program did not write the whole module. Its text is printed to standard error.
#[derive(Drop)]
pub enum DeriveError {
    /// The source has a fault.
    Fault(Fault),
    OutOfMemory(AllocError),
    /// The arguments are wrong, for this reason.
    Arguments(&'static str),
    /// Standard input or standard output failed: in what, and why.
    Stream(&'static str, io::Error),
    /// The file with this name could not be written.
    File(String, io::Error),
}

impl fmt::Display for DeriveError {
    fn fmt<W: fmt::Write>(&self, f: &mut fmt::Formatter<W>) -> fmt::Result {
        match self {
            DeriveError::Fault(fault) => write!(f, "{fault}"),
            DeriveError::OutOfMemory(_) => write!(f, "out of memory"),
            DeriveError::Arguments(text) => write!(f, "{text}"),
            DeriveError::Stream(what, error) => write!(f, "{what}: {error}"),
            DeriveError::File(name, error) => write!(f, "{name}: {error}"),
        }
    }
}

impl From<TokenError> for DeriveError {
    ghost use Rattle.std.specs.Prelude.{◌≡◌};
    ghost use Rattle.enumset_derive.specs.Variants.{of_token_error};

    ghost from_gives = { λ error e. e ≡ of_token_error error };

    fn from(error: TokenError) -> DeriveError {
        match error {
            TokenError::Fault(place, text) => DeriveError::Fault(Reason::Text(text).at(place)),
            TokenError::OutOfMemory(error) => DeriveError::OutOfMemory(error),
        }
    }
}

impl From<AllocError> for DeriveError {
    ghost use Rattle.std.specs.Prelude.{◌≡◌};
    ghost use Rattle.enumset_derive.specs.declared.fault.DeriveError.TheVariants as error;

    ghost from_gives = { λ refused e. e ≡ error.OutOfMemory refused };

    fn from(error: AllocError) -> DeriveError {
        DeriveError::OutOfMemory(error)
    }
}

impl<T: Drop> From<AllocFailed<T>> for DeriveError {
    ghost use Rattle.std.specs.Prelude.{◌≡◌, alloc_error};
    ghost use Rattle.enumset_derive.specs.declared.fault.DeriveError.TheVariants as error;

    ghost from_gives = { λ _ e. e ≡ error.OutOfMemory alloc_error };

    fn from(_failed: AllocFailed<T>) -> DeriveError {
        DeriveError::OutOfMemory(AllocError)
    }
}

/// The result of a step of the program.
pub type Outcome<T = ()> = Result<T, DeriveError>;

/// What a step of reading returns beside the faults that it reports, or an error if memory runs out.
pub type Reading<T = ()> = Result<T, AllocError>;

/// A fault of a source text, and where it is.
#[derive(Clone, Copy)]
pub struct Fault {
    pub place: Place,
    pub reason: Reason,
}

impl fmt::Display for Fault {
    fn fmt<W: fmt::Write>(&self, f: &mut fmt::Formatter<W>) -> fmt::Result {
        write!(f, "{}: {}", self.place, self.reason)
    }
}

const NOT_A_MASK: &str = "a mask must be a power of two; the empty set is `EnumSet::empty()`";

const PAST_GREATEST: &str =
    "a bit must be from 0 to 65535; `map = \"compact\"` uses the places as bits";

/// What is wrong.
#[derive(Clone, Copy)]
pub enum Reason {
    /// A fault found while reading.
    Text(&'static str),
    /// What is expected, and what was found: a token of this kind that begins with this character.
    Expected(&'static str, Kind, char),
    /// What is given twice, such as an option, and where it was given first.
    GivenTwice(&'static str, Place),
    /// `map = "msb"` counts from the most significant bit of an integer, but `repr` is not an integer.
    IntegerMissing,
    /// The fault is at the 257th variant.
    TooManyVariants,
    NameTwice(Place),
    NotAMask,
    /// The bit that the discriminant names is negative or too large.
    PastGreatest,
    ImpliedTooLarge,
    PastRepresentation { bit: u32, width: u32 },
    PastSerialized { bit: u32, width: u32 },
    BitTwice(Place),
    DiscriminantTwice(Place),
    /// Where an enum is whose name differs from this one only in case.
    OtherCase(Place),
}

impl fmt::Display for Reason {
    fn fmt<W: fmt::Write>(&self, f: &mut fmt::Formatter<W>) -> fmt::Result {
        match self {
            Reason::Text(text) => f.write_str(text),
            Reason::Expected(what, kind, found) => write_expected(f, what, *kind, *found),
            Reason::GivenTwice(what, first) => {
                write!(f, "this {what} was already given at {first}")
            }
            Reason::IntegerMissing => f.write_str("`map = \"msb\"` needs `repr` to be an integer"),
            Reason::TooManyVariants => f.write_str("an enum may have at most 256 variants"),
            Reason::NameTwice(first) => write!(f, "this name was already given at {first}"),
            Reason::NotAMask => f.write_str(NOT_A_MASK),
            Reason::PastGreatest => f.write_str(PAST_GREATEST),
            Reason::ImpliedTooLarge => f.write_str("the implied discriminant is past 2^128 - 1"),
            Reason::PastRepresentation { bit, width } => {
                write!(f, "`repr` is too small: bit {bit}, width {width}")
            }
            Reason::PastSerialized { bit, width } => {
                write!(f, "`serialize_repr` is too small: bit {bit}, width {width}")
            }
            Reason::BitTwice(first) => write!(f, "this bit was already taken at {first}"),
            Reason::DiscriminantTwice(first) => {
                write!(f, "this discriminant was already taken at {first}")
            }
            Reason::OtherCase(first) => write!(
                f,
                "this name and the one at {first} differ only in case: choose another name"
            ),
        }
    }
}

/// Writes what is expected, and what was found: a token of this kind that begins with this character.
fn write_expected<W: fmt::Write>(
    f: &mut fmt::Formatter<W>,
    what: &str,
    kind: Kind,
    found: char,
) -> fmt::Result {
    match kind {
        Kind::Punct if found.is_ascii() => write!(f, "expected {what}, found `{found}`"),
        Kind::Punct => write!(f, "expected {what}, found U+{:04X}", u32::from(found)),
        _ => write!(f, "expected {what}, found {kind}"),
    }
}

impl Reason {
    /// The fault for this reason at a place.
    pub fn at(self, place: Place) -> Fault
        ensures { result ≡ fault_at place self }
    {
        let reason = self;
        Fault { place, reason }
    }
}

impl Fault {
    /// The fault with this text at a token.
    pub fn at(token: &Token, text: &'static str) -> Fault {
        Reason::Text(text).at(token.place)
    }

    /// The fault that a token is not what is expected.
    pub fn unexpected(token: &Token, expected: &'static str) -> Fault {
        let found = token.text.chars().next().unwrap_or(' ');
        Reason::Expected(expected, token.kind, found).at(token.place)
    }
}
