//! The replies of a run.
use crate::word_list::WordList;
use std::cmp::Ordering;

/// The reply to one command.
#[derive(Debug, Drop)]
pub enum Reply {
    /// The command was carried out.
    Done,
    /// Yes or no.
    Truth(bool),
    /// How many members or items there are.
    Count(u64),
    /// The number of a set: the sum of the powers of two of its members.
    Number(u128),
    /// Words of a set, the lowest first.
    Words(WordList),
    /// How one set compares with another.
    Order(Ordering),
    /// The number of a valid bit.
    Bit(u32),
    /// The number of a bit that is not valid.
    Unknown(u32),
    /// There is nothing left, or no such number or set.
    Absent,
    /// The command was refused, and nothing changed.
    Refused(Refusal),
}

/// Why a command was refused.
#[derive(Clone, Copy, Debug, PartialEq, Eq)]
pub enum Refusal {
    /// It names a set register past 3, or an iterator register past 1.
    NoRegister,
    /// It names a bit that is not valid, or, for `InsertBit`, a bit that is not below the width of the representation.
    NotABit,
    /// It names a width other than 8, 16, 32, 64 and 128, or a value that does not fit the width.
    NotAWidth,
}

impl Refusal {
    ghost use Rattle.std.specs.Prelude.{◌≡◌};
    ghost use Rattle.enumset_commands.specs.Texts.{refusal_text};

    /// Returns the text of a refusal.
    pub fn as_str(&self) -> &'static str
        ensures { result.now ≡ refusal_text self.now }
    {
        match self {
            Refusal::NoRegister => "K1 no register",
            Refusal::NotABit => "K2 not a bit",
            Refusal::NotAWidth => "K3 not a width",
        }
    }
}
