//! The commands of a run, and their names.
ghost use Rattle.std.specs.Prelude.{◌≡◌};
ghost use Rattle.enumset_commands.specs.Lines.{command_of, without_words};
ghost use Rattle.enumset_commands.specs.Verbs.{assignments, queries, changes, written};

use crate::grammar::line_command::LineCommand;
use crate::grammar::operands::register_and_words;
use crate::grammar::tokens::Tokens;
use crate::names::is;
use crate::word_list::WordList;
use std::alloc::{AllocError, Global};

/// One command of a run over four set registers, 0 to 3, and two iterator registers, 0 and 1.
///
/// The fields `to`, `a`, `b` and `r` name set registers, `i` an iterator register, and `bit` is the
/// number of a bit. A `width` is 8, 16, 32, 64 or 128, and a `value` is below 2 to that power.
#[derive(Drop)]
pub enum Command {
    /// `new r`: empties a set.
    New { r: u8 },
    /// `all r`: makes a set the set of all valid bits.
    All { r: u8 },
    /// `only r bit`: makes a set the set of one bit.
    Only { r: u8, bit: u32 },
    /// `insert r bit`: puts the bit into a set, and replies whether it was absent.
    Insert { r: u8, bit: u32 },
    /// `remove r bit`: takes the bit out of a set, and replies whether it was present.
    Remove { r: u8, bit: u32 },
    /// `contains r bit`: replies whether the bit is a member.
    Contains { r: u8, bit: u32 },
    /// `clear r`: takes all members out of a set.
    Clear { r: u8 },
    /// `len r`: replies how many members a set has.
    Len { r: u8 },
    /// `empty r`: replies whether a set has no member.
    IsEmpty { r: u8 },
    /// `union to a b`: puts the members of either into `to`.
    Union { to: u8, a: u8, b: u8 },
    /// `intersection to a b`: puts the members of both into `to`.
    Intersection { to: u8, a: u8, b: u8 },
    /// `difference to a b`: puts the members of `a` that are not in `b` into `to`.
    Difference { to: u8, a: u8, b: u8 },
    /// `symmetric to a b`: puts the members of exactly one of the two into `to`.
    SymmetricDifference { to: u8, a: u8, b: u8 },
    /// `complement to a`: puts the valid bits that are not in `a` into `to`.
    Complement { to: u8, a: u8 },
    /// `insert_all r a`: makes each member of `a` a member of `r`.
    InsertAll { r: u8, a: u8 },
    /// `remove_all r a`: takes each member of `a` out of `r`.
    RemoveAll { r: u8, a: u8 },
    /// `disjoint a b`: replies whether the two have no common member.
    Disjoint { a: u8, b: u8 },
    /// `superset a b`: replies whether each member of `b` is one of `a`.
    Superset { a: u8, b: u8 },
    /// `subset a b`: replies whether each member of `a` is one of `b`.
    Subset { a: u8, b: u8 },
    /// `equal a b`: replies whether the two have the same members.
    Equal { a: u8, b: u8 },
    /// `compare a b`: replies how `a` compares with `b`: the greater is the one with the greatest bit that exactly
    /// one of them has.
    Compare { a: u8, b: u8 },
    /// `number r width`: replies the number of a set, if each member is below the width.
    Number { r: u8, width: u32 },
    /// `number_cut r width`: replies the number of the members below the width.
    NumberCut { r: u8, width: u32 },
    /// `from_number r width value`: makes a set the bits of a number, if a set may have each of them.
    FromNumber { r: u8, width: u32, value: u128 },
    /// `from_number_cut r width value`: makes a set those bits of a number that a set may have.
    FromNumberCut { r: u8, width: u32, value: u128 },
    /// `words r count`: replies the first `count` words of a set, if each member is in one of them.
    Words { r: u8, count: u8 },
    /// `words_cut r count`: replies the first `count` words of a set.
    WordsCut { r: u8, count: u8 },
    /// `from_words r w w ..`: makes a set the bits of words, if a set may have each of them.
    FromWords { r: u8, words: WordList },
    /// `from_words_cut r w w ..`: makes a set those bits of words that a set may have.
    FromWordsCut { r: u8, words: WordList },
    /// `iter i r`: puts an iterator over the members that `r` has now into `i`.
    Iter { i: u8, r: u8 },
    /// `next i`: one step from the front.
    Next { i: u8 },
    /// `next_back i`: one step from the back.
    NextBack { i: u8 },
    /// `left i`: replies how many items are left in an iterator.
    Left { i: u8 },
}

/// Looks a name up in a table, whose rows are a name, its operands and its command.
macro_rules! command_of_name {
    ($name:ident, $fields:ident => $commands:ident: $($word:literal $operands:ident $command:ident { $($field:ident),+ };)+) => {
        match $name {
            $(_ if is($name, $word) => {
                let ($($field),+) = $fields.$operands()?;
                Some($commands::$command { $($field),+ })
            })+
            _ => None,
        }
    };
}

pub(crate) use command_of_name;

impl LineCommand for Command {
    ghost command_of = { command_of };

    fn read(alloc: Global, name: &[u8], fields: Tokens) -> Option<Result<Command, AllocError>> {
        if let Some(command) = without_words(name, &fields) {
            return Some(Ok(command));
        }
        let cuts = is(name, "from_words_cut");
        if !cuts && !is(name, "from_words") {
            return None;
        }
        match register_and_words(alloc, fields)? {
            Ok((r, words)) if cuts => Some(Ok(Command::FromWordsCut { r, words })),
            Ok((r, words)) => Some(Ok(Command::FromWords { r, words })),
            Err(error) => Some(Err(error)),
        }
    }
}

/// The command of a name that takes no words. A table is not searched once an earlier one has the command.
fn without_words(name: &[u8], fields: &Tokens) -> Option<Command>
    ensures { result ≡ without_words name.now fields.now }
{
    if let Some(command) = assignment(name, fields) {
        return Some(command);
    }
    if let Some(command) = query(name, fields) {
        return Some(command);
    }
    change(name, fields)
}

/// The command of this name, if it is one that always replies `ok`.
fn assignment(name: &[u8], fields: &Tokens) -> Option<Command>
    ensures { result ≡ written assignments name.now fields.now }
{
    command_of_name! { name, fields => Command:
        "new" register New { r };
        "all" register All { r };
        "only" register_and_u32 Only { r, bit };
        "clear" register Clear { r };
        "union" three_registers Union { to, a, b };
        "intersection" three_registers Intersection { to, a, b };
        "difference" three_registers Difference { to, a, b };
        "symmetric" three_registers SymmetricDifference { to, a, b };
        "complement" two_registers Complement { to, a };
        "insert_all" two_registers InsertAll { r, a };
        "remove_all" two_registers RemoveAll { r, a };
        "from_number_cut" register_width_value FromNumberCut { r, width, value };
        "iter" two_registers Iter { i, r };
    }
}

/// The command of this name, if it is one that changes nothing.
fn query(name: &[u8], fields: &Tokens) -> Option<Command>
    ensures { result ≡ written queries name.now fields.now }
{
    command_of_name! { name, fields => Command:
        "contains" register_and_u32 Contains { r, bit };
        "len" register Len { r };
        "empty" register IsEmpty { r };
        "disjoint" two_registers Disjoint { a, b };
        "superset" two_registers Superset { a, b };
        "subset" two_registers Subset { a, b };
        "equal" two_registers Equal { a, b };
        "compare" two_registers Compare { a, b };
        "number" register_and_u32 Number { r, width };
        "number_cut" register_and_u32 NumberCut { r, width };
        "words" two_registers Words { r, count };
        "words_cut" two_registers WordsCut { r, count };
        "left" register Left { i };
    }
}

/// The command of this name, if it is one that may change a register, and replies more than `ok`.
fn change(name: &[u8], fields: &Tokens) -> Option<Command>
    ensures { result ≡ written changes name.now fields.now }
{
    command_of_name! { name, fields => Command:
        "insert" register_and_u32 Insert { r, bit };
        "remove" register_and_u32 Remove { r, bit };
        "from_number" register_width_value FromNumber { r, width, value };
        "next" register Next { i };
        "next_back" register NextBack { i };
    }
}
