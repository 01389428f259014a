//! The commands of every run: why one is refused, and how it is carried out. Runs over sets have only these.

ghost use Rattle.std.specs.Prelude.{◌≡◌, ◌^◌, ◌&&◌, nat_lt, Some, None, if◌then◌else◌, true};
ghost use Rattle.std.specs.List.{list_all};
ghost use Rattle.enumset_machine.specs.Plans.{is_register, fits_width, is_bit, is_width, refusal};
ghost use Rattle.enumset_machine.specs.Replies.{reply_by};
ghost use Rattle.enumset_machine.specs.Runs.{plan};

use crate::answer::Answer;
use crate::machine::{
    MachineOver, are_set_registers, is_iterator_register, is_set_register, number_answer,
    words_answer,
};
use crate::run_set::RunSet;
use crate::runs::Commands;
use enumset_commands::Command::{self, *};
use enumset_commands::Refusal::{self, NoRegister, NotABit, NotAWidth};
use enumset_sets::{EnumSet, EnumSetType};

impl<T: EnumSetType> Commands for EnumSet<T> {
    type Command = Command;

    ghost plan = { plan };

    fn refusal_of(command: &Command) -> Option<Refusal> {
        refusal_of_common::<EnumSet<T>>(command)
    }

    fn carry_out(machine: &mut MachineOver<EnumSet<T>>, command: &Command) -> Answer<EnumSet<T>> {
        carry_out_common(machine, command)
    }
}

/// Why a command is refused, if it is.
#[tactic(auto, unfolding(crate::specs::Runs::plan))]
pub(crate) fn refusal_of_common<S: RunSet>(command: &Command) -> Option<Refusal>
    ensures { result ≡ refusal S.rules (plan command.now) }
{
    match *command {
        New { r }
        | All { r }
        | Clear { r }
        | Len { r }
        | IsEmpty { r }
        | Words { r, .. }
        | WordsCut { r, .. }
        | FromWords { r, .. }
        | FromWordsCut { r, .. } => unless(is_set_register(r), NoRegister),
        Complement { to: a, a: b }
        | InsertAll { r: a, a: b }
        | RemoveAll { r: a, a: b }
        | Disjoint { a, b }
        | Superset { a, b }
        | Subset { a, b }
        | Equal { a, b }
        | Compare { a, b } => unless(are_set_registers(a, b), NoRegister),
        SymmetricDifference { to, a, b }
        | Intersection { to, a, b }
        | Difference { to, a, b }
        | Union { to, a, b } => unless(is_set_register(to) && are_set_registers(a, b), NoRegister),
        Only { r, bit } | Insert { r, bit } | Remove { r, bit } | Contains { r, bit } => {
            unless(is_set_register(r), NoRegister).or(unless(S::is_bit_valid(bit), NotABit))
        }
        Number { r, width } | NumberCut { r, width } => {
            unless(is_set_register(r), NoRegister).or(unless(is_width(width), NotAWidth))
        }
        FromNumber { r, width, value } | FromNumberCut { r, width, value } => {
            unless(is_set_register(r), NoRegister).or(unless(fits(width, value), NotAWidth))
        }
        Iter { i, r } => unless(is_iterator_register(i) && is_set_register(r), NoRegister),
        Next { i } | NextBack { i } | Left { i } => unless(is_iterator_register(i), NoRegister),
    }
}

/// Carries out a command that is not refused, by the call of the set that the command names.
#[tactic(auto, unfolding(crate::specs::Runs::plan))]
pub(crate) fn carry_out_common<S: RunSet>(
    machine: &mut MachineOver<S>,
    command: &Command,
) -> Answer<S>
    requires registers { list_all is_register (plan command.now).fields ≡ true }
    requires widths { list_all fits_width (plan command.now).fields ≡ true }
    requires bits { list_all (is_bit S.rules) (plan command.now).fields ≡ true }
    ensures reply { reply_by S.members result
        ≡ ((plan command.now).effect S.rules machine.old).0 }
    ensures state { machine.new ≡ ((plan command.now).effect S.rules machine.old).1 }
{
    match *command {
        New { r } => machine.put(r, S::new()),
        All { r } => machine.put(r, S::all()),
        Only { r, bit } => machine.put(r, S::only(bit)),
        Insert { r, bit } => {
            let mut set = machine.get(r);
            let was_absent = set.insert(bit);
            machine.replace(r, set, was_absent)
        }
        Remove { r, bit } => {
            let mut set = machine.get(r);
            let was_member = set.remove(bit);
            machine.replace(r, set, was_member)
        }
        Contains { r, bit } => Answer::Truth(machine.get(r).contains(bit)),
        Clear { r } => {
            let mut set = machine.get(r);
            set.clear();
            machine.put(r, set)
        }
        Len { r } => Answer::Count(machine.get(r).len() as u64),
        IsEmpty { r } => Answer::Truth(machine.get(r).is_empty()),
        Union { to, a, b } => machine.put(to, machine.get(a).union(machine.get(b))),
        Intersection { to, a, b } => machine.put(to, machine.get(a).intersection(machine.get(b))),
        Difference { to, a, b } => machine.put(to, machine.get(a).difference(machine.get(b))),
        SymmetricDifference { to, a, b } => {
            machine.put(to, machine.get(a).symmetric_difference(machine.get(b)))
        }
        Complement { to, a } => machine.put(to, machine.get(a).complement()),
        InsertAll { r, a } => {
            let mut set = machine.get(r);
            set.insert_all(machine.get(a));
            machine.put(r, set)
        }
        RemoveAll { r, a } => {
            let mut set = machine.get(r);
            set.remove_all(machine.get(a));
            machine.put(r, set)
        }
        Disjoint { a, b } => Answer::Truth(machine.get(a).is_disjoint(machine.get(b))),
        Superset { a, b } => Answer::Truth(machine.get(a).is_superset(machine.get(b))),
        Subset { a, b } => Answer::Truth(machine.get(a).is_subset(machine.get(b))),
        Equal { a, b } => Answer::Truth(machine.get(a).is_same(machine.get(b))),
        Compare { a, b } => Answer::Order(machine.get(a).compare(machine.get(b))),
        Number { r, width } => number_answer(machine.get(r), width),
        NumberCut { r, width } => Answer::Number(machine.get(r).number_cut(width)),
        FromNumber { r, width, value } => machine.put_number(r, width, value),
        FromNumberCut { r, width, value } => machine.put(r, S::from_number_cut(width, value)),
        Words { r, count } => words_answer(machine.get(r), count),
        WordsCut { r, count } => Answer::Words {
            set: machine.get(r),
            count,
        },
        FromWords { r, ref words } => machine.put_words(r, words),
        FromWordsCut { r, ref words } => machine.put(r, S::from_words_cut(words.as_slice())),
        Iter { i, r } => machine.iterate(i, r),
        Next { i } => machine.next(i),
        NextBack { i } => machine.next_back(i),
        Left { i } => machine.left(i),
    }
}

/// The refusal, unless the condition holds.
pub(crate) fn unless(holds: bool, refusal: Refusal) -> Option<Refusal>
    ensures { result ≡ (if holds then None else Some refusal) }
{
    (!holds).then_some(refusal)
}

/// Whether a number is the width of an integer that sets are converted to and from.
fn is_width(width: u32) -> bool
    ensures { result ≡ is_width width }
{
    matches!(width, 8 | 16 | 32 | 64 | 128)
}

/// Whether the width passes [`is_width`], and the value is below 2 to the power of it.
fn fits(width: u32, value: u128) -> bool
    ensures { result ≡ (is_width width && nat_lt value (2 ^ width)) }
{
    match width {
        8 => u8::try_from(value).is_ok(),
        16 => u16::try_from(value).is_ok(),
        32 => u32::try_from(value).is_ok(),
        64 => u64::try_from(value).is_ok(),
        _ => width == 128,
    }
}
