//! A machine over sets, or over mixed sets: its registers, and what it does with them.

mod iterators;
mod numbers;
mod registers;

ghost use Rattle.std.specs.Prelude.{◌≡◌, length, true, false, IfOk, IsOk, OnErr};
ghost use Rattle.enumset_commands.specs.declared.reply.Reply.TheVariants.{Done, Truth, Count};
ghost use Rattle.enumset_machine.specs.States.{start, is_set_register, is_iterator_register, set_at, list_at, put_set, put_list};
ghost use Rattle.enumset_repr.specs.BitSet.{ascending};
ghost use Rattle.enumset_repr.specs.Ends.{first, last, without_first, without_last};
ghost use Rattle.enumset_machine.specs.Plans.{step_reply};
ghost use Rattle.enumset_machine.specs.Replies.{reply_by, reply_of, takes_memory};
ghost use Rattle.enumset_machine.specs.Runs.{outcome};
ghost use Rattle.enumset_machine.specs.MixedRuns.{mixed_outcome};
ghost use Rattle.enumset_sets.specs.Elements.{valid_bits};

use crate::answer::Answer;
use crate::run_set::RunSet;
use crate::runs::answer_one;
use enumset_commands::{Command, MixedCommand, Reply};
use enumset_mixed::MixedEnumSet;
use enumset_repr::EnumSetTypeRepr;
use enumset_sets::{EnumSet, EnumSetType, EnumSetTypeWithRepr};
use iterators::IteratorRegisters;
pub(crate) use iterators::is_iterator_register;
pub(crate) use numbers::{MOST_WORDS, number_answer, words_answer};
use registers::Registers;
pub(crate) use registers::{are_set_registers, is_set_register};
use std::alloc::{AllocError, Global};
use std::marker::Model;

/// Four set registers and two iterator registers, over sets of one type.
#[derive(Drop)]
pub struct MachineOver<S: RunSet> {
    sets: Registers<S>,
    iterators: IteratorRegisters<S>,
}

impl<S: RunSet> Model for MachineOver<S> {
    ghost use Rattle.enumset_machine.specs.States.{State, coded_state};

    ghost Value = { State };

    ghost coded = { coded_state };

    ghost view = { λ m. record { sets = m.sets; lists = m.iterators } };
}

/// Four set registers and two iterator registers, of sets.
///
/// Contracts see the sets as sets of bit numbers, and the iterators as lists of what is left in them.
pub type Machine<T> = MachineOver<EnumSet<T>>;

/// A machine of mixed sets.
pub type MixedMachine<T> = MachineOver<MixedEnumSet<T>>;

// The methods over mixed sets, in the next `impl`, are twins of these: the two change together.
impl<T: EnumSetType> MachineOver<EnumSet<T>> {
    /// Carries out one command, and returns its answer. A refused command changes nothing.
    #[tactic(auto, unfolding(crate::specs::Runs::outcome))]
    pub fn answer(&mut self, command: &Command) -> Answer<EnumSet<T>>
        ensures { outcome (valid_bits T.elements) self.old command.now
            ≡ record { reply = reply_of result; state = self.new } }
    {
        answer_one(self, command)
    }

    /// Carries out one command, as [`MachineOver::answer`] does, and returns its reply.
    ///
    /// Only a reply of words takes memory; with any other reply the call succeeds. If memory runs out, the machine is
    /// unchanged.
    pub fn step(&mut self, alloc: Global, command: &Command) -> Result<Reply, AllocError>
        ensures succeeds { takes_memory
            (outcome (valid_bits T.elements) self.old command.now).reply ≡ false
            → IsOk result }
        ensures step { IfOk result (λ reply.
            outcome (valid_bits T.elements) self.old command.now
            ≡ record { reply = reply; state = self.new }) }
        ensures err { OnErr result (self.new ≡ self.old) }
    {
        self.answer(command).to_reply(alloc)
    }
}

// The twins of the methods over sets, in the `impl` before: the two change together.
impl<T: EnumSetTypeWithRepr> MachineOver<MixedEnumSet<T>> {
    /// Carries out one command, and returns its answer. A refused command changes nothing.
    #[tactic(auto, unfolding(crate::specs::MixedRuns::mixed_outcome))]
    pub fn answer(&mut self, command: &MixedCommand) -> Answer<MixedEnumSet<T>>
        ensures { mixed_outcome (valid_bits T.elements) T.Repr.WIDTH self.old command.now
            ≡ record { reply = reply_of result; state = self.new } }
    {
        answer_one(self, command)
    }

    /// Carries out one command, as [`MachineOver::answer`] does, and returns its reply.
    ///
    /// Only a reply of words takes memory; with any other reply the call succeeds. If memory runs out, the machine is
    /// unchanged.
    pub fn step(&mut self, alloc: Global, command: &MixedCommand) -> Result<Reply, AllocError>
        ensures succeeds { takes_memory
            (mixed_outcome (valid_bits T.elements) T.Repr.WIDTH self.old command.now).reply
            ≡ false → IsOk result }
        ensures step { IfOk result (λ reply.
            mixed_outcome (valid_bits T.elements) T.Repr.WIDTH self.old command.now
            ≡ record { reply = reply; state = self.new }) }
        ensures err { OnErr result (self.new ≡ self.old) }
    {
        self.answer(command).to_reply(alloc)
    }
}

impl<S: RunSet> MachineOver<S> {
    /// Returns a machine whose registers are empty.
    pub fn new() -> MachineOver<S>
        ensures { result ≡ start }
    {
        MachineOver {
            sets: Registers::new(),
            iterators: IteratorRegisters::new(),
        }
    }

    /// The set in a register.
    pub(crate) fn get(&self, r: u8) -> S
        requires { is_set_register r ≡ true }
        ensures { S.members result ≡ set_at self.now r }
    {
        self.sets.get(r)
    }

    /// Takes a step of an iterator from the front.
    pub(crate) fn next(&mut self, i: u8) -> Answer<S>
        requires { is_iterator_register i ≡ true }
        ensures reply { reply_by S.members result ≡ step_reply S.rules (first (list_at self.old i)) }
        ensures state { self.new ≡ put_list self.old i (without_first (list_at self.old i)) }
    {
        step_answer(self.iterators.next(i))
    }

    /// Takes a step of an iterator from the back.
    pub(crate) fn next_back(&mut self, i: u8) -> Answer<S>
        requires { is_iterator_register i ≡ true }
        ensures reply { reply_by S.members result ≡ step_reply S.rules (last (list_at self.old i)) }
        ensures state { self.new ≡ put_list self.old i (without_last (list_at self.old i)) }
    {
        step_answer(self.iterators.next_back(i))
    }

    /// How many items are left in an iterator.
    pub(crate) fn left(&self, i: u8) -> Answer<S>
        requires { is_iterator_register i ≡ true }
        ensures { reply_by S.members result ≡ Count (length (list_at self.now i)) }
    {
        Answer::Count(self.iterators.items_left(i) as u64)
    }

    /// Puts a changed set into its register, and answers with a truth.
    pub(crate) fn replace(&mut self, r: u8, set: S, truth: bool) -> Answer<S>
        requires { is_set_register r ≡ true }
        ensures reply { reply_by S.members result ≡ Truth truth }
        ensures state { self.new ≡ put_set self.old r (S.members set) }
    {
        self.sets.put(r, set);
        Answer::Truth(truth)
    }

    /// Puts an iterator over the members of a set into a register.
    pub(crate) fn iterate(&mut self, i: u8, r: u8) -> Answer<S>
        requires iterator { is_iterator_register i ≡ true }
        requires set { is_set_register r ≡ true }
        ensures reply { reply_by S.members result ≡ Done }
        ensures state { self.new ≡ put_list self.old i (ascending (set_at self.old r)) }
    {
        let items = self.get(r).items();
        self.iterators.put(i, items);
        Answer::Done
    }

    /// Puts a set into a register.
    pub(crate) fn put(&mut self, r: u8, set: S) -> Answer<S>
        requires { is_set_register r ≡ true }
        ensures reply { reply_by S.members result ≡ Done }
        ensures state { self.new ≡ put_set self.old r (S.members set) }
    {
        self.sets.put(r, set);
        Answer::Done
    }
}

/// The answer to a step of an iterator.
fn step_answer<S: RunSet>(bit: Option<u32>) -> Answer<S>
    ensures { reply_by S.members result ≡ step_reply S.rules bit }
{
    match bit {
        Some(bit) => S::bit_answer(bit),
        None => Answer::Absent,
    }
}
