//! Runs of commands, over sets and over mixed sets: `run_into` and `run_mixed_into` are twins, and so are `run` and
//! `run_mixed`. Twins change together.

ghost use Rattle.std.specs.Prelude.{◌≡◌, true, map, length, IfOk};
ghost use Rattle.std.specs.List.{list_all};
ghost use Rattle.enumset_machine.specs.States.{start};
ghost use Rattle.enumset_machine.specs.Plans.{Plan, is_register, fits_width, is_bit, outcome_by, refusal, replies_by, state_after};
ghost use Rattle.enumset_machine.specs.Replies.{reply_by, reply_of};
ghost use Rattle.enumset_machine.specs.Runs.{outcome, replies};
ghost use Rattle.enumset_machine.specs.MixedRuns.{mixed_outcome, mixed_replies};
ghost use Rattle.enumset_sets.specs.Elements.{valid_bits};

use crate::answer::Answer;
use crate::machine::{Machine, MachineOver, MixedMachine};
use crate::run_set::RunSet;
use enumset_commands::{Command, MixedCommand, Refusal, Reply};
use enumset_mixed::MixedEnumSet;
use enumset_repr::EnumSetTypeRepr;
use enumset_sets::{EnumSet, EnumSetType, EnumSetTypeWithRepr};
use std::alloc::{AllocError, Global};

/// Carries out commands in order, and writes the answer to each: its reply is the one over finite sets of bit numbers.
/// The state of the machine is then the one that the commands leave.
///
/// The two lists must have the same length. The call takes no memory and has no error.
#[tactic(auto, unfolding(crate::specs::Runs::outcome))]
pub fn run_into<T: EnumSetType>(
    machine: &mut Machine<T>,
    commands: &[Command],
    answers: &mut [Answer<EnumSet<T>>],
)
    requires { length commands.now ≡ length answers.old }
    ensures answers { map reply_of answers.new
        ≡ replies_by (outcome (valid_bits T.elements)) machine.old commands.now }
    ensures state { machine.new
        ≡ state_after (outcome (valid_bits T.elements)) machine.old commands.now }
{
    answer_each(machine, commands, answers);
}

/// Carries out commands of mixed sets in order, and writes the answer to each, as [`run_into`] does: its reply is the
/// one over finite sets of bit numbers below the width of the representation.
///
/// The two lists must have the same length. The call takes no memory and has no error.
#[tactic(auto, unfolding(crate::specs::MixedRuns::mixed_outcome))]
pub fn run_mixed_into<T: EnumSetTypeWithRepr>(
    machine: &mut MixedMachine<T>,
    commands: &[MixedCommand],
    answers: &mut [Answer<MixedEnumSet<T>>],
)
    requires { length commands.now ≡ length answers.old }
    ensures answers { map reply_of answers.new
        ≡ replies_by (mixed_outcome (valid_bits T.elements) T.Repr.WIDTH)
        machine.old commands.now }
    ensures state { machine.new
        ≡ state_after (mixed_outcome (valid_bits T.elements) T.Repr.WIDTH)
        machine.old commands.now }
{
    answer_each(machine, commands, answers);
}

/// Carries out commands in order on a new machine, and returns one reply for each: the reply over finite sets of bit
/// numbers.
///
/// The only error is out of memory, for the list of replies or for a reply of words. No other reply takes memory.
#[tactic(auto, unfolding(crate::specs::Runs::outcome))]
pub fn run<T: EnumSetType>(alloc: Global, commands: &[Command]) -> Result<Vec<Reply>, AllocError>
    ensures { IfOk result (λ out. out.items ≡ replies (valid_bits T.elements) commands.now) }
{
    run_over::<EnumSet<T>>(alloc, commands)
}

/// Carries out commands of mixed sets in order on a new machine, and returns one reply for each: the reply over finite
/// sets of bit numbers below the width of the representation. The only error is out of memory, as for [`run`].
#[tactic(auto, unfolding(crate::specs::MixedRuns::mixed_outcome))]
pub fn run_mixed<T: EnumSetTypeWithRepr>(
    alloc: Global,
    commands: &[MixedCommand],
) -> Result<Vec<Reply>, AllocError>
    ensures { IfOk result (λ out. out.items
        ≡ mixed_replies (valid_bits T.elements) T.Repr.WIDTH commands.now) }
{
    run_over::<MixedEnumSet<T>>(alloc, commands)
}

/// The commands of runs over a kind of sets.
pub trait Commands: RunSet {
    /// A command of a run.
    type Command;

    // The plan of a command.
    ghost plan: { Self.Command → Plan };

    /// Why a command is refused, if it is.
    fn refusal_of(command: &Self::Command) -> Option<Refusal>
        ensures { result ≡ refusal Self.rules (plan command.now) };

    /// Carries out a command that is not refused.
    fn carry_out(machine: &mut MachineOver<Self>, command: &Self::Command) -> Answer<Self>
        requires registers { list_all is_register (plan command.now).fields ≡ true }
        requires widths { list_all fits_width (plan command.now).fields ≡ true }
        requires bits { list_all (is_bit Self.rules) (plan command.now).fields ≡ true }
        ensures reply { reply_by Self.members result
            ≡ ((plan command.now).effect Self.rules machine.old).0 }
        ensures state { machine.new ≡ ((plan command.now).effect Self.rules machine.old).1 };
}

/// Carries out commands in order from empty registers, with one reply for each. The only error is out of memory.
fn run_over<S: Commands>(alloc: Global, commands: &[S::Command]) -> Result<Vec<Reply>, AllocError>
    ensures { IfOk result (λ out. out.items
        ≡ replies_by (outcome_by S.rules S.plan) start commands.now) }
{
    let mut machine = MachineOver::<S>::new();
    let mut replies = Vec::with_capacity(alloc, commands.len())?;
    for command in commands {
        replies.push(answer_one(&mut machine, command).to_reply(alloc)?)?;
    }
    Ok(replies)
}

/// Carries out commands in order, and writes the answer to each.
fn answer_each<S: Commands>(
    machine: &mut MachineOver<S>,
    commands: &[S::Command],
    answers: &mut [Answer<S>],
)
    requires { length commands.now ≡ length answers.old }
    ensures answers { map (reply_by S.members) answers.new
        ≡ replies_by (outcome_by S.rules S.plan) machine.old commands.now }
    ensures state { machine.new
        ≡ state_after (outcome_by S.rules S.plan) machine.old commands.now }
{
    for (i, command) in commands.iter().enumerate() {
        answers[i] = answer_one(machine, command);
    }
}

/// Carries out one command, if it is not refused, and returns its answer. A refused command changes nothing.
pub(crate) fn answer_one<S: Commands>(
    machine: &mut MachineOver<S>,
    command: &S::Command,
) -> Answer<S>
    ensures { outcome_by S.rules S.plan machine.old command.now
        ≡ record { reply = reply_by S.members result; state = machine.new } }
{
    match S::refusal_of(command) {
        Some(refusal) => Answer::Refused(refusal),
        None => S::carry_out(machine, command),
    }
}
