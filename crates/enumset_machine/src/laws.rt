//! Laws of runs, as functions: calling one gives the proof its law.
//!
//! `same_replies` and `same_mixed_replies` make the runs that they are about; the others do nothing at run time. These
//! two are twins: they change together.

ghost use Rattle.std.specs.Prelude.{◌≡◌, ◌++◌, ℕ, map, length, min, IsTrue, List};
ghost use Rattle.std.specs.List.{list_all};
ghost use Rattle.enumset_repr.specs.BitSet.{BitSet};
ghost use Rattle.enumset_sets.specs.Elements.{valid_bits};
ghost use Rattle.enumset_machine.specs.States.{State};
ghost use Rattle.enumset_machine.specs.Plans.{Outcome, replies_by, state_after};
ghost use Rattle.enumset_machine.specs.Replies.{reply_of};
ghost use Rattle.enumset_machine.specs.Runs.{outcome};
ghost use Rattle.enumset_machine.specs.MixedRuns.{mixed_outcome, mixed_replies, is_within};
ghost use Rattle.enumset_commands.specs.declared.mixed_command.MixedCommand.{MixedCommand};

use crate::answer::Answer;
use crate::machine::{Machine, MixedMachine};
use crate::runs::{run_into, run_mixed_into};
use enumset_commands::{Command, MixedCommand};
use enumset_mixed::MixedEnumSet;
use enumset_repr::EnumSetTypeRepr;
use enumset_sets::{EnumSet, EnumSetType, EnumSetTypeWithRepr};

/// A run of commands in two parts is a run of all of them: the second part starts from the state that the first leaves.
/// The law is about any outcomes of commands, and so about runs over sets and over mixed sets.
#[tactic(auto, using(crate::proofs::Composed::composed))]
pub fn run_in_parts<C>()
    ensures replies { (outcome : State → C → Outcome) (s : State) (first second : List C)
        → replies_by outcome s (first ++ second)
        ≡ replies_by outcome s first ++ replies_by outcome (state_after outcome s first) second }
    ensures state { (outcome : State → C → Outcome) (s : State) (first second : List C)
        → state_after outcome s (first ++ second)
        ≡ state_after outcome (state_after outcome s first) second }
{}

/// Runs the same commands over two types with the same valid bits, from the same state: whatever the representations,
/// the replies are the same, and so are the states after them. Each side is answered as [`run_into`] answers it.
///
/// Each list of answers must have the same length as the commands. The call takes no memory and has no error.
pub fn same_replies<T: EnumSetType, U: EnumSetType>(
    one: &mut Machine<T>,
    other: &mut Machine<U>,
    commands: &[Command],
    of_one: &mut [Answer<EnumSet<T>>],
    of_other: &mut [Answer<EnumSet<U>>],
)
    requires bits { valid_bits T.elements ≡ valid_bits U.elements }
    requires state { one.old ≡ other.old }
    requires room { length commands.now ≡ length of_one.old }
    requires other_room { length commands.now ≡ length of_other.old }
    ensures replies { map reply_of of_one.new ≡ map reply_of of_other.new }
    ensures state { one.new ≡ other.new }
    ensures run { map reply_of of_one.new
        ≡ replies_by (outcome (valid_bits T.elements)) one.old commands.now }
    ensures left { one.new ≡ state_after (outcome (valid_bits T.elements)) one.old commands.now }
{
    run_into(one, commands, of_one);
    run_into(other, commands, of_other);
}

/// Runs the same commands of mixed sets over two types with the same valid bits, in representations of the same width,
/// from the same state: the replies are the same, and so are the states after them. Each side is answered as
/// [`run_mixed_into`] answers it.
///
/// Each list of answers must have the same length as the commands. The call takes no memory and has no error.
pub fn same_mixed_replies<T: EnumSetTypeWithRepr, U: EnumSetTypeWithRepr>(
    one: &mut MixedMachine<T>,
    other: &mut MixedMachine<U>,
    commands: &[MixedCommand],
    of_one: &mut [Answer<MixedEnumSet<T>>],
    of_other: &mut [Answer<MixedEnumSet<U>>],
)
    requires bits { valid_bits T.elements ≡ valid_bits U.elements }
    requires width { T.Repr.WIDTH ≡ U.Repr.WIDTH }
    requires state { one.old ≡ other.old }
    requires room { length commands.now ≡ length of_one.old }
    requires other_room { length commands.now ≡ length of_other.old }
    ensures replies { map reply_of of_one.new ≡ map reply_of of_other.new }
    ensures state { one.new ≡ other.new }
    ensures run { map reply_of of_one.new
        ≡ replies_by (mixed_outcome (valid_bits T.elements) T.Repr.WIDTH) one.old commands.now }
    ensures left { one.new
        ≡ state_after (mixed_outcome (valid_bits T.elements) T.Repr.WIDTH) one.old commands.now }
{
    run_mixed_into(one, commands, of_one);
    run_mixed_into(other, commands, of_other);
}

/// Commands of mixed sets have the same replies over two types with the same valid bits, in representations of any
/// widths, if no command is `full_complement` and each bit that a command names, or has in a number or in words, is
/// below the smaller width.
#[tactic(auto, using(crate::proofs::OneTranscript::one_transcript))]
pub fn mixed_transcript()
    ensures { (valid : BitSet) (one other : ℕ) (commands : List MixedCommand)
        → IsTrue (list_all (is_within (min one other)) commands)
        → mixed_replies valid one commands ≡ mixed_replies valid other commands }
{}
