//! Answers a text of commands with the text of their replies. `serve_text` and `serve_mixed_text` are twins, which
//! change together.

ghost use Rattle.std.specs.Prelude.{◌≡◌, ◌++◌, codes, IfOk, IfErr, Ok, OnOk};
ghost use Rattle.std.specs.String.{string_bytes};
ghost use Rattle.enumset_machine.specs.States.{start};
ghost use Rattle.enumset_machine.specs.Plans.{outcome_by, replies_by};
ghost use Rattle.enumset_machine.specs.Answers.{answer_by, answer_to, commands_of, mixed_answer_to};
ghost use Rattle.enumset_commands.specs.Lines.{commands_of_text};
ghost use Rattle.enumset_commands.specs.Texts.{IsFaultOf, text_of};
ghost use Rattle.enumset_sets.specs.Elements.{valid_bits};

use crate::machine::MachineOver;
use crate::runs::{Commands, answer_one};
use crate::transcript::write_answer;
use enumset_commands::grammar::lines::Lines;
use enumset_commands::grammar::tokens::Tokens;
use enumset_commands::{LineCommand, TextFault};
use enumset_mixed::MixedEnumSet;
use enumset_repr::EnumSetTypeRepr;
use enumset_sets::{EnumSet, EnumSetType, EnumSetTypeWithRepr};
use std::alloc::{AllocError, Global};

/// The most bytes that an input may have.
pub const INPUT_LIMIT: usize = 1_048_576;

/// Returns the text of the replies to the commands of an input.
///
/// The errors are [`TextFault::TooLong`] for an input of more than [`INPUT_LIMIT`] bytes, else
/// [`TextFault::BadLine`] for the first line that is not a command, and else, if memory ran out,
/// [`TextFault::OutOfMemory`].
#[tactic(auto, unfolding(crate::specs::Runs::outcome))]
pub fn serve_text<T: EnumSetType>(alloc: Global, input: &[u8]) -> Result<Vec<u8>, TextFault>
    // The replies are as over finite sets of bit numbers.
    ensures answer { IfOk result (λ out.
        answer_to (valid_bits T.elements) input.now ≡ Ok out.items) }
    // A fault of the input is reported. If it has none, the fault is that memory ran out.
    ensures fault { IfErr result (λ fault.
        IsFaultOf (answer_to (valid_bits T.elements) input.now) fault) }
{
    serve_over::<EnumSet<T>>(alloc, input)
}

/// Returns the text of the replies to the commands of mixed sets of an input.
///
/// The errors are as for [`serve_text`].
#[tactic(auto, unfolding(crate::specs::MixedRuns::mixed_outcome))]
pub fn serve_mixed_text<T: EnumSetTypeWithRepr>(
    alloc: Global,
    input: &[u8],
) -> Result<Vec<u8>, TextFault>
    // The replies are as over finite sets of bit numbers below the width of the representation.
    ensures answer { IfOk result (λ out.
        mixed_answer_to (valid_bits T.elements) T.Repr.WIDTH input.now ≡ Ok out.items) }
    // A fault of the input is reported. If it has none, the fault is that memory ran out.
    ensures fault { IfErr result (λ fault.
        IsFaultOf (mixed_answer_to (valid_bits T.elements) T.Repr.WIDTH input.now) fault) }
{
    serve_over::<MixedEnumSet<T>>(alloc, input)
}

/// The text of the replies to the commands of an input over sets of one type, from empty registers, with the errors of
/// [`serve_text`].
fn serve_over<S: Commands>(alloc: Global, input: &[u8]) -> Result<Vec<u8>, TextFault>
where
    S::Command: LineCommand,
    ensures answer { IfOk result (λ out. answer_by (replies_by (outcome_by S.rules S.plan) start)
        (commands_of S.Command.command_of input.now) ≡ Ok out.items) }
    ensures fault { IfErr result (λ fault. IsFaultOf (answer_by (replies_by (outcome_by S.rules S.plan) start)
        (commands_of S.Command.command_of input.now)) fault) }
{
    if input.len() > INPUT_LIMIT {
        return Err(TextFault::TooLong);
    }
    answer_lines::<S>(alloc, input)
}

/// The text of the replies to the commands of an input of any length. Each command is read, carried out and answered
/// before the next. If memory runs out, the remaining lines are still read, so an input that has a line which is not a
/// command is reported as such.
#[tactic(auto, using(crate::proofs::Answered::line_steps))]
fn answer_lines<S: Commands>(alloc: Global, input: &[u8]) -> Result<Vec<u8>, TextFault>
where
    S::Command: LineCommand,
    ensures answer { IfOk result (λ out. answer_by (replies_by (outcome_by S.rules S.plan) start)
        (commands_of_text S.Command.command_of input.now) ≡ Ok out.items) }
    ensures fault { IfErr result (λ fault. IsFaultOf (answer_by (replies_by (outcome_by S.rules S.plan) start)
        (commands_of_text S.Command.command_of input.now)) fault) }
{
    let mut machine = MachineOver::<S>::new();
    let mut text = String::new(alloc);
    let mut has_room = true;
    let mut number = 0u64;
    for line in Lines::new(input) {
        number += 1;
        let mut tokens = Tokens::new(line);
        if let Some(name) = tokens.next() {
            let command = S::Command::read(alloc, name, tokens).ok_or(TextFault::BadLine(number))?;
            has_room = match command {
                Ok(command) => has_room && answer_command(&mut machine, command, &mut text).is_ok(),
                Err(_) => false,
            };
        }
    }
    if has_room {
        Ok(text.into_bytes())
    } else {
        Err(TextFault::OutOfMemory)
    }
}

/// Carries out one command, and writes its reply in a line. Only the text takes memory.
fn answer_command<S: Commands>(
    machine: &mut MachineOver<S>,
    command: S::Command,
    text: &mut String,
) -> Result<(), AllocError>
where
    S::Command: LineCommand,
    ensures state { machine.new ≡ (outcome_by S.rules S.plan machine.old command).state }
    ensures text { OnOk result (string_bytes text.new ≡ string_bytes text.old
        ++ text_of (outcome_by S.rules S.plan machine.old command).reply ++ codes "\n") }
{
    let answer = answer_one(machine, &command);
    write_answer(text, answer)
}
