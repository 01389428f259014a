//! The commands of runs over mixed sets: the commands of every run, and those for mixed sets alone.

ghost use Rattle.std.specs.Prelude.{◌≡◌, true};
ghost use Rattle.enumset_repr.specs.BitSet.{contains, below, is_subset};
ghost use Rattle.enumset_sets.specs.Elements.{valid_bits};
ghost use Rattle.enumset_machine.specs.States.{is_set_register, set_at};
ghost use Rattle.enumset_machine.specs.Plans.{put_if};
ghost use Rattle.enumset_machine.specs.Replies.{reply_of};
ghost use Rattle.enumset_machine.specs.MixedRuns.{mixed_plan};

use crate::answer::Answer;
use crate::commands::{carry_out_common, refusal_of_common, unless};
use crate::machine::{MachineOver, are_set_registers, is_set_register};
use crate::runs::Commands;
use enumset_commands::MixedCommand::{self, *};
use enumset_commands::Refusal::{self, NoRegister, NotABit};
use enumset_mixed::{MixedEnumSet, convert_mixed};
use enumset_repr::EnumSetTypeRepr;
use enumset_sets::{EnumSetType, EnumSetTypeWithRepr};

impl<T: EnumSetTypeWithRepr> Commands for MixedEnumSet<T> {
    type Command = MixedCommand;

    ghost plan = { mixed_plan };

    #[tactic(auto, unfolding(crate::specs::MixedRuns::mixed_plan))]
    fn refusal_of(command: &MixedCommand) -> Option<Refusal> {
        match *command {
            Common(ref command) => refusal_of_common::<MixedEnumSet<T>>(command),
            HasBit { r, .. } | RemoveBit { r, .. } | ValidLen { r } | Unknown { r } => {
                unless(is_set_register(r), NoRegister)
            }
            InsertBit { r, bit } => {
                unless(is_set_register(r), NoRegister).or(unless(is_bit_allowed::<T>(bit), NotABit))
            }
            FullComplement { to, a } | AsEnumset { to, a } | Truncate { to, a } => {
                unless(are_set_registers(to, a), NoRegister)
            }
        }
    }

    #[tactic(auto, unfolding(crate::specs::MixedRuns::mixed_plan))]
    fn carry_out(
        machine: &mut MachineOver<MixedEnumSet<T>>,
        command: &MixedCommand,
    ) -> Answer<MixedEnumSet<T>> {
        match *command {
            Common(ref command) => carry_out_common(machine, command),
            HasBit { r, bit } => Answer::Truth(machine.get(r).has_bit(bit)),
            InsertBit { r, bit } => {
                let mut set = machine.get(r);
                let was_absent = set.insert_bit(bit);
                machine.replace(r, set, was_absent)
            }
            RemoveBit { r, bit } => {
                let mut set = machine.get(r);
                let was_member = set.remove_bit(bit);
                machine.replace(r, set, was_member)
            }
            FullComplement { to, a } => machine.put(to, machine.get(a).full_complement()),
            ValidLen { r } => Answer::Count(machine.get(r).valid_len() as u64),
            Unknown { r } => Answer::Truth(machine.get(r).has_unknown_bits()),
            AsEnumset { to, a } => as_enumset(machine, to, a),
            Truncate { to, a } => {
                let elements = machine.get(a).as_enumset_truncate();
                machine.put(to, convert_mixed(elements))
            }
        }
    }
}

/// Puts the set of one register into another, if each member is valid.
fn as_enumset<T: EnumSetTypeWithRepr>(
    machine: &mut MachineOver<MixedEnumSet<T>>,
    to: u8,
    a: u8,
) -> Answer<MixedEnumSet<T>>
    requires to { is_set_register to ≡ true }
    requires a { is_set_register a ≡ true }
    ensures reply { let s = set_at machine.old a in
        reply_of result ≡ (put_if (is_subset s (valid_bits T.elements)) machine.old to s).0 }
    ensures state { let s = set_at machine.old a in
        machine.new ≡ (put_if (is_subset s (valid_bits T.elements)) machine.old to s).1 }
{
    match machine.get(a).try_as_enumset() {
        Some(elements) => machine.put(to, convert_mixed(elements)),
        None => Answer::Absent,
    }
}

/// Whether a bit is below the width of the representation.
fn is_bit_allowed<T: EnumSetTypeWithRepr>(bit: u32) -> bool
    ensures { result ≡ contains (below T.Repr.WIDTH) bit }
{
    bit < T::Repr::WIDTH
}
