//! The law of runs of mixed sets, as users' code calls it. Replies over both types are among the transcripts.

ghost use Rattle.std.specs.Prelude.{◌≡◌, IsTrue, IfOk, min};
ghost use Rattle.std.specs.List.{list_all};
ghost use Rattle.enumset_machine.specs.MixedRuns.{is_within};
ghost use Rattle.enumset_sets.specs.Elements.{valid_bits};

use enumset_commands::{MixedCommand, Reply};
use enumset_machine::laws::mixed_transcript;
use enumset_machine::run_mixed;
use enumset_repr::EnumSetTypeRepr;
use enumset_sets::{EnumSetType, EnumSetTypeWithRepr};
use enumset_worked::{PairNumber, PairWords};
use std::alloc::{AllocError, Global};

/// The replies over mixed sets of two types with the same valid bits. They do not depend on the representations.
fn replies_over_both<T: EnumSetTypeWithRepr, U: EnumSetTypeWithRepr>(
    alloc: Global,
    commands: &[MixedCommand],
) -> Result<(Vec<Reply>, Vec<Reply>), AllocError>
    requires bits { valid_bits T.elements ≡ valid_bits U.elements }
    requires within { IsTrue (list_all (is_within (min T.Repr.WIDTH U.Repr.WIDTH)) commands.now) }
    ensures { IfOk result (λ both. both.0.items ≡ both.1.items) }
{
    mixed_transcript();
    let one = run_mixed::<T>(alloc, commands)?;
    let other = run_mixed::<U>(alloc, commands)?;
    Ok((one, other))
}

/// The replies over two types with the same valid bits, kept in two words and in an integer, both of 128 bits.
#[tactic(auto, unfolding(enumset_sets::specs::Elements::valid_bits))]
fn replies_over_pairs(
    alloc: Global,
    commands: &[MixedCommand],
) -> Result<(Vec<Reply>, Vec<Reply>), AllocError>
    requires within { IsTrue (list_all (is_within 128) commands.now) }
    ensures { IfOk result (λ both. both.0.items ≡ both.1.items) }
{
    replies_over_both::<PairWords, PairNumber>(alloc, commands)
}
