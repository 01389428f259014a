//! The worked types by their names, and the answer to an input over each.

ghost use Rattle.std.specs.Prelude.{◌≡◌, IfOk, IfErr, Ok};
ghost use Rattle.enumset_machine.specs.WorkedTypes.{worked_of, answer_over};
ghost use Rattle.enumset_commands.specs.Texts.{IsFaultOf};

use crate::nothing::serve_nothing;
use crate::worked::Worked;
use crate::{serve_mixed_text, serve_text};
use enumset_commands::TextFault;
use enumset_commands::names::is;
use enumset_worked::{
    Four, High, Letters, Marks, Masks, PairNumber, PairWords, Single, Sparse, Wide,
};
use std::alloc::Global;

/// Returns the type of this name, or `None` if no type has exactly that name.
pub fn worked(name: &str) -> Option<Worked>
    ensures { result ≡ worked_of name.now }
{
    worked_of_bytes(name.as_bytes())
}

/// Returns the type of this name, as [`worked`] does. The name is bytes, which need not be text.
pub fn worked_of_bytes(name: &[u8]) -> Option<Worked>
    ensures { result ≡ worked_of name.now }
{
    Some(match name {
        _ if is(name, "letters") => Worked::Letters,
        _ if is(name, "four") => Worked::Four,
        _ if is(name, "sparse") => Worked::Sparse,
        _ if is(name, "marks") => Worked::Marks,
        _ if is(name, "wide") => Worked::Wide,
        _ if is(name, "pair-words") => Worked::PairWords,
        _ if is(name, "pair-number") => Worked::PairNumber,
        _ if is(name, "high") => Worked::High,
        _ if is(name, "masks") => Worked::Masks,
        _ if is(name, "single") => Worked::Single,
        _ if is(name, "nothing") => Worked::Nothing,
        _ if is(name, "mixed-letters") => Worked::MixedLetters,
        _ if is(name, "mixed-four") => Worked::MixedFour,
        _ if is(name, "mixed-sparse") => Worked::MixedSparse,
        _ if is(name, "mixed-marks") => Worked::MixedMarks,
        _ if is(name, "mixed-pair-words") => Worked::MixedPairWords,
        _ if is(name, "mixed-pair-number") => Worked::MixedPairNumber,
        _ if is(name, "mixed-high") => Worked::MixedHigh,
        _ if is(name, "mixed-masks") => Worked::MixedMasks,
        _ if is(name, "mixed-single") => Worked::MixedSingle,
        _ if is(name, "mixed-nothing") => Worked::MixedNothing,
        _ => return None,
    })
}

/// The answer over a worked type. A row of the table is the variant for the sets of a type, and the variant for its
/// mixed sets. It names the type once, so that no type is mistaken for another with the same replies. `wide` has no
/// mixed sets, and `nothing` has a function of its own.
macro_rules! over_worked_types {
    ($worked:ident, $alloc:ident, $input:ident: $($of_sets:ident $of_mixed_sets:ident;)+) => {
        match $worked {
            $(
                Worked::$of_sets => serve_text::<$of_sets>($alloc, $input),
                Worked::$of_mixed_sets => serve_mixed_text::<$of_sets>($alloc, $input),
            )+
            Worked::Wide => serve_text::<Wide>($alloc, $input),
            Worked::Nothing => serve_nothing($alloc, false, $input),
            Worked::MixedNothing => serve_nothing($alloc, true, $input),
        }
    };
}

/// Returns the text of the replies to the commands of an input, over the sets of a worked type, or over its mixed sets.
///
/// The errors are as for [`serve_text`].
#[tactic(auto, unfolding(enumset_sets::specs::Elements::valid_bits))]
pub fn serve_worked(alloc: Global, worked: Worked, input: &[u8]) -> Result<Vec<u8>, TextFault>
    ensures answer { IfOk result (λ out. answer_over worked input.now ≡ Ok out.items) }
    ensures fault { IfErr result (λ fault. IsFaultOf (answer_over worked input.now) fault) }
{
    over_worked_types! { worked, alloc, input:
        Letters MixedLetters;
        Four MixedFour;
        Sparse MixedSparse;
        Marks MixedMarks;
        PairWords MixedPairWords;
        PairNumber MixedPairNumber;
        High MixedHigh;
        Masks MixedMasks;
        Single MixedSingle;
    }
}
