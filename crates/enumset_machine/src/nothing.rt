//! The worked type `nothing`.

ghost use Rattle.std.specs.Prelude.{◌≡◌, [], Some, None, IfOk, IfErr, Ok, if◌then◌else◌};
ghost use Rattle.enumset_repr.specs.BitSet.{from_list};
ghost use Rattle.enumset_machine.specs.WorkedTypes.{answer_by_width};
ghost use Rattle.enumset_commands.specs.Texts.{IsFaultOf};

use crate::{serve_mixed_text, serve_text};
use enumset_commands::TextFault;
use enumset_sets::{EnumSetType, EnumSetTypeWithRepr};
use std::alloc::Global;
use std::fmt;

/// Returns the answer of `serve_worked` over the sets of an enum without variants in a `u8`, or over its mixed sets.
///
/// The enum is inside the function, since the checker rejects functions that nothing can call, and nothing can make a
/// value of this enum.
#[tactic(auto, unfolding(enumset_sets::specs::Elements::valid_bits))]
pub fn serve_nothing(alloc: Global, is_mixed: bool, input: &[u8]) -> Result<Vec<u8>, TextFault>
    ensures answer { IfOk result (λ out. answer_by_width (if is_mixed then Some 8 else None)
        (from_list []) input.now ≡ Ok out.items) }
    ensures fault { IfErr result (λ fault. IsFaultOf (answer_by_width
        (if is_mixed then Some 8 else None) (from_list []) input.now) fault) }
{
    #[derive(Clone, Copy, Debug, PartialEq, Eq, PartialOrd, Ord, Hash)]
    enum Nothing {}

    impl EnumSetType for Nothing {
        ghost use Rattle.std.specs.Prelude.{[]};
        ghost use Rattle.enumset_sets.specs.Laws.Elements.{with_bits, lawful_in_integer};
        ghost use Rattle.enumset_machine.specs.contracts.nothing.fn.serve_nothing.Nothing.{the_type};

        type Repr = u8;

        ghost elements = { with_bits the_type [] };

        ghost values = { [] };

        ghost ALL_BITS = { 0 };

        const ALL_BITS: u8 = 0;

        ghost BIT_WIDTH = { 0 };

        const BIT_WIDTH: u32 = 0;

        ghost VARIANT_COUNT = { 0 };

        const VARIANT_COUNT: u32 = 0;

        fn enum_into_u32(self) -> u32 {
            match self {}
        }

        fn enum_from_u32(val: u32) -> Nothing {
            unreachable!()
        }

        ghost lawful = { lawful_in_integer the_type _ tt };
    }

    impl EnumSetTypeWithRepr for Nothing {
        ghost use Rattle.std.proofs.Common.{rules};

        ghost narrow = { Prim.search rules };
    }

    impl fmt::Display for Nothing {
        fn fmt<W: fmt::Write>(&self, f: &mut fmt::Formatter<W>) -> fmt::Result {
            match *self {}
        }
    }

    if is_mixed {
        serve_mixed_text::<Nothing>(alloc, input)
    } else {
        serve_text::<Nothing>(alloc, input)
    }
}
