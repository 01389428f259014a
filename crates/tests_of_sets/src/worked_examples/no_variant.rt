//! Sets of an enum without variants, in a `u8`.

use super::number;
use crate::expect::expect;
use enumset_sets::{EnumSet, EnumSetType};
use std::process::Abort;

/// Calls of the sets of an enum without variants. The checker rejects a function that nothing can call, and nothing can
/// make a value of such an enum. So only generic functions name its sets.
fn expect_nothing<T: EnumSetType>(rt: &impl Abort) {
    let (all, none) = (EnumSet::<T>::all(), EnumSet::<T>::empty());
    expect(rt, "all().is_empty()", all.is_empty(), true);
    expect(rt, "bit_width", EnumSet::<T>::bit_width(), 0);
    expect(rt, "complement of {}", number(none.complement()), 0);
    expect(rt, "iter().next()", none.iter().next().is_none(), true);
}

#[test]
fn nothing(rt: HostRuntime) {
    #[derive(Clone, Copy, Debug, PartialEq, Eq)]
    enum Nothing {}

    impl EnumSetType for Nothing {
        ghost use Rattle.std.specs.Prelude.{[]};
        ghost use Rattle.enumset_sets.specs.Laws.Elements.{with_bits, lawful_in_integer};
        ghost use Rattle.tests_of_sets.specs.contracts.worked_examples.no_variant.fn.nothing.Nothing.{the_type};

        type Repr = u8;

        ghost elements = { with_bits the_type [] };

        ghost ALL_BITS = { 0 };

        const ALL_BITS: u8 = 0;

        ghost BIT_WIDTH = { 0 };

        const BIT_WIDTH: u32 = 0;

        ghost VARIANT_COUNT = { 0 };

        const VARIANT_COUNT: u32 = 0;

        fn enum_into_u32(self) -> u32 {
            match self {}
        }

        fn enum_from_u32(val: u32) -> Nothing {
            unreachable!()
        }

        ghost lawful = { lawful_in_integer the_type _ tt };
    }

    expect_nothing::<Nothing>(&rt);
}
