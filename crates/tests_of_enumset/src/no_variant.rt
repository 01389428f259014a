//! Sets of an enum without variants, over zero words.

use crate::expect::expect;
use crate::form::{Form, read, write};
use enumset::internal::ArrayRepr;
use enumset::{EnumSet, EnumSetNames, EnumSetType, names_of, variant_of};
use std::alloc::Global;
use std::fmt;
use std::process::Abort;
use std::test::Fail;

/// The results of calls that could go wrong for a type without variants.
fn expect_nothing<T: EnumSetNames + fmt::Debug>(
    rt: &impl Abort,
    alloc: Global,
) -> Result<(), Fail> {
    let all = EnumSet::<T>::all();
    let mut text = format!(in alloc; "{all:?} {}", all.to_vec(alloc)?.len())?;
    for form in [Form::Number, Form::Words, Form::List, Form::Map] {
        write!(text, " {}", write(alloc, form, &all)?)?;
    }
    let unknown = read::<T>(alloc, Form::Map, "{\"A\":false}");
    write!(text, " {unknown:?}")?;
    let wanted = "EnumSet() 0 0 [] [] {} Err(UnknownName(0))";
    expect(rt, "texts", text.as_str(), wanted);
    Ok(())
}

#[test]
fn no_variant_is_enough(rt: HostRuntime) -> Result<(), Fail> {
    #[derive(Clone, Copy, Debug, PartialEq, Eq)]
    enum Nothing {}

    impl EnumSetType for Nothing {
        ghost use Rattle.std.specs.Prelude.{[]};
        ghost use Rattle.enumset.specs.Sets.{with_bits, lawful_in_words};
        ghost use Rattle.tests_of_enumset.specs.contracts.no_variant.fn.no_variant_is_enough.Nothing.{the_type};

        type Repr = ArrayRepr<0>;

        ghost elements = { with_bits the_type [] };

        ghost ALL_BITS = { [] };

        const ALL_BITS: ArrayRepr<0> = ArrayRepr([]);

        ghost BIT_WIDTH = { 0 };

        const BIT_WIDTH: u32 = 0;

        ghost VARIANT_COUNT = { 0 };

        const VARIANT_COUNT: u32 = 0;

        fn enum_into_u32(self) -> u32 {
            match self {}
        }

        fn enum_from_u32(val: u32) -> Nothing {
            variant_of!(val, Nothing:)
        }

        ghost lawful = { lawful_in_words the_type _ tt };
    }

    impl EnumSetNames for Nothing {
        ghost use Rattle.std.specs.Prelude.{[]};

        ghost names = { [] };

        fn names() -> &'static [(Nothing, &'static str)] {
            names_of!(Nothing:)
        }

        ghost named = { tt };
    }

    expect_nothing::<Nothing>(&rt, rt.alloc())
}
