//! Names for the values of `NamedWide`: the shorter ones are prefixes of the longer ones.

use crate::wide::NamedWide;
use enumset::{EnumSetNames, names_of};

impl EnumSetNames for NamedWide {
    ghost use Rattle.std.specs.Prelude.{codes, ◌∷◌, []};

    ghost names = { codes "Read" ∷ codes "Reader" ∷ codes "Re" ∷ [] };

    fn names() -> &'static [(NamedWide, &'static str)] {
        names_of!(NamedWide: P "Read" Q "Reader" R "Re")
    }

    ghost named = { tt };
}
