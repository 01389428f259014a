//! Names for the values of `Priority`: an empty one, and two that have escapes in JSON.

use crate::priority::Priority;
use enumset::{EnumSetNames, names_of};

impl EnumSetNames for Priority {
    ghost use Rattle.std.specs.Prelude.{◌∷◌, []};

    ghost names = { [] ∷ (34 ∷ 92 ∷ []) ∷ (195 ∷ 169 ∷ 1 ∷ []) ∷ [] };

    fn names() -> &'static [(Priority, &'static str)] {
        names_of!(Priority: Urgent "" Normal "\"\\" Low "é\u{1}")
    }

    ghost named = { tt };
}
