//! Sets to and from numbers, by the table of [`EnumSet`](crate::EnumSet).

ghost use Rattle.std.specs.Prelude.{◌≡◌, ◌<◌, IsTrue};
ghost use Rattle.enumset_repr.specs.BitSet.{is_subset, below, low};

mod u128_conversions;
mod u16_conversions;
mod u32_conversions;
mod u64_conversions;
mod u8_conversions;
mod usize_conversions;

use crate::element::EnumSetType;
use crate::enum_set::EnumSet;

/// Tells the proof that a set has no member at or past a width, if the representation has no such bit or every member
/// is below the width. The call does nothing at run time.
#[inline]
#[tactic(auto, using(crate::specs::Laws::Conversions::conversions))]
fn learn_fits<T: EnumSetType>(set: &EnumSet<T>, width: u32)
    requires { width < T.Repr.WIDTH → IsTrue (is_subset set.now (below width)) }
    ensures { low set.now width ≡ set.now }
{
    set.learn_members();
}
