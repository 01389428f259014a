//! What is requested and not granted.

ghost use Rattle.std.specs.Prelude.{◌≡◌};
ghost use Rattle.enumset.specs.Sets as set;

use crate::rights::Right;
use enumset::EnumSet;

/// The rights that are requested and not granted.
pub fn missing(granted: EnumSet<Right>, requested: EnumSet<Right>) -> EnumSet<Right>
    ensures { result ≡ set.difference requested granted }
{
    requested - granted
}
