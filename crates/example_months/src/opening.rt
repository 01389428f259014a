//! When houses are open.

ghost use Rattle.std.specs.Prelude.{◌≡◌};
ghost use Rattle.enumset.specs.Sets as set;
ghost use Rattle.example_months.specs.Months.{bit};

use crate::months::Month;
use enumset::EnumSet;

/// The months in which both houses are open.
pub fn both_open(one: EnumSet<Month>, other: EnumSet<Month>) -> EnumSet<Month>
    ensures { result ≡ set.intersection one other }
{
    one & other
}

/// The months in which a house is open, with one more.
pub fn with_month(months: EnumSet<Month>, month: Month) -> EnumSet<Month>
    ensures { result ≡ set.insert months (bit month) }
{
    months | month
}
