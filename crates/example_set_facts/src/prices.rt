//! What permissions cost.

ghost use Rattle.std.specs.Prelude.{◌≡◌, ◌≤◌, slice_index, sum_by, IfSome, IfNone};
ghost use Rattle.enumset.specs.Sets as set;
ghost use Rattle.example_set_facts.specs.Bits.{permission};
ghost use Rattle.example_set_facts.specs.Prices.{price};

use crate::permissions::Permission;
use enumset::EnumSet;

/// The price of a permission.
pub fn price_of(asked: Permission) -> u32
    ensures { result ≡ price (permission asked) }
{
    match asked {
        Permission::Read => 1,
        Permission::Comment => 2,
        Permission::Write => 5,
        Permission::Share => 10,
        Permission::Delete => 20,
    }
}

/// The price of a permission, from a table with a row for each.
pub fn price_in(prices: &[u32; 5], asked: Permission) -> u32
    ensures { result ≡ slice_index prices.now (permission asked) }
{
    prices[EnumSet::bit_index(asked) as usize]
}

/// What permissions cost together, if it fits.
pub fn total_price(granted: EnumSet<Permission>) -> Option<u32>
    ensures total { IfSome result (λ n. n ≡ sum_by price (set.ascending granted)) }
    ensures none { IfNone result (4294967296 ≤ sum_by price (set.ascending granted)) }
{
    let mut total = 0u32;
    for asked in granted {
        total = total.checked_add(price_of(asked))?;
    }
    Some(total)
}
