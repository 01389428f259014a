//! The two words of 64 bits of a `u128`.

ghost use Rattle.std.specs.Prelude.{◌≡◌, ◌+◌, ◌*◌, ◌^◌};
ghost use Rattle.enumset_repr.specs.Number.{bits};
ghost use Rattle.enumset_repr.specs.Words.{bits_of};

/// Returns the lower and the upper word of a number, in this order.
pub(crate) fn halves_of(n: u128) -> [u64; 2]
    ensures { bits_of result ≡ bits n }
{
    [(n & u64::MAX as u128) as u64, (n >> 64) as u64]
}

/// Returns the number with this lower and this upper word.
pub(crate) fn join_halves(low: u64, high: u64) -> u128
    ensures { result ≡ high * 2 ^ 64 + low }
{
    (high as u128) << 64 | low as u128
}
