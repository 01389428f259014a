//! The number of a discriminant.

ghost use Rattle.std.specs.Prelude.{◌≡◌};
ghost use Rattle.enumset_source.specs.Numbers.{next_number, signed_number};

/// The number of a discriminant. Each number has one form: zero is `Natural(0)`.
#[derive(Clone, Copy, PartialEq, Eq)]
pub enum Number {
    /// A number from 0 to 2^128 - 1.
    Natural(u128),
    /// The negative of this number, which is at least 1.
    Negative(u128),
}

impl Number {
    /// The number of a literal after a minus sign, or without one.
    pub fn signed(has_minus: bool, number: u128) -> Number
        ensures { result ≡ signed_number has_minus number }
    {
        match number {
            1.. if has_minus => Number::Negative(number),
            _ => Number::Natural(number),
        }
    }

    /// One more than the number, or `None` if that is 2^128.
    pub fn next(self) -> Option<Number>
        ensures { result ≡ next_number self }
    {
        match self {
            Number::Natural(u128::MAX) => None,
            Number::Natural(number) => Some(Number::Natural(number + 1)),
            Number::Negative(number) if number <= 1 => Some(Number::Natural(0)),
            Number::Negative(number) => Some(Number::Negative(number - 1)),
        }
    }
}
