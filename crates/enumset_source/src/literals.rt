//! Reads the numbers of literals.

ghost use Rattle.std.specs.Prelude.{◌≡◌, ◌*◌, ◌+◌, ℕ, length, IfOk, IfErr, IfSome, MatchOption};
ghost use Rattle.enumset_source.specs.Literals.{radix, with_digit, number_in, base_written, number_written, before_type};
ghost use Rattle.enumset_source.specs.Literals.{IsDigit, AreDigits, AreWritten, IsNumberOf, IsFaultOf};

/// Why a literal has no number.
#[derive(Clone, Copy)]
pub enum LiteralFault {
    /// It is not an integer.
    NotAnInteger,
    /// It is above 2^128 - 1.
    TooLarge,
}

/// The types that an integer literal may end in.
const TYPES: [&str; 13] = [
    "", "u8", "u16", "u32", "u64", "u128", "usize", "i8", "i16", "i32", "i64", "i128", "isize",
];

/// Reads an integer literal: its text without its type, and its number.
#[tactic(auto, using(crate::proofs::Digits::taken))]
pub fn read_literal(literal: &str) -> Result<(&str, u128), LiteralFault>
    ensures { IfOk result (λ read. AreWritten (before_type literal.now)
        × (read.1 ≡ number_written (before_type literal.now))) }
{
    let bytes = literal.as_bytes();
    let end = end_of_digits(bytes);
    if !TYPES.contains(&literal.get(end..).unwrap_or("?")) {
        return Err(LiteralFault::NotAnInteger);
    }
    let number = number_of(&bytes[..end])?;
    let written = literal.get(..end).unwrap_or(literal);
    Ok((written.trim_end_matches('_'), number))
}

/// Where the type of a literal begins, or else its length. No digit of a base is an `i` or a `u`.
fn end_of_digits(literal: &[u8]) -> usize
    ensures { result ≡ length (before_type literal.now) }
{
    for i in 0..literal.len() {
        if literal[i] == b'i' || literal[i] == b'u' {
            return i;
        }
    }
    literal.len()
}

/// The base of the digits of a literal.
#[derive(Clone, Copy)]
enum Base {
    Binary,
    Octal,
    Decimal,
    Hexadecimal,
}

impl Base {
    fn radix(self) -> u32
        ensures { result ≡ radix self }
    {
        match self {
            Base::Binary => 2,
            Base::Octal => 8,
            Base::Decimal => 10,
            Base::Hexadecimal => 16,
        }
    }
}

/// The number of a literal without a type.
fn number_of(written: &[u8]) -> Result<u128, LiteralFault>
    ensures number { IfOk result (λ n. AreWritten written.now × (n ≡ number_written written.now)) }
    ensures fault { IfErr result (IsFaultOf written.now) }
{
    let (base, digits) = base_of(written);
    match read_digits(base, digits) {
        Some(_) if digits.is_empty() => Err(LiteralFault::NotAnInteger),
        Some(number) => number.ok_or(LiteralFault::TooLarge),
        None => Err(LiteralFault::NotAnInteger),
    }
}

/// The base of a literal, by its prefix, and its digits.
fn base_of(written: &[u8]) -> (Base, &[u8])
    ensures { (radix result.0, result.1.now) ≡ base_written written.now }
{
    match written {
        [zero, x, digits @ ..] if *zero == b'0' && *x == b'x' => (Base::Hexadecimal, digits),
        [zero, o, digits @ ..] if *zero == b'0' && *o == b'o' => (Base::Octal, digits),
        [zero, b, digits @ ..] if *zero == b'0' && *b == b'b' => (Base::Binary, digits),
        digits => (Base::Decimal, digits),
    }
}

/// The number of digits in this base, or `None` if a byte is not a digit. A number from 2^128 is `Some(None)`.
fn read_digits(base: Base, digits: &[u8]) -> Option<Option<u128>>
    ensures { MatchOption result (AreDigits (radix base) digits.now → ⊥)
        (λ number. AreDigits (radix base) digits.now × IsNumberOf (number_in (radix base) digits.now) number) }
{
    let mut number = Some(0);
    for i in 0..digits.len() {
        number = with_byte(number, base, digits[i])?;
    }
    Some(number)
}

/// The number of digits with one more byte, which is a digit or `_`, or else `None`.
fn with_byte(number: Option<u128>, base: Base, byte: u8) -> Option<Option<u128>>
    ensures tested { MatchOption result (IsDigit (radix base) byte → ⊥) (λ _. IsDigit (radix base) byte) }
    ensures number { (n : ℕ) → IsNumberOf n number
        → IfSome result (IsNumberOf (with_digit (radix base) n byte)) }
{
    if byte == b'_' {
        return Some(number);
    }
    let digit = char::from(byte).to_digit(base.radix())?;
    Some(next_number(number, base, digit))
}

/// The number with one more digit, if it is below 2^128.
fn next_number(number: Option<u128>, base: Base, digit: u32) -> Option<u128>
    ensures { (n : ℕ) → IsNumberOf n number → IsNumberOf (n * radix base + digit) result }
{
    let shifted = number?.checked_mul(u128::from(base.radix()))?;
    shifted.checked_add(u128::from(digit))
}
