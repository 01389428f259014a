//! Strings that are whole numbers, written and read digit by digit, without a tree of values.

ghost use Rattle.std.specs.Prelude.{◌≡◌, ◌<◌, ◌+◌, ◌^◌, ◌++◌, ℕ, List, true, decimal, IfOk, IfSome, Some, IsSome};
ghost use Rattle.std.specs.Prelude.{is_some, string_bytes};
ghost use Rattle.std.specs.Char.{is_ascii_digit};
ghost use Rattle.std.specs.Option.{IsSomeAnd};
ghost use Rattle.serde_json.specs.Read.{read};
ghost use Rattle.enumset.specs.Json.{number_value};
ghost use Rattle.enumset.specs.JsonPlain.{Begins, IsPlainNumber};

use super::digits::{ascii_text, push_digits};
use super::scan::{are_spaces, split_spaces};
use std::alloc::{AllocError, Global};

/// Returns the digits of a number as a string.
pub(super) fn write_plain_number(alloc: Global, number: u64) -> Result<String, AllocError>
    ensures text { IfOk result (λ text. string_bytes text ≡ decimal number) }
    ensures reads { IfOk result (λ text. read (string_bytes text) ≡ Some (number_value number)) }
{
    let mut bytes = Vec::with_capacity(alloc, 20)?;
    push_digits(&mut bytes, number)?;
    Ok(ascii_text(bytes))
}

/// Returns the whole number below 2^64 that a string is, with spaces at its ends, or `None` for any other string.
pub(super) fn read_plain_number(text: &str) -> Option<u64>
    ensures value { IfSome result (λ number. read text.now ≡ Some (number_value number)) }
    ensures plain { IsPlainNumber text.now → IsSome result }
{
    let (_, rest) = split_spaces(text.as_bytes());
    let (number, end) = split_number(rest)?;
    are_spaces(end).then_some(number)
}

/// Returns the whole number whose digits come first, and what follows them, or `None` if no digit comes first or the
/// number is not below 2^64.
#[inline(always)]
pub(super) fn split_number(bytes: &[u8]) -> Option<(u64, &[u8])>
    ensures below { IfSome result (λ parts. parts.0 < 2 ^ 64) }
    ensures whole { IfSome result (λ parts. bytes.now ≡ decimal parts.0 ++ parts.1.now) }
    ensures found { (n : ℕ) → (rest : List ℕ) → n < 2 ^ 64 → ¬ Begins (λ x. is_ascii_digit x ≡ true) rest
        → bytes.now ≡ decimal n ++ rest → IsSomeAnd result (λ parts. (parts.0 ≡ n) × (parts.1.now ≡ rest)) }
{
    let (first, rest) = bytes.split_first()?;
    let mut number = digit_of(*first)?;
    if number == 0 {
        return Some((0, rest));
    }
    // Reading two digits per iteration, with one test, is faster than one by one. Nineteen digits always fit: only a
    // twentieth can overflow.
    let count = rest.len().min(18);
    let mut at = 0;
    while at + 2 <= count {
        let (ten, one) = (rest[at].wrapping_sub(b'0'), rest[at + 1].wrapping_sub(b'0'));
        if ten.max(one) > 9 {
            break;
        }
        number = number * 100 + (ten * 10 + one) as u64;
        at += 2;
    }
    let (_, left) = rest.split_at(at);
    if let Some((last, end)) = left.split_first()
        && let Some(digit) = digit_of(*last)
    {
        return Some((number.checked_mul(10)?.checked_add(digit)?, end));
    }
    Some((number, left))
}

/// Returns the number of the digit that a byte is, or `None` if the byte is no ASCII digit.
#[inline(always)]
fn digit_of(byte: u8) -> Option<u64>
    ensures below { IfSome result (λ digit. digit < 10) }
    ensures byte { IfSome result (λ digit. byte ≡ 48 + digit) }
    ensures digit { is_some result ≡ is_ascii_digit byte }
{
    byte.is_ascii_digit()
        .then_some(byte.wrapping_sub(b'0') as u64)
}
