//! The digits of numbers, as they are written.
#![tactic(auto, using(crate::proofs::DigitsWritten::digit_laws))]

ghost use Rattle.std.specs.Prelude.{◌≡◌, ◌+◌, ◌/◌, ◌%◌, ◌<◌, ◌≤◌, ◌∷◌, [], ◌++◌, decimal, take};
ghost use Rattle.std.specs.Prelude.{length, string_bytes, IsAscii, OnOk};

use std::alloc::AllocError;

/// The two digits of each number below 100.
static PAIRS: [u8; 200] = *b"\
    0001020304050607080910111213141516171819202122232425262728293031323334353637383940414243444546474849\
    5051525354555657585960616263646566676869707172737475767778798081828384858687888990919293949596979899";

/// Returns the string of ASCII bytes. That the bytes are UTF-8 is proved, and not tested at run time: a test would add
/// a third to a half to the time of a number.
#[inline(always)]
pub(super) fn ascii_text(bytes: Vec<u8>) -> String
    requires { IsAscii bytes.items }
    ensures { string_bytes result ≡ bytes.items }
{
    unsafe { String::from_utf8_unchecked(bytes) }
}

/// Appends a number's digits, after making room for twenty. There is no loop over the digits: in a loop, each division
/// would wait for the one before it.
#[inline(always)]
pub(super) fn push_digits(bytes: &mut Vec<u8>, number: u64) -> Result<(), AllocError>
    ensures { OnOk result (bytes.new.items ≡ bytes.old.items ++ decimal number) }
{
    let begin = bytes.len();
    bytes.extend_from_slice(&[b'0'; 20])?;
    let row = bytes.as_mut_slice();
    if number < 1000000000000 {
        let end = put_twelve(row, begin, number);
        bytes.truncate(end);
        return Ok(());
    }
    let next = put_twelve(row, begin, number / 100000000);
    put_four(row, next, number / 10000 % 10000);
    put_four(row, next + 4, number % 10000);
    bytes.truncate(next + 8);
    Ok(())
}

/// Writes the digits of a number below 10^12 to a row, from the index `at` on, and returns the index after them.
#[inline(always)]
fn put_twelve(row: &mut [u8], at: usize, number: u64) -> usize
    requires small { number < 1000000000000 }
    requires room { at + 12 ≤ length row.old }
    ensures end { result ≤ at + 12 }
    ensures written { take result row.new ≡ take at row.old ++ decimal number }
{
    if number < 10000 {
        return put_short(row, at, number);
    }
    if number < 100000000 {
        let next = put_short(row, at, number / 10000);
        put_four(row, next, number % 10000);
        return next + 4;
    }
    let next = put_short(row, at, number / 100000000);
    put_four(row, next, number / 10000 % 10000);
    put_four(row, next + 4, number % 10000);
    next + 8
}

/// Writes the digits of a number below 10,000 to a row, from the index `at` on, and returns the index after them.
#[inline(always)]
fn put_short(row: &mut [u8], at: usize, number: u64) -> usize
    requires small { number < 10000 }
    requires room { at + 4 ≤ length row.old }
    ensures end { result ≤ at + 4 }
    ensures written { take result row.new ≡ take at row.old ++ decimal number }
{
    if number < 10 {
        row[at] = b'0' + number as u8;
        return at + 1;
    }
    if number < 100 {
        put_pair(row, at, number);
        return at + 2;
    }
    if number < 1000 {
        row[at] = b'0' + (number / 100) as u8;
        put_pair(row, at + 1, number % 100);
        return at + 3;
    }
    put_four(row, at, number);
    at + 4
}

/// Writes a number below 10,000 as four digits to a row, from the index `at` on.
#[inline(always)]
fn put_four(row: &mut [u8], at: usize, number: u64)
    requires small { number < 10000 }
    requires room { at + 4 ≤ length row.old }
    ensures { take (at + 4) row.new ≡ take at row.old ++ ((48 + number / 100 / 10) ∷ (48 + number / 100 % 10)
        ∷ (48 + number % 100 / 10) ∷ (48 + number % 100 % 10) ∷ []) }
{
    put_pair(row, at, number / 100);
    put_pair(row, at + 2, number % 100);
}

/// Writes a number below 100 as two digits to a row, from the index `at` on.
#[inline(always)]
fn put_pair(row: &mut [u8], at: usize, pair: u64)
    requires small { pair < 100 }
    requires room { at + 2 ≤ length row.old }
    ensures { take (at + 2) row.new ≡ take at row.old ++ ((48 + pair / 10) ∷ (48 + pair % 10) ∷ []) }
{
    let place = pair as usize * 2;
    row[at] = PAIRS[place];
    row[at + 1] = PAIRS[place + 1];
}
