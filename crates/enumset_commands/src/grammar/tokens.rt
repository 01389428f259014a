//! The tokens of a line.
ghost use Rattle.std.specs.Prelude.{◌≡◌, ◌==◌, ◌+◌, ◌-◌, ◌*◌, ◌^◌, ◌<◌, ◌≤◌, false, length, drop, slice_index, Some, IfSome, MatchOption};
ghost use Rattle.std.specs.Option.{SomeIff};
ghost use Rattle.enumset_commands.specs.Lines.{tokens_of};
ghost use Rattle.enumset_commands.specs.Fields.{value, register, bit, word, BeginsWithNone, Takes};

use super::fields::read_value;
use super::parts::split_once;
use std::marker::Model;

/// The remaining tokens of a line.
#[derive(Drop)]
pub struct Tokens<'a> {
    rest: &'a [u8],
}

impl<'a> Model for Tokens<'a> {
    ghost use Rattle.std.specs.Prelude.{List, ℕ};
    ghost use Rattle.enumset_commands.specs.Lines.{tokens_of};

    ghost Value = { List (List ℕ) };

    ghost view = { λ tokens. tokens_of tokens.rest.now };
}

impl<'a> Tokens<'a> {
    /// Returns the tokens of a line, which spaces separate.
    pub fn new(line: &'a [u8]) -> Tokens<'a>
        ensures { result ≡ tokens_of line.now }
    {
        Tokens { rest: line }
    }

    /// The same tokens again.
    pub(super) fn same(&self) -> Tokens<'a>
        ensures { result ≡ self.now }
    {
        Tokens { rest: self.rest }
    }

    /// Whether there are no more tokens. Skips the spaces before the next token.
    #[tactic(auto, using(crate::proofs::Tokens::space_steps))]
    pub(super) fn is_empty(&mut self) -> bool
        ensures same { self.new ≡ self.old }
        ensures empty { result ≡ (length self.old == 0) }
    {
        let rest = without_spaces(self.rest);
        self.rest = rest;
        rest.is_empty()
    }

    /// Removes the next token, and returns the `u64` that it writes. Returns `None` if there is no token, or if it
    /// does not write a `u64`.
    #[inline(always)]
    pub(super) fn next_u64(&mut self) -> Option<u64>
        ensures { Takes word self.old result self.new }
    {
        self.rest = without_spaces(self.rest);
        let (number, end) = first_word(self.rest)?;
        self.rest = &self.rest[end..];
        Some(number)
    }

    /// Removes the next token, and returns the `u8` that it writes, a register or a count, like `next_u64`.
    #[inline(always)]
    #[tactic(auto, using(crate::proofs::Fields::narrow_fields))]
    pub(super) fn next_u8(&mut self) -> Option<u8>
        ensures { Takes register self.old result self.new }
    {
        u8::try_from(self.next_u64()?).ok()
    }

    /// Removes the next token, and returns the `u32` that it writes, a bit or a width, like `next_u64`.
    #[inline(always)]
    #[tactic(auto, using(crate::proofs::Fields::narrow_fields))]
    pub(super) fn next_u32(&mut self) -> Option<u32>
        ensures { Takes bit self.old result self.new }
    {
        u32::try_from(self.next_u64()?).ok()
    }

    /// Removes the next token, and returns the `u128` that it writes, a value, like `next_u64`. Only values are read
    /// with arithmetic on 128 bits, which is slower.
    pub(super) fn next_u128(&mut self) -> Option<u128>
        ensures { Takes value self.old result self.new }
    {
        read_value(self.next()?)
    }
}

/// A text without the spaces at its beginning.
#[inline(always)]
#[tactic(auto, using(crate::proofs::Tokens::space_steps))]
fn without_spaces(text: &[u8]) -> &[u8]
    ensures tokens { tokens_of result.now ≡ tokens_of text.now }
    ensures begins { (slice_index result.now 0 == 32) ≡ false }
{
    let mut rest = text;
    while let [b' ', later @ ..] = rest {
        rest = later;
    }
    rest
}

/// The `u64` that the first token of a text writes, and the index of what follows this token. The text does not begin
/// with a space. Each byte is read once.
#[inline(always)]
#[tactic(auto, using(crate::proofs::Tokens::number_steps))]
fn first_word(text: &[u8]) -> Option<(u64, usize)>
    requires { (slice_index text.now 0 == 32) ≡ false }
    ensures number { MatchOption result
        (BeginsWithNone word (tokens_of text.now))
        (λ found. Takes word (tokens_of text.now) (Some found.0) (tokens_of (drop found.1 text.now))) }
    ensures within { IfSome result (λ found. found.1 ≤ length text.now) }
{
    if text.is_empty() {
        return None;
    }
    let mut number = 0u64;
    for place in 0..text.len() {
        let byte = text[place];
        if !byte.is_ascii_digit() {
            if byte == b' ' {
                return Some((number, place + 1));
            }
            return None;
        }
        number = with_digit(number, byte)?;
    }
    Some((number, text.len()))
}

/// A number with one more digit, if it is still a `u64`.
#[inline(always)]
fn with_digit(number: u64, digit: u8) -> Option<u64>
    requires { 48 ≤ digit }
    ensures { let next = number * 10 + (digit - 48) in SomeIff result (next < 2 ^ 64) next }
{
    number.checked_mul(10)?.checked_add(u64::from(digit - b'0'))
}

impl<'a> Iterator for Tokens<'a> {
    ghost use Rattle.std.specs.Iterator.{YieldsFirstRef, item_count};

    type Item = &'a [u8];

    ghost next_gives = { YieldsFirstRef (λ tokens. tokens) };

    ghost remaining = { item_count (λ tokens. tokens) };

    #[tactic(auto, using(crate::proofs::Tokens::token_steps))]
    fn next(&mut self) -> Option<&'a [u8]> {
        let text = without_spaces(self.rest);
        self.rest = &[];
        match split_once(text, b' ') {
            Some((token, rest)) => {
                self.rest = rest;
                Some(token)
            }
            None => (!text.is_empty()).then_some(text),
        }
    }
}
