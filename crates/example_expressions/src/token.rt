//! The tokens of a line.

ghost use Rattle.std.specs.Prelude.{◌≡◌, ◌⊎◌, Ok, Err, IfOk, IfErr, OnOk};
ghost use Rattle.std.specs.Str.{chars};
ghost use Rattle.example_expressions.specs.Faults.{fault_at};
ghost use Rattle.example_expressions.specs.Tokens.{begun, digit, kind_at, with_digit, with_character, tokens_of};

use crate::fault::{Fault, Reason};
use crate::kind::Kind;
use std::alloc::Global;

/// A token.
#[derive(Clone, Copy, Debug)]
pub struct Token {
    pub kind: Kind,
    /// The column of its first character, counted from 1.
    pub column: usize,
    /// The value of a number, and 0 for a token of another kind.
    pub number: i64,
}

/// The tokens of a line, or its first fault. Spaces and tabs may separate tokens.
pub fn tokens(alloc: Global, line: &str) -> Result<Vec<Token>, Fault>
    ensures tokens { IfOk result (λ tokens. tokens_of (chars line.now) ≡ Ok tokens.items) }
    ensures fault { IfErr result (λ fault. (fault.reason ≡ Reason.OutOfMemory)
        ⊎ (tokens_of (chars line.now) ≡ Err fault)) }
{
    let mut tokens: Vec<Token> = Vec::new(alloc);
    let mut was_digit = false;
    for (index, character) in line.chars().enumerate() {
        read(&mut tokens, was_digit, index + 1, character)?;
        was_digit = character.is_ascii_digit();
    }
    Ok(tokens)
}

/// Reads a character at a column, after a digit or not.
fn read(
    tokens: &mut Vec<Token>,
    after_digit: bool,
    column: usize,
    character: char,
) -> Result<(), Fault>
    ensures read { OnOk result (with_character after_digit tokens.old.items column character
        ≡ Ok tokens.new.items) }
    ensures fault { IfErr result (λ fault. (fault ≡ fault_at column Reason.OutOfMemory)
        ⊎ (with_character after_digit tokens.old.items column character ≡ Err fault)) }
{
    if after_digit && character.is_ascii_digit() {
        if let Some(last) = tokens.last_mut() {
            return add_digit(last, digit_of(character));
        }
    }
    begin(tokens, column, character)
}

/// Begins a token with a character that does not continue a number.
fn begin(tokens: &mut Vec<Token>, column: usize, character: char) -> Result<(), Fault>
    ensures read { OnOk result (begun (kind_at character) tokens.old.items column character
        ≡ Ok tokens.new.items) }
    ensures fault { IfErr result (λ fault. (fault ≡ fault_at column Reason.OutOfMemory)
        ⊎ (begun (kind_at character) tokens.old.items column character ≡ Err fault)) }
{
    match kind_of(character) {
        Some(kind) => {
            let token = Token {
                kind,
                column,
                number: digit_of(character),
            };
            let pushed = tokens.push(token);
            pushed.map_err(|_| Reason::OutOfMemory.at(column))
        }
        None if matches!(character, ' ' | '\t') => Ok(()),
        None => Err(Reason::NoToken(character).at(column)),
    }
}

/// Adds a digit to a number.
fn add_digit(token: &mut Token, digit: i64) -> Result<(), Fault>
    ensures read { OnOk result (with_digit token.old digit ≡ Ok token.new) }
    ensures fault { IfErr result (λ fault. with_digit token.old digit ≡ Err fault) }
{
    let tens = token.number.checked_mul(10);
    let number = tens.and_then(|tens| tens.checked_add(digit));
    token.number = number.ok_or(Reason::LargeNumber.at(token.column))?;
    Ok(())
}

/// The value of a digit, and 0 for another character.
fn digit_of(character: char) -> i64
    ensures { result ≡ digit character }
{
    match character.to_digit(10) {
        Some(digit) => i64::from(digit),
        None => 0,
    }
}

/// The kind of the token that a character begins.
fn kind_of(character: char) -> Option<Kind>
    ensures { result ≡ kind_at character }
{
    match character {
        '0'..='9' => Some(Kind::Number),
        '(' => Some(Kind::Open),
        ')' => Some(Kind::Close),
        '+' => Some(Kind::Plus),
        '-' => Some(Kind::Minus),
        '*' => Some(Kind::Times),
        '/' => Some(Kind::Divide),
        _ => None,
    }
}
