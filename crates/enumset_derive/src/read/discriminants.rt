//! Reads discriminants.

ghost use Rattle.std.specs.Prelude.{◌≡◌, ◌∷◌, [], true, false, IfOk, IsTrue};
ghost use Rattle.enumset_source.specs.Literals.{before_type, number_written};
ghost use Rattle.enumset_source.specs.Numbers.{signed_number};
ghost use Rattle.enumset_source.specs.Sources.{is_number};
ghost use Rattle.enumset_source.specs.declared.tokens.Token.{Token};

use crate::fault::Fault;
use crate::plan::Given;
use enumset_source::{LiteralFault, Number, Token, read_literal};

const NOT_A_NUMBER: &str = "a discriminant must be an integer, such as 10: write the number itself";

const NOT_A_MASK: &str = "a mask must be an integer or `1 << n`: write the number itself";

const TOO_LARGE: &str = "a discriminant must be from -(2^128 - 1) to 2^128 - 1";

/// Reads a discriminant from its tokens. `end` is the punctuation after them. A mask may also be `1 << n`.
pub(super) fn read_discriminant<'a>(
    tokens: &[Token<'a>],
    end: &Token<'a>,
    has_masks: bool,
) -> Result<Given<'a>, Fault>
    ensures plain { IfOk result (λ given. (literal : Token) → tokens.now ≡ literal ∷ [] → IsTrue (is_number literal)
        → given.number ≡ signed_number false (number_written (before_type literal.text.now))) }
    ensures sign { IfOk result (λ given. (minus literal : Token) → tokens.now ≡ minus ∷ literal ∷ []
        → given.number ≡ signed_number true (number_written (before_type literal.text.now))) }
{
    let begin = tokens.first().unwrap_or(end);
    let other = if has_masks { NOT_A_MASK } else { NOT_A_NUMBER };
    let read = match tokens {
        [literal] if literal.is_number() => number_of(false, literal.text),
        [minus, literal] if minus.is("-") && literal.is_number() => number_of(true, literal.text),
        [byte] => byte_of(byte.text).ok_or(other),
        [one, less, next, places] if has_masks && less.is("<") && next.is("<") => {
            shifted(one.text, places.text).ok_or(other)
        }
        _ => Err(other),
    };
    let (literal, number) = read.map_err(|text| Fault::at(begin, text))?;
    Ok(Given {
        place: begin.place,
        literal,
        number,
    })
}

/// What is written of a discriminant if it is a literal, and its number.
type Read<'a> = (Option<&'a str>, Number);

/// A literal after a minus sign, or without one.
fn number_of(has_minus: bool, literal: &str) -> Result<Read<'_>, &'static str>
    ensures { IfOk result (λ read. read.1 ≡ signed_number has_minus (number_written (before_type literal.now))) }
{
    match read_literal(literal) {
        Ok((written, number)) => Ok((Some(written), Number::signed(has_minus, number))),
        Err(LiteralFault::NotAnInteger) => Err(NOT_A_NUMBER),
        Err(LiteralFault::TooLarge) => Err(TOO_LARGE),
    }
}

/// A byte, such as `b'a'`.
fn byte_of(text: &str) -> Option<Read<'_>> {
    match text.as_bytes() {
        [b'b', b'\'', byte, b'\''] => Some((None, Number::Natural(u128::from(*byte)))),
        _ => None,
    }
}

/// A mask `1 << n` of at most 128 bits.
fn shifted<'a>(one: &'a str, places: &'a str) -> Option<Read<'a>> {
    let ((_, 1), (_, places)) = (read_literal(one).ok()?, read_literal(places).ok()?) else {
        return None;
    };
    let mask = 1u128.checked_shl(u32::try_from(places).ok()?)?;
    Some((None, Number::Natural(mask)))
}
