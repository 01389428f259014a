//! The tokens of a source, each with the depth of its brackets.

ghost use Rattle.std.specs.Prelude.{◌≡◌, ◌++◌, IfOk};
ghost use Rattle.enumset_source.specs.Sources.{written, has_text, is_number};

mod scan;

use crate::place::Place;
use crate::token_error::TokenError;
use scan::scan;
use std::alloc::Global;
use std::fmt;

/// What a token is.
#[derive(Clone, Copy)]
pub enum Kind {
    /// A comment that is not a doc comment.
    Comment,
    /// A comment that documents what follows it, such as `/// ..`.
    OuterDoc,
    /// A comment that documents what it is in, such as `//! ..`.
    InnerDoc,
    /// An identifier or a keyword.
    Ident,
    /// A number, a string, a character or a byte.
    Literal,
    Lifetime,
    /// Any other character, or `::`.
    Punct,
    /// The end of the source.
    End,
}

impl fmt::Display for Kind {
    fn fmt<W: fmt::Write>(&self, f: &mut fmt::Formatter<W>) -> fmt::Result {
        f.write_str(match self {
            Kind::Comment | Kind::OuterDoc | Kind::InnerDoc => "a comment",
            Kind::Ident => "an identifier",
            Kind::Literal => "a literal",
            Kind::Lifetime => "a lifetime",
            Kind::Punct => "punctuation",
            Kind::End => "the end of the source",
        })
    }
}

/// A token of a source, or a comment.
#[derive(Clone, Copy)]
pub struct Token<'a> {
    pub kind: Kind,
    /// The white space before it.
    pub space: &'a str,
    /// Its text in the source.
    pub text: &'a str,
    /// Where it begins.
    pub place: Place,
    /// The number of brackets that it is in, including itself if it is an open bracket.
    pub depth: u32,
}

impl<'a> Token<'a> {
    pub fn is_comment(&self) -> bool {
        matches!(self.kind, Kind::Comment | Kind::OuterDoc | Kind::InnerDoc)
    }

    /// Whether a line feed is between this token and the one before.
    pub fn begins_line(&self) -> bool {
        self.space.contains('\n')
    }

    /// Whether an empty line is before it.
    pub fn is_after_empty_line(&self) -> bool {
        self.space.matches('\n').nth(1).is_some()
    }

    /// Whether the token has this text.
    pub fn is(&self, text: &str) -> bool
        ensures { result ≡ has_text self.now text.now }
    {
        self.text == text
    }

    /// Whether the token is one of these punctuation characters. `:` also means `::`.
    pub fn is_punct(&self, characters: &str) -> bool {
        let is_one = |character| characters.contains(character);
        matches!(self.kind, Kind::Punct) && self.text.starts_with(is_one)
    }

    /// Whether the token is an identifier or a keyword.
    pub fn is_ident(&self) -> bool {
        matches!(self.kind, Kind::Ident)
    }

    /// Whether the token is a numeric literal.
    pub fn is_number(&self) -> bool
        ensures { result ≡ is_number self.now }
    {
        match (self.kind, self.text.as_bytes()) {
            (Kind::Literal, [first, ..]) => first.is_ascii_digit(),
            _ => false,
        }
    }

    /// The text between the quotes, if the token is a string literal.
    pub fn unquoted(&self) -> Option<&'a str> {
        let text = self.text.strip_prefix('r').unwrap_or(self.text);
        let text = text.trim_start_matches('#').trim_end_matches('#');
        text.strip_prefix('"')?.strip_suffix('"')
    }
}

/// Tokens as they are in the source, without the space before the first.
#[derive(Clone, Copy)]
pub struct Written<'a, 'b>(pub &'b [Token<'a>]);

impl fmt::Display for Written<'_, '_> {
    fn fmt<W: fmt::Write>(&self, f: &mut fmt::Formatter<W>) -> fmt::Result {
        for (index, token) in self.0.iter().enumerate() {
            if index > 0 {
                f.write_str(token.space)?;
            }
            f.write_str(token.text)?;
        }
        Ok(())
    }
}

const TOO_LONG: &str = "a source may have at most 4294967294 bytes";

/// The tokens of a source, with its end as the last. Together they are the whole source.
#[tactic(auto, using(crate::proofs::Sources::written_append))]
pub fn tokens_of(alloc: Global, source: &str) -> Result<Vec<Token<'_>>, TokenError>
    ensures { IfOk result (λ tokens. written tokens.items ≡ source.now) }
{
    let too_long = TokenError::Fault(Place::BEGIN, TOO_LONG);
    if source.len() >= u32::MAX as usize {
        return Err(too_long);
    }
    // Each token has at least one byte, so this capacity is enough, and the vector does not grow.
    let mut tokens = Vec::with_capacity(alloc, source.len() + 1)?;
    let mut open = Vec::new(alloc);
    let mut end = Place::BEGIN;
    let mut rest = source;
    // Each token but the last has at least one byte. The bound shows that the loop ends: a `while` would need a proof.
    for _ in 0..=source.len() {
        let (token, after) = first_token(rest, end)?;
        let depth = take_bracket(&mut open, &token)?;
        end = token.text.chars().fold(token.place, Place::after);
        tokens.push(Token { depth, ..token })?;
        rest = after;
        if matches!(token.kind, Kind::End) && rest.is_empty() {
            return Ok(tokens);
        }
    }
    Err(too_long)
}

/// The first token of a text, and the text after it. The text begins at this place.
fn first_token(text: &str, begin: Place) -> Result<(Token<'_>, &str), TokenError>
    ensures { IfOk result (λ first. first.0.space.now ++ (first.0.text.now ++ first.1.now) ≡ text.now) }
{
    let onward = text.trim_start_matches(is_space);
    let (space, onward) = split(text, text.len().saturating_sub(onward.len()));
    let place = space.chars().fold(begin, Place::after);
    let (kind, after) = match place {
        Place { line: 1, column: 1 } if is_shebang(onward) => {
            (
                Kind::Comment,
                onward.trim_start_matches(|character| character != '\n'),
            )
        }
        _ => scan(onward).map_err(|text| TokenError::Fault(place, text))?,
    };
    let (text, after) = split(onward, onward.len().saturating_sub(after.len()));
    let token = Token {
        kind,
        space,
        text,
        place,
        depth: 0,
    };
    Ok((token, after))
}

/// Whether a source begins with a line such as `#!/bin/run`, and not with an inner attribute.
fn is_shebang(source: &str) -> bool {
    let rest = source.strip_prefix("#!");
    rest.is_some_and(|rest| !rest.trim_start_matches(is_space).starts_with('['))
}

/// Splits a text after `count` bytes. If that is not between two characters, the first part is the whole text.
fn split(text: &str, count: usize) -> (&str, &str)
    ensures { result.0.now ++ result.1.now ≡ text.now }
{
    text.split_at_checked(count).unwrap_or((text, ""))
}

/// Whether a character is white space in Rust.
fn is_space(character: char) -> bool {
    matches!(
        character,
        ' ' | '\t'..='\r' | '\u{85}' | '\u{200e}' | '\u{200f}' | '\u{2028}' | '\u{2029}'
    )
}

/// Opens or closes a bracket, if the token is one, and returns the depth of the token. `open` has the place of each
/// open bracket and the character that closes it. It is a fault if a bracket does not match, or is open at the end.
fn take_bracket(open: &mut Vec<(char, Place)>, token: &Token) -> Result<u32, TokenError> {
    let unclosed = |begin: Place| TokenError::Fault(begin, "this bracket is not closed");
    let place = token.place;
    match (token.kind, token.text) {
        (Kind::Punct, "(") => open.push((')', place))?,
        (Kind::Punct, "[") => open.push((']', place))?,
        (Kind::Punct, "{") => open.push(('}', place))?,
        (Kind::Punct, ")" | "]" | "}") => match open.pop() {
            Some((end, begin)) if !token.text.starts_with(end) => return Err(unclosed(begin)),
            Some(_) => {}
            None => return Err(TokenError::Fault(place, "this bracket was not opened")),
        },
        (Kind::End, _) => match open.first() {
            Some((_, begin)) => return Err(unclosed(*begin)),
            None => {}
        },
        _ => {}
    }
    Ok(u32::try_from(open.len()).unwrap_or(u32::MAX))
}
