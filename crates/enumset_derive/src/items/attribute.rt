//! Attributes, and the comments next to them.

ghost use Rattle.std.specs.Prelude.{◌≡◌};
ghost use Rattle.std.specs.List.{list_any};
ghost use Rattle.enumset_source.specs.Sources.{has_text};

use super::{bracket_length, skip, split};
use crate::fault::{Fault, Reading};
use crate::report::Report;
use enumset_source::{Kind, Token};
use std::alloc::{AllocError, Global};

/// An attribute, or a comment next to attributes.
#[derive(Drop)]
pub struct Attribute<'a, 'b> {
    /// As it is written.
    pub tokens: &'b [Token<'a>],
    /// The name of the attribute, or the comment.
    pub name: Token<'a>,
    /// The tokens after the name up to the `]`, without comments.
    pub words: Vec<Token<'a>>,
}

impl<'a, 'b> Attribute<'a, 'b> {
    /// The attributes and comments at the beginning, and the tokens after them.
    pub fn before(
        alloc: Global,
        tokens: &'b [Token<'a>],
    ) -> Result<(Vec<Attribute<'a, 'b>>, &'b [Token<'a>]), AllocError> {
        let mut attributes = Vec::new(alloc);
        let mut rest = tokens;
        // Each iteration takes at least one token. The bound shows that the loop ends.
        for _ in 0..tokens.len() {
            let length = attribute_length(rest);
            if length == 0 {
                break;
            }
            let own = rest.get(..length).unwrap_or(rest);
            attributes.extend(Attribute::of(alloc, own)?)?;
            rest = skip(rest, length);
        }
        Ok((attributes, rest))
    }

    /// The attribute or comment of these tokens, if there are any.
    fn of(alloc: Global, tokens: &'b [Token<'a>]) -> Result<Option<Attribute<'a, 'b>>, AllocError> {
        let Some(first) = tokens.first() else {
            return Ok(None);
        };
        let words = tokens.iter().filter(|token| !token.is_comment());
        let mut words = words.skip(2).copied();
        Ok(Some(Attribute {
            tokens,
            name: words.next().unwrap_or(*first),
            words: words.collect(alloc)?,
        }))
    }

    /// Whether it is an attribute with this name.
    pub fn is(&self, name: &str) -> bool
        ensures { result ≡ has_text self.now.name name.now }
    {
        self.name.is(name)
    }

    /// Whether one of its words is this one.
    pub fn has(&self, word: &str) -> bool
        ensures { result ≡ list_any (λ w. has_text w word.now) self.now.words.items }
    {
        self.words.iter().any(|own| own.is(word))
    }

    /// Whether exactly these tokens follow its name.
    pub fn is_written(&self, tokens: &[&str]) -> bool {
        self.words
            .iter()
            .map(|word| word.text)
            .eq(tokens.iter().copied())
    }

    /// Whether it contains this name before an open bracket.
    pub fn calls(&self, name: &str) -> bool {
        let mut pairs = self.words.array_windows::<2>();
        pairs.any(|[word, next]| word.is(name) && next.is_punct("([{"))
    }

    /// Its arguments, with the bracket that closes them, their depth, and the fault of what follows them. Without
    /// brackets the words after the name are the arguments.
    fn arguments(&self) -> (&[Token<'a>], u32, Option<Fault>) {
        match self.words.as_slice() {
            [open, rest @ ..] if open.is_punct("([{") => {
                let (inside, after) = split(rest, bracket_length(0, open, rest));
                (inside, open.depth, fault_before_end(after, "`]`"))
            }
            [next, ..] if next.is_ident() => {
                (
                    &self.words,
                    next.depth,
                    fault_before_end(&self.words, "`(`"),
                )
            }
            words => (&[], 0, fault_before_end(words, "`(`")),
        }
    }
}

/// The arguments of the attributes with this name, each with the punctuation after it. Faults are reported.
pub fn arguments_of<'s, 'a>(
    report: &mut Report,
    attributes: &'s [Attribute<'a, '_>],
    name: &str,
) -> Reading<Vec<&'s [Token<'a>]>> {
    let mut arguments = Vec::new(report.alloc);
    for attribute in attributes {
        if attribute.is(name) {
            let (inside, depth, fault) = attribute.arguments();
            let is_comma = |word: &Token| word.is(",") && word.depth == depth;
            let split = inside.split_inclusive(is_comma);
            arguments.extend(split.filter(is_there))?;
            report.faults.extend(fault)?;
        }
    }
    Ok(arguments)
}

/// The fault that something stands before the `]` of an attribute, where this is expected.
fn fault_before_end(words: &[Token], expected: &'static str) -> Option<Fault> {
    match words {
        [next, ..] if !next.is("]") => Some(Fault::unexpected(next, expected)),
        _ => None,
    }
}

/// Whether an argument is more than the bracket that closes the others.
fn is_there(argument: &&[Token]) -> bool {
    !matches!(argument, [end] if end.is_punct(")]}"))
}

/// The number of tokens in the attribute or comment at the beginning.
fn attribute_length(tokens: &[Token]) -> usize {
    match tokens {
        [comment, ..] if matches!(comment.kind, Kind::Comment | Kind::OuterDoc) => 1,
        [hash, open, rest @ ..] if hash.is("#") && open.is("[") => bracket_length(2, open, rest),
        _ => 0,
    }
}
