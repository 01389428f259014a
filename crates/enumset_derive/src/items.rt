//! The items of a source. They are found only by brackets and semicolons.

mod attribute;

pub use attribute::{Attribute, arguments_of};
use enumset_source::{Kind, Token};
use std::alloc::{AllocError, Global};

/// The keywords that can follow `const` in an item that is not a constant.
const QUALIFIED: [&str; 5] = ["fn", "trait", "unsafe", "async", "extern"];

/// An item, an inner attribute or a comment `//!`.
#[derive(Drop)]
pub struct Item<'a, 'b> {
    /// Its attributes and doc comments, and the other comments between them.
    pub attributes: Vec<Attribute<'a, 'b>>,
    /// From its visibility or keyword to its `;` or `}`.
    pub tokens: &'b [Token<'a>],
}

impl<'a, 'b> Item<'a, 'b> {
    /// The item at the beginning, and the tokens after it.
    fn first(
        alloc: Global,
        tokens: &'b [Token<'a>],
    ) -> Result<(Item<'a, 'b>, &'b [Token<'a>]), AllocError> {
        let inner = inner_length(tokens);
        if inner > 0 {
            let attributes = Vec::new(alloc);
            let (tokens, rest) = split(tokens, inner);
            return Ok((Item { attributes, tokens }, rest));
        }
        let (attributes, body) = Attribute::before(alloc, tokens)?;
        let (tokens, rest) = split(body, item_length(body));
        Ok((Item { attributes, tokens }, rest))
    }

    /// Its first token, if it is not empty.
    pub fn begin(&self) -> Option<&'b Token<'a>> {
        let attribute = self.attributes.first();
        let own = attribute.map_or(self.tokens, |attribute| attribute.tokens);
        own.first()
    }

    /// Its visibility, such as `pub` or `pub(crate)`, or nothing, and the tokens after it, beginning with its keyword.
    pub fn visibility(&self) -> (&'b [Token<'a>], &'b [Token<'a>]) {
        split(self.tokens, visibility_length(self.tokens))
    }

    /// Whether it is an inner attribute or a comment `//!`.
    pub fn is_inner(&self) -> bool {
        inner_length(self.tokens) > 0
    }
}

/// The doc comments `//!` at the beginning of a source, and its items. Other comments between items are skipped.
pub fn items_of<'a, 'b>(
    alloc: Global,
    tokens: &'b [Token<'a>],
) -> Result<(Vec<&'a str>, Vec<Item<'a, 'b>>), AllocError> {
    let mut docs = Vec::new(alloc);
    let mut items = Vec::new(alloc);
    let mut rest = after_comments(tokens);
    let mut is_head = true;
    // Each iteration takes at least one token. The bound shows that the loop ends: a `while` would need a proof.
    for _ in tokens {
        if is_at_end(rest) {
            break;
        }
        let (item, after) = Item::first(alloc, rest)?;
        let is_inner = item.is_inner();
        match item.tokens {
            [doc] if is_head && matches!(doc.kind, Kind::InnerDoc) => docs.push(doc.text)?,
            // A `;` between items is not kept: a source may have a million of them.
            [end] if end.is(";") && item.attributes.is_empty() => {}
            _ => items.push(item)?,
        }
        is_head &= is_inner;
        rest = after_comments(after);
    }
    Ok((docs, items))
}

/// The tokens after the comments at the beginning.
fn after_comments<'a, 'b>(tokens: &'b [Token<'a>]) -> &'b [Token<'a>] {
    let comments = tokens
        .iter()
        .take_while(|token| matches!(token.kind, Kind::Comment));
    skip(tokens, comments.count())
}

/// Whether no item follows.
fn is_at_end(tokens: &[Token]) -> bool {
    match tokens {
        [next, ..] => matches!(next.kind, Kind::End),
        [] => true,
    }
}

/// The first `count` tokens, and the tokens after them.
fn split<'a, 'b>(tokens: &'b [Token<'a>], count: usize) -> (&'b [Token<'a>], &'b [Token<'a>]) {
    tokens.split_at(count.min(tokens.len()))
}

/// The tokens after the first `count`.
pub fn skip<'a, 'b>(tokens: &'b [Token<'a>], count: usize) -> &'b [Token<'a>] {
    let (_, rest) = split(tokens, count);
    rest
}

/// The number of tokens up to the end of a bracket. `rest` follows its beginning `open`, and `before` tokens precede
/// it.
pub fn bracket_length(before: usize, open: &Token, rest: &[Token]) -> usize {
    let inside = rest.iter().take_while(|token| token.depth >= open.depth);
    inside.count().saturating_add(before).saturating_add(1)
}

/// The number of tokens in the visibility at the beginning.
fn visibility_length(tokens: &[Token]) -> usize {
    match tokens {
        [public, open, rest @ ..] if public.is("pub") && open.is("(") => {
            bracket_length(2, open, rest)
        }
        [public, ..] if public.is("pub") => 1,
        _ => 0,
    }
}

/// The number of tokens in the inner attribute or comment at the beginning.
fn inner_length(tokens: &[Token]) -> usize {
    match tokens {
        [comment, ..] if matches!(comment.kind, Kind::InnerDoc) => 1,
        [hash, not, open, rest @ ..] if hash.is("#") && not.is("!") && open.is("[") => {
            bracket_length(3, open, rest)
        }
        _ => 0,
    }
}

/// The number of tokens in an item, including the `;` or `}` that ends it.
fn item_length(tokens: &[Token]) -> usize {
    let ends = match skip(tokens, visibility_length(tokens)) {
        [keyword, next, ..] if keyword.is("const") && QUALIFIED.contains(&next.text) => ";}",
        // The value or type of these may contain a `}` before the `;`.
        [keyword, ..] if matches!(keyword.text, "const" | "static" | "type" | "use") => ";",
        _ => ";}",
    };
    let is_in = |token: &&Token| {
        !matches!(token.kind, Kind::End) && !(token.depth == 0 && token.is_punct(ends))
    };
    let inside = tokens.iter().take_while(is_in).count();
    match tokens.get(inside) {
        Some(last) if !matches!(last.kind, Kind::End) => inside.saturating_add(1),
        _ => inside.max(1),
    }
}
