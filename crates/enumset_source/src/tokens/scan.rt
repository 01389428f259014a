//! Finds the first token of a text.

use super::Kind;

/// The kind of a token and the text after it, or the fault.
type Scanned<'a> = Result<(Kind, &'a str), &'static str>;

const UNCLOSED: &str = "this quote is not closed";

/// The kind of the first token of a text, and the text after it.
pub(super) fn scan(text: &str) -> Scanned<'_> {
    let mut characters = text.chars();
    let Some(first) = characters.next() else {
        return Ok((Kind::End, ""));
    };
    let rest = characters.as_str();
    let is_in_line = |character| character != '\n';
    Ok(match first {
        '/' if rest.starts_with('/') => (comment_kind(text), rest.trim_start_matches(is_in_line)),
        '/' if rest.starts_with('*') => return block_comment(text),
        '"' => return after_quote(rest),
        '\'' => return after_tick(rest),
        ':' if rest.starts_with(':') => (Kind::Punct, after(rest, 0)),
        _ if first.is_ascii_digit() => (Kind::Literal, rest.trim_start_matches(is_word)),
        _ if is_word(first) => return word(text),
        _ => (Kind::Punct, rest),
    })
}

/// The kind of the comment at the beginning of a text.
fn comment_kind(text: &str) -> Kind {
    match text.as_bytes() {
        [_, _, b'!', ..] => Kind::InnerDoc,
        [_, b'/', b'/', b'/', ..] | [_, b'*', b'*', b'*' | b'/', ..] => Kind::Comment,
        [_, b'/', b'/', ..] | [_, b'*', b'*', ..] => Kind::OuterDoc,
        _ => Kind::Comment,
    }
}

/// The block comment at the beginning of a text. Block comments nest.
fn block_comment(text: &str) -> Scanned<'_> {
    let mut depth = 0usize;
    let mut last = ' ';
    for (at, character) in text.char_indices() {
        (depth, last) = match (last, character) {
            ('/', '*') => (depth.saturating_add(1), ' '),
            ('*', '/') => (depth.saturating_sub(1), ' '),
            _ => (depth, character),
        };
        if depth == 0 && last == ' ' {
            return Ok((comment_kind(text), after(text, at)));
        }
    }
    Err("this comment is not closed")
}

/// The token at the beginning of a text that begins with a word: an identifier, or a literal in quotes.
fn word(text: &str) -> Scanned<'_> {
    let rest = text.trim_start_matches(is_word);
    let word = text.get(..text.len().saturating_sub(rest.len()));
    match (word.unwrap_or(""), rest.chars().next()) {
        ("r" | "br" | "cr", Some('#' | '"')) => after_raw_prefix(rest),
        ("b" | "c", Some('"')) => after_quote(after(rest, 0)),
        ("b" | "c", Some('\'')) => after_tick(after(rest, 0)),
        _ => Ok((Kind::Ident, rest)),
    }
}

/// The string that continues after its `"`.
fn after_quote(text: &str) -> Scanned<'_> {
    let mut is_escaped = false;
    for (at, character) in text.char_indices() {
        if character == '"' && !is_escaped {
            return Ok((Kind::Literal, after(text, at)));
        }
        is_escaped = character == '\\' && !is_escaped;
    }
    Err(UNCLOSED)
}

/// The character or lifetime that continues after its `'`.
fn after_tick(text: &str) -> Scanned<'_> {
    let mut characters = text.chars();
    let first = characters.next().unwrap_or(' ');
    if is_word(first) && !characters.as_str().starts_with('\'') {
        return Ok((Kind::Lifetime, text.trim_start_matches(is_word)));
    }
    if first == '\\' {
        let _ = characters.next();
    }
    let end = characters.as_str().split_once('\'');
    let (_, rest) = end.ok_or(UNCLOSED)?;
    Ok((Kind::Literal, rest))
}

/// The raw string or raw identifier that continues after its `r`, `br` or `cr`.
fn after_raw_prefix(text: &str) -> Scanned<'_> {
    let rest = text.trim_start_matches('#');
    let hashes = text.get(..text.len().saturating_sub(rest.len()));
    if let Some(quoted) = rest.strip_prefix('"') {
        let hashes = hashes.unwrap_or("");
        let mut ends = quoted.match_indices('"');
        let rest = ends.find_map(|(at, _)| after(quoted, at).strip_prefix(hashes));
        return Ok((Kind::Literal, rest.ok_or(UNCLOSED)?));
    }
    Ok((Kind::Ident, rest.trim_start_matches(is_word)))
}

/// The text after the ASCII character at an index.
fn after(text: &str, at: usize) -> &str {
    text.get(at.saturating_add(1)..).unwrap_or("")
}

/// Whether a character may be in a word: a letter, a digit, `_`, or a character outside ASCII except spaces and quotes.
fn is_word(character: char) -> bool {
    let is_space = matches!(character, '\u{80}'..='\u{a0}' | '\u{2000}'..='\u{206f}' | '\u{feff}');
    character == '_' || character.is_ascii_alphanumeric() || !(character.is_ascii() || is_space)
}
