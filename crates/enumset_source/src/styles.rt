//! The styles in which `serde` spells the names of variants.

ghost use Rattle.std.specs.Prelude.{◌≡◌, false, IsUtf8, IfOk, IfSome, IfNone, string_bytes};
ghost use Rattle.enumset_source.specs.OptionValues.{is_among};
ghost use Rattle.enumset_source.specs.Styles.{style_name, style_names, separator, letter, styled};

use std::alloc::{AllocError, Global};

/// A value of `rename_all`, which spells the name of a variant, such as `ReadOnly`.
#[derive(Clone, Copy)]
pub enum Style {
    /// `readonly`.
    Lower,
    /// `READONLY`.
    Upper,
    /// `ReadOnly`.
    Pascal,
    /// `readOnly`.
    Camel,
    /// `read_only`.
    Snake,
    /// `READ_ONLY`.
    ScreamingSnake,
    /// `read-only`.
    Kebab,
    /// `READ-ONLY`.
    ScreamingKebab,
}

/// The style with this name.
pub fn style_of(name: &str) -> Option<Style>
    ensures read { IfSome result (λ read. style_name read ≡ name.now) }
    ensures none { IfNone result (is_among name.now style_names ≡ false) }
{
    match name {
        "lowercase" => Some(Style::Lower),
        "UPPERCASE" => Some(Style::Upper),
        "PascalCase" => Some(Style::Pascal),
        "camelCase" => Some(Style::Camel),
        "snake_case" => Some(Style::Snake),
        "SCREAMING_SNAKE_CASE" => Some(Style::ScreamingSnake),
        "kebab-case" => Some(Style::Kebab),
        "SCREAMING-KEBAB-CASE" => Some(Style::ScreamingKebab),
        _ => None,
    }
}

/// The name of a variant in a style.
pub fn styled(alloc: Global, style: Style, name: &str) -> Result<String, AllocError>
    ensures { IfOk result (λ text. IsUtf8 (styled style name.now) → string_bytes text ≡ styled style name.now) }
{
    let spelled = spelled(alloc, style, name.as_bytes())?;
    String::from_utf8_lossy(alloc, &spelled)
}

/// The bytes of a name in a style.
fn spelled(alloc: Global, style: Style, name: &[u8]) -> Result<Vec<u8>, AllocError>
    ensures { IfOk result (λ bytes. bytes.items ≡ styled style name.now) }
{
    let mut bytes = Vec::new(alloc);
    for i in 0..name.len() {
        if let Some(separator) = separator(style, i, name[i]) {
            bytes.push(separator)?;
        }
        bytes.push(letter(style, i, name[i]))?;
    }
    Ok(bytes)
}

/// What is written before the byte at this place in a name, if it is a capital that begins a word after others.
fn separator(style: Style, place: usize, byte: u8) -> Option<u8>
    ensures { result ≡ separator style place byte }
{
    let begins_word = place > 0 && byte.is_ascii_uppercase();
    match style {
        Style::Snake | Style::ScreamingSnake if begins_word => Some(b'_'),
        Style::Kebab | Style::ScreamingKebab if begins_word => Some(b'-'),
        _ => None,
    }
}

/// What the byte at this place in a name becomes.
fn letter(style: Style, place: usize, byte: u8) -> u8
    ensures { result ≡ letter style place byte }
{
    match style {
        Style::Kebab | Style::ScreamingKebab if byte == b'_' => b'-',
        Style::Lower | Style::Snake | Style::Kebab => byte.to_ascii_lowercase(),
        Style::Upper | Style::ScreamingSnake | Style::ScreamingKebab => byte.to_ascii_uppercase(),
        Style::Camel if place == 0 => byte.to_ascii_lowercase(),
        Style::Pascal | Style::Camel => byte,
    }
}
