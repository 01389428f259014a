//! The lines of a text.
ghost use Rattle.std.specs.Prelude.{◌≡◌};
ghost use Rattle.std.specs.Str.Lines.{strip_carriage_return};

use super::parts::split_once;
use std::marker::Model;

/// The remaining lines of a text, each without the line feed that ends it.
#[derive(Drop)]
pub struct Lines<'a> {
    rest: &'a [u8],
}

impl<'a> Model for Lines<'a> {
    ghost use Rattle.std.specs.Prelude.{List, ℕ};
    ghost use Rattle.std.specs.Str.Lines.{lines};

    ghost Value = { List (List ℕ) };

    ghost view = { λ left. lines left.rest.now };
}

impl<'a> Lines<'a> {
    ghost use Rattle.std.specs.Prelude.{◌≤◌, length};
    ghost use Rattle.std.specs.Str.Lines.{lines};

    /// Returns the lines of a text. A text has no more lines than bytes.
    #[tactic(auto, using(crate::proofs::Lines::lines_are_few))]
    pub fn new(text: &'a [u8]) -> Lines<'a>
        ensures lines { result ≡ lines text.now }
        ensures few { length result ≤ length text.now }
    {
        Lines { rest: text }
    }
}

impl<'a> Iterator for Lines<'a> {
    ghost use Rattle.std.specs.Iterator.{YieldsFirstRef, item_count};

    type Item = &'a [u8];

    ghost next_gives = { YieldsFirstRef (λ lines. lines) };

    ghost remaining = { item_count (λ lines. lines) };

    #[tactic(auto, using(crate::proofs::Lines::line_steps))]
    fn next(&mut self) -> Option<&'a [u8]> {
        match split_once(self.rest, b'\n') {
            Some((line, rest)) => {
                self.rest = rest;
                Some(without_carriage_return(line))
            }
            None if self.rest.is_empty() => None,
            None => {
                let line = self.rest;
                self.rest = &[];
                Some(line)
            }
        }
    }
}

/// A line without the carriage return at its end, if there is one.
fn without_carriage_return(line: &[u8]) -> &[u8]
    ensures { result.now ≡ strip_carriage_return line.now }
{
    match line {
        [text @ .., b'\r'] => text,
        _ => line,
    }
}
