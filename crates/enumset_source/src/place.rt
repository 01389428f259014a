//! A place in a text.

ghost use Rattle.std.specs.Prelude.{◌≡◌};
ghost use Rattle.enumset_source.specs.Sources.{place_after};

use std::fmt;

/// A place in a text: the line, and the column in that line, both counted from 1. A line feed ends a line. Each Unicode
/// scalar value is one column, also a tab.
#[derive(Clone, Copy, Debug)]
pub struct Place {
    pub line: u32,
    pub column: u32,
}

impl fmt::Display for Place {
    ghost use Rattle.std.specs.Prelude.{Some};
    ghost use Rattle.enumset_source.specs.Sources.{place_text};

    ghost output = { λ place. Some (place_text place) };

    fn fmt<W: fmt::Write>(&self, f: &mut fmt::Formatter<W>) -> fmt::Result {
        write!(f, "line {}, column {}", self.line, self.column)
    }
}

impl Place {
    /// The beginning of a text.
    pub const BEGIN: Place = Place { line: 1, column: 1 };

    /// The place after this character, which is at `self`.
    pub fn after(self, character: char) -> Place
        ensures { result ≡ place_after self character }
    {
        let (line, column) = match character {
            '\n' => (self.line.saturating_add(1), 1),
            _ => (self.line, self.column.saturating_add(1)),
        };
        Place { line, column }
    }
}
