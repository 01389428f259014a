//! Words in commands and replies.

use std::marker::Model;

/// Words of 64 bits, the lowest first. Contracts see the list of their numbers.
#[derive(Debug, Drop)]
pub struct WordList {
    words: Vec<u64>,
}

impl Model for WordList {
    ghost use Rattle.std.specs.Prelude.{List, ℕ};

    ghost Value = { List ℕ };

    ghost view = { λ list. list.words.items };
}

impl From<Vec<u64>> for WordList {
    ghost use Rattle.std.specs.Prelude.{◌≡◌};

    ghost from_gives = { λ words list. list ≡ words.items };

    fn from(words: Vec<u64>) -> WordList {
        WordList { words }
    }
}

impl WordList {
    ghost use Rattle.std.specs.Prelude.{◌≡◌};

    /// Returns the words as a slice.
    pub fn as_slice(&self) -> &[u64]
        ensures { result.now ≡ self.now }
    {
        self.words.as_slice()
    }
}
