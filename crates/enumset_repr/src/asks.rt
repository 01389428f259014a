//! A count of asks that takes no bytes.

ghost use Rattle.std.specs.Prelude.{◌≡◌, ℕ, ◌+◌};

use std::fmt::{Debug, Error, Formatter, Write};
use std::marker::{Model, PhantomData};

/// A number of asks, which are counted reads of a word.
///
/// A value takes no bytes at run time, and has no upper limit. Contracts see it as a number. Iterators over words keep
/// one to count what they read.
#[derive(Drop)]
pub struct Asks {
    marker: PhantomData<()>,
    pub ghost count: { ℕ },
}

impl Model for Asks {
    ghost use Rattle.std.specs.Prelude.{ℕ};
    ghost use base.Fml.{ftrue};

    ghost Value = { ℕ };

    ghost view = { λ a. a.count };

    ghost also_owns = { λ _. ftrue };
}

impl Asks {
    /// Returns a count of `n` asks. `n` is a ghost argument, which the caller's proof gives: at run time a count has no
    /// bytes. The other calls of `Asks` make their counts with this one.
    pub fn counted() -> Asks
        ghost n: { ℕ }
        ensures { result ≡ n }
    {
        Asks {
            marker: PhantomData,
        }
    }

    /// Returns a count of `n` asks. Unlike in `counted`, `n` may depend on the count `other`.
    fn counted_from(other: &Asks) -> Asks
        ghost n: { ℕ }
        ensures { result ≡ n }
    {
        Asks::counted()
    }

    /// Returns a count of 0 asks.
    pub fn new() -> Asks
        ensures { result ≡ 0 }
    {
        Asks::counted()
    }

    /// Adds one ask.
    pub fn raise(&mut self)
        ensures { self.new ≡ self.old + 1 }
    {
        let more = Asks::counted_from(self);
        *self = more;
    }

    /// Returns the same count.
    pub fn same(&self) -> Asks
        ensures { result ≡ self.now }
    {
        Asks::counted_from(self)
    }
}

impl Debug for Asks {
    fn fmt<W: Write>(&self, f: &mut Formatter<W>) -> Result<(), Error> {
        f.write_str("Asks")
    }
}
