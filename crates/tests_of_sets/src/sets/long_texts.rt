//! Texts of many members, and texts that a writer refuses at some piece.

use crate::expect::expect;
use crate::sets::{marks, two_of};
use enumset_mixed::{MixedEnumSet, MixedValue};
use enumset_sets::EnumSet;
use enumset_worked::{Letters, Marks, PairNumber};
use std::fmt::{self, Write};
use std::test::Fail;

// All bits of 128. Two of them have variants.
#[test]
fn texts_of_many_unknown_bits(rt: HostRuntime) -> Result<(), Fail> {
    let (alloc, mut members) = (rt.alloc(), String::from_str(rt.alloc(), "A")?);
    for bit in 1..128 {
        match bit {
            64 => write!(members, " | B")?,
            _ => write!(members, " | [{bit}]")?,
        }
    }
    let all = MixedEnumSet::<PairNumber>::new().full_complement();
    let text = format!(in alloc; "{all} {all:?}")?;
    let wanted = format!(in alloc; "{members} MixedEnumSet({members})")?;
    expect(&rt, "a text", text.as_str(), wanted.as_str());
    Ok(())
}

/// A writer that accepts this many pieces of a text, and refuses the next ones.
#[derive(Drop)]
struct Pieces {
    left: usize,
    refused: usize,
}

impl fmt::Write for Pieces {
    fn write_str(&mut self, _piece: &str) -> fmt::Result {
        if self.left == 0 {
            self.refused = self.refused.saturating_add(1);
            return Err(fmt::Error);
        }
        self.left -= 1;
        Ok(())
    }
}

// Whichever piece is refused, the call returns the error, and writes nothing more.
#[test]
fn a_refused_piece_ends_a_text(rt: HostRuntime) {
    let (set, mixed) = (two_of(Letters::A, Letters::C), marks(13));
    let unknown = MixedValue::<Marks>::Invalid(3);
    let mut is_whole = false;
    for left in 0..100 {
        let mut writer = Pieces { left, refused: 0 };
        let written = write!(
            writer,
            "{set} {set:?} {mixed} {mixed:?} {unknown} {unknown:?}"
        );
        let refused = usize::from(written.is_err());
        expect(&rt, "pieces", (left, writer.refused), (left, refused));
        is_whole = written.is_ok();
    }
    assert!(rt; is_whole);
}
