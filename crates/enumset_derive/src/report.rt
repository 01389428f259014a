//! The report on a source, which is printed to standard error.

use crate::fault::{Fault, Reading};
use enumset_source::{Place, Token, Written};
use std::alloc::Global;
use std::fmt;

/// The report on a source. Standard error shows the faults, or if there are none, the notes.
#[derive(Drop)]
pub struct Report {
    /// What reading and planning allocate with.
    pub alloc: Global,
    pub faults: Vec<Fault>,
    pub notes: Vec<Note>,
}

/// A remark on a place in a source that is not a fault.
#[derive(Drop)]
pub enum Note {
    /// An item that is left out: where it begins, its last line, and what it is.
    Item(Place, u32, &'static str),
    /// Any other remark: its place, and what is printed.
    Other(Place, String),
}

impl Note {
    /// The place that it is about.
    fn place(&self) -> Place {
        match self {
            Note::Item(place, _, _) | Note::Other(place, _) => *place,
        }
    }
}

impl fmt::Display for Note {
    fn fmt<W: fmt::Write>(&self, f: &mut fmt::Formatter<W>) -> fmt::Result {
        match self {
            Note::Item(first, last, what) if *last > first.line => {
                write!(f, "lines {} to {last}: left out: {what}", first.line)
            }
            Note::Item(first, _, what) => write!(f, "line {}: left out: {what}", first.line),
            Note::Other(_, text) => write!(f, "{text}"),
        }
    }
}

impl Report {
    pub fn new(alloc: Global) -> Report {
        Report {
            alloc,
            faults: Vec::new(alloc),
            notes: Vec::new(alloc),
        }
    }

    /// Records a fault, so that reading goes on and finds others.
    pub fn fault(&mut self, fault: Fault) -> Reading {
        Ok(self.faults.push(fault)?)
    }

    /// Records a note.
    pub fn note(&mut self, note: Note) -> Reading {
        Ok(self.notes.push(note)?)
    }

    /// Records a note with this text on a place.
    pub fn remark(&mut self, place: Place, text: &str) -> Reading {
        let text = format!(in self.alloc; "{place}: {text}")?;
        self.note(Note::Other(place, text))
    }

    /// Notes that an attribute is left out.
    pub fn leave_out(&mut self, attribute: &[Token]) -> Reading {
        let place = attribute.first().map_or(Place::BEGIN, |first| first.place);
        let why = match attribute {
            [_, _, name, ..] if name.is("cfg_attr") => {
                ": `cfg_attr` is not supported: put the attribute into the source directly"
            }
            _ => " has no meaning here",
        };
        let text = format!(in self.alloc; "{place}: left out: {}{why}", Written(attribute))?;
        self.note(Note::Other(place, text))
    }

    /// Whether an item is left out.
    pub fn has_items_left_out(&self) -> bool {
        let mut notes = self.notes.iter();
        notes.any(|note| matches!(note, Note::Item(_, _, _)))
    }

    /// Sorts the faults and the notes by their places.
    pub fn sort(&mut self) -> Reading {
        let order = |place: Place| (place.line, place.column);
        self.faults.sort_by_key(|fault| order(fault.place))?;
        self.notes.sort_by_key(|note| order(note.place()))
    }
}
