//! A door with a magnetic lock.

ghost use Rattle.std.specs.Prelude.{◌≡◌, ◌↔◌, IsTrue, IsOk, IfErr, OnErr};
ghost use Rattle.enumset_repr.specs.BitSet as set;
ghost use Rattle.example_door.specs.Machines.{allows, after, IsRefusal};
ghost use Rattle.example_door.specs.Events.{row, IsSafe};

use crate::event::Event;
use crate::flag::Flag;
use crate::machine::Refusal;
use enumset_sets::EnumSet;

/// A door. It is never open and locked, and never locked or alarmed without power.
#[derive(Clone, Copy, Debug)]
pub struct Door {
    pub flags: EnumSet<Flag>,
    ghost safe: { IsSafe flags },
}

impl Door {
    /// A closed door without power.
    pub fn new() -> Door
        ensures { result.flags ≡ set.empty }
    {
        Door {
            flags: EnumSet::new(),
        }
    }

    /// Lets an event happen. What the event asks may be refused, and then the door is as it was.
    pub fn take(&mut self, event: Event) -> Result<(), Refusal>
        ensures taken { IsOk result ↔ IsTrue (allows (row event) self.old.flags) }
        ensures after { self.new.flags ≡ after (row event) self.old.flags }
        ensures refused { IfErr result (IsRefusal (row event) self.old.flags) }
        ensures unchanged { OnErr result (self.new ≡ self.old) }
    {
        self.flags = event.transition().step(self.flags)?;
        Ok(())
    }
}
