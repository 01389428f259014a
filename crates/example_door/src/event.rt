//! What may happen to a door.

ghost use Rattle.std.specs.Prelude.{◌≡◌, ◌≢◌, IsNone, IfSome};
ghost use Rattle.example_door.specs.Events.{row, name_of};

use crate::flag::Flag;
use crate::machine::Transition;
use enumset_sets::EnumSet;

/// What happens to a door.
#[derive(Clone, Copy, Debug)]
pub enum Event {
    Open,
    Close,
    Lock,
    Unlock,
    /// The door is broken open.
    Force,
    Reset,
    PowerOn,
    PowerOff,
}

impl Event {
    /// The event of a word.
    pub fn named(name: &str) -> Option<Event>
        ensures named { IfSome result (λ event. name_of event ≡ name.now) }
        ensures unknown { IsNone result → (event : Event) → name_of event ≢ name.now }
    {
        match name {
            "open" => Some(Event::Open),
            "close" => Some(Event::Close),
            "lock" => Some(Event::Lock),
            "unlock" => Some(Event::Unlock),
            "force" => Some(Event::Force),
            "reset" => Some(Event::Reset),
            "power-on" => Some(Event::PowerOn),
            "power-off" => Some(Event::PowerOff),
            _ => None,
        }
    }

    /// What the event asks of a door, and what it changes.
    pub fn transition(self) -> Transition
        ensures { result ≡ row self }
    {
        let none = EnumSet::new();
        let open = EnumSet::only(Flag::Open);
        let locked = EnumSet::only(Flag::Locked);
        let alarmed = EnumSet::only(Flag::Alarmed);
        let powered = EnumSet::only(Flag::Powered);
        match self {
            // required, forbidden, clears, sets
            Event::Open => Transition::new(none, open | locked, none, open),
            Event::Close => Transition::new(open, none, open, none),
            Event::Lock => Transition::new(powered, open | locked, none, locked),
            Event::Unlock => Transition::new(locked, none, locked, none),
            Event::Force => Transition::new(locked | powered, none, locked, open | alarmed),
            Event::Reset => Transition::new(alarmed, none, alarmed, none),
            Event::PowerOn => Transition::new(none, powered, none, powered),
            Event::PowerOff => Transition::new(powered, none, locked | alarmed | powered, none),
        }
    }
}
