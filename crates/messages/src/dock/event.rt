// The event of a dock message as a byte.
ghost use Rattle.std.specs.Prelude.{◌≡◌, ◌++◌, Some, codes, decimal};
ghost use Rattle.messages.specs.Docks.{EventRead, event_byte};

use crate::dock::DockEvent;
use std::error::Error;
use std::fmt;

// A byte that stands for no event.
#[derive(Clone, Copy, Debug, PartialEq, Eq, Hash)]
pub struct UnknownEvent(pub u8);

impl TryFrom<u8> for DockEvent {
    type Error = UnknownEvent;

    ghost try_from_gives = { EventRead };

    fn try_from(byte: u8) -> Result<DockEvent, UnknownEvent> {
        match byte {
            1 => Ok(DockEvent::Hire),
            2 => Ok(DockEvent::Return),
            3 => Ok(DockEvent::Fault),
            4 => Ok(DockEvent::Report),
            _ => Err(UnknownEvent(byte)),
        }
    }
}

impl From<DockEvent> for u8 {
    ghost from_gives = { λ event byte. byte ≡ event_byte event };

    fn from(event: DockEvent) -> u8 {
        event as u8
    }
}

impl fmt::Display for UnknownEvent {
    ghost output = { λ unknown. Some (decimal unknown.0 ++ codes " is no event") };

    fn fmt<W: fmt::Write>(&self, f: &mut fmt::Formatter<W>) -> fmt::Result {
        write!(f, "{} is no event", self.0)
    }
}

impl Error for UnknownEvent {}
