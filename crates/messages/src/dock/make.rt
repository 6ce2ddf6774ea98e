// Making a dock message from its fields.
ghost use Rattle.messages.specs.Docks.{Made};

use crate::dock::{DockEvent, DockMessage};

impl DockMessage {
    // The message with these fields, or none where the dock is not 1 to 500. Not one with the tariff's: each has its limits in its own type.
    pub fn new(event: DockEvent, dock: u16, bicycle: u32) -> Option<DockMessage>
        ensures { Made event dock bicycle result }
    {
        if !(1..=500).contains(&dock) {
            return None;
        }
        Some(DockMessage {
            event,
            dock,
            bicycle,
        })
    }
}
