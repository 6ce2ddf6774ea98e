// The dock message as a kind of message.
ghost use Rattle.messages.specs.Docks.{dock_form, dock_reading};
ghost use Rattle.messages.specs.DocksLemmas.{dock_bytes, dock_eight, dock_only, dock_reads};

use crate::dock::{DockEvent, DockMessage};
use crate::message::Message;

impl Message for DockMessage {
    ghost form = { dock_form };

    ghost reading = { dock_reading };

    ghost eight = { dock_eight };

    ghost bytes = { dock_bytes };

    ghost reads = { dock_reads };

    ghost only = { dock_only };

    fn read(bytes: &[u8; 8]) -> Option<DockMessage> {
        if bytes[1] != 0 {
            return None;
        }
        let event = DockEvent::try_from(bytes[0]).ok()?;
        let dock = u16::from_le_bytes([bytes[2], bytes[3]]);
        let bicycle = u32::from_le_bytes([bytes[4], bytes[5], bytes[6], bytes[7]]);
        DockMessage::new(event, dock, bicycle)
    }

    fn to_bytes(&self) -> [u8; 8] {
        let dock = self.dock.to_le_bytes();
        let bicycle = self.bicycle.to_le_bytes();
        [
            u8::from(self.event),
            0,
            dock[0],
            dock[1],
            bicycle[0],
            bicycle[1],
            bicycle[2],
            bicycle[3],
        ]
    }
}
