// The dock message in words.
ghost use Rattle.std.specs.Prelude.{Some};
ghost use Rattle.messages.specs.Words.{dock_words, event_word};

use crate::dock::{DockEvent, DockMessage};
use std::fmt;

impl fmt::Display for DockEvent {
    ghost output = { λ event. Some (event_word event) };

    fn fmt<W: fmt::Write>(&self, f: &mut fmt::Formatter<W>) -> fmt::Result {
        f.write_str(match self {
            DockEvent::Hire => "hire",
            DockEvent::Return => "return",
            DockEvent::Fault => "fault",
            DockEvent::Report => "report",
        })
    }
}

impl fmt::Display for DockMessage {
    ghost output = { λ message. Some (dock_words message) };

    fn fmt<W: fmt::Write>(&self, f: &mut fmt::Formatter<W>) -> fmt::Result {
        let event = self.event;
        let dock = self.dock;
        let bicycle = self.bicycle;
        if bicycle == 0 {
            write!(f, "{event} dock {dock} no bicycle")
        } else {
            write!(f, "{event} dock {dock} bicycle {bicycle}")
        }
    }
}
