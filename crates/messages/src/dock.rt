// The dock message: what a dock controller reports of one dock. Every value has a form: its ranges are in its type.
ghost use Rattle.std.specs.Prelude.{◌^◌, ◌<◌, ◌≤◌};

mod event;
mod kind;
mod make;
mod words;

pub use event::UnknownEvent;

// The number of an event is its byte.
#[derive(Clone, Copy, Debug, PartialEq, Eq, Hash)]
pub enum DockEvent {
    Hire = 1,
    Return = 2,
    Fault = 3,
    Report = 4,
}

#[derive(Clone, Copy, Debug, PartialEq, Eq, Hash)]
pub struct DockMessage {
    pub event: DockEvent,
    // 1 to 500
    pub dock: u16,
    // any number; 0 stands for no bicycle
    pub bicycle: u32,
    ghost first_dock: { 1 ≤ dock },
    ghost last_dock: { dock ≤ 500 },
    ghost bicycle_fits: { bicycle < 2 ^ 32 },
}
