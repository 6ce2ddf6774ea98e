// The records that a station is made of. The plain station of specs/ and the tables of the code hold the same ones.

// The three sizes, fixed at the opening.
#[derive(Clone, Copy, Debug, PartialEq, Eq, Hash)]
pub struct Sizes {
    // 1 to 64
    pub tasks: u8,
    // 1 to 64
    pub exchanges: u8,
    // 1 to 256
    pub blocks: u16,
}

// What kind of item a task took.
#[derive(Clone, Copy, Debug, PartialEq, Eq, Hash)]
pub enum Kind {
    Message,
    Request,
    Reply,
    Alarm,
}

// The item that a task took last; its message stands in the task's tray place.
#[derive(Clone, Copy, Debug, PartialEq, Eq, Hash)]
pub struct TrayItem {
    pub kind: Kind,
    // the item's block, or 65,535 for a message: the number that the call's answer carries, so no Option
    pub number: u16,
    // given by Respond, otherwise 0, as the answer carries it
    pub status: u32,
}

// A task's record. What it holds of an absent task cannot be seen.
#[derive(Clone, Copy, Debug, PartialEq, Eq, Hash)]
pub struct TaskRecord {
    pub priority: u8,
    pub tray: Option<TrayItem>,
}

// What a block carries. A request is unanswered as long as its block carries it.
#[derive(Clone, Copy, Debug, PartialEq, Eq, Hash)]
pub enum Carries {
    Message,
    // the exchange to which the reply is owed
    Request { reply: u8 },
    // the status that Respond gave
    Reply { status: u32 },
    Alarm,
}

// A block's record: what it carries, and the task in whose hand it is, if any.
#[derive(Clone, Copy, Debug, PartialEq, Eq, Hash)]
pub struct BlockRecord {
    pub carries: Carries,
    pub holder: Option<u8>,
}

// Whether an exchange is open.
#[derive(Clone, Copy, Debug, PartialEq, Eq, Hash)]
pub enum ExchangeState {
    Closed,
    Open,
}

// What stands in an exchange's line: blocks with items, or waiting tasks.
#[derive(Clone, Copy, Debug, PartialEq, Eq, Hash)]
pub enum Holds {
    Items,
    Tasks,
}

// A service name and the exchange that it is tied to.
#[derive(Clone, Copy, Debug, PartialEq, Eq, Hash)]
pub struct Binding {
    pub name: [u8; 8],
    pub exchange: u8,
}

// A running alarm.
#[derive(Clone, Copy, Debug, PartialEq, Eq, Hash)]
pub struct AlarmRecord {
    pub block: u8,
    pub exchange: u8,
    // at least 1
    pub ticks: u32,
}
