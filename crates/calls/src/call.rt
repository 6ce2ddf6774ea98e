// A call as read: an enum whose cases hold the numbers and, borrowed from the batch, the very bytes of the name and the message.
ghost use Rattle.std.specs.Prelude.{◌≡◌};
ghost use Rattle.calls.specs.Calls.{call_record, fields, kept, zeros};
ghost use Rattle.calls.specs.Codes.{code_number};
ghost use Rattle.calls.specs.Records.{row_record};

use crate::code::CallCode;
use crate::record::{CallRecord, Row};

#[derive(Clone, Copy, Debug, PartialEq, Eq)]
pub enum Call<'a> {
    Start {
        task: u16,
        priority: u16,
    },
    Open {
        exchange: u16,
    },
    Close {
        exchange: u16,
    },
    Register {
        exchange: u16,
        name: &'a [u8; 8],
    },
    Strike {
        name: &'a [u8; 8],
    },
    Post {
        exchange: u16,
        message: &'a [u8; 8],
    },
    Tick,
    Send {
        exchange: u16,
        message: &'a [u8; 8],
    },
    Wait {
        exchange: u16,
    },
    Check {
        exchange: u16,
    },
    Request {
        reply: u16,
        name: &'a [u8; 8],
        message: &'a [u8; 8],
    },
    Respond {
        block: u16,
        status: u32,
    },
    Move {
        block: u16,
        exchange: u16,
    },
    Alarm {
        exchange: u16,
        ticks: u32,
        message: &'a [u8; 8],
    },
    Cancel {
        block: u16,
    },
    Priority {
        priority: u16,
    },
    End,
    Tray,
}

impl<'a> Call<'a> {
    // The call with this code whose fields the row holds; fields that it does not use are not looked at. No `From`: it takes two, the row and the
    // code, which was looked up where the row was judged.
    pub fn from_row(code: CallCode, row: Row<'a>) -> Call<'a>
        ensures { call_record result ≡ kept code (row_record row.entry) }
    {
        match code {
            CallCode::Start => Call::Start {
                task: row.n1,
                priority: row.n2,
            },
            CallCode::Open => Call::Open { exchange: row.n1 },
            CallCode::Close => Call::Close { exchange: row.n1 },
            CallCode::Register => Call::Register {
                exchange: row.n1,
                name: row.name,
            },
            CallCode::Strike => Call::Strike { name: row.name },
            CallCode::Post => Call::Post {
                exchange: row.n1,
                message: row.message,
            },
            CallCode::Tick => Call::Tick,
            CallCode::Send => Call::Send {
                exchange: row.n1,
                message: row.message,
            },
            CallCode::Wait => Call::Wait { exchange: row.n1 },
            CallCode::Check => Call::Check { exchange: row.n1 },
            CallCode::Request => Call::Request {
                reply: row.n1,
                name: row.name,
                message: row.message,
            },
            CallCode::Respond => Call::Respond {
                block: row.n1,
                status: row.n3,
            },
            CallCode::Move => Call::Move {
                block: row.n1,
                exchange: row.n2,
            },
            CallCode::Alarm => Call::Alarm {
                exchange: row.n1,
                ticks: row.n3,
                message: row.message,
            },
            CallCode::Cancel => Call::Cancel { block: row.n1 },
            CallCode::Priority => Call::Priority { priority: row.n1 },
            CallCode::End => Call::End,
            CallCode::Tray => Call::Tray,
        }
    }

    // The record of the call, with zeros in the fields that it does not use. A method, as a call is listed behind a loan.
    pub fn record(&self) -> CallRecord
        ensures { result ≡ call_record self.now }
    {
        match *self {
            Call::Start { task, priority } => numbers(CallCode::Start, task, priority, 0),
            Call::Open { exchange } => numbers(CallCode::Open, exchange, 0, 0),
            Call::Close { exchange } => numbers(CallCode::Close, exchange, 0, 0),
            Call::Register { exchange, name } => CallRecord {
                name: *name,
                ..numbers(CallCode::Register, exchange, 0, 0)
            },
            Call::Strike { name } => CallRecord {
                name: *name,
                ..numbers(CallCode::Strike, 0, 0, 0)
            },
            Call::Post { exchange, message } => CallRecord {
                message: *message,
                ..numbers(CallCode::Post, exchange, 0, 0)
            },
            Call::Tick => numbers(CallCode::Tick, 0, 0, 0),
            Call::Send { exchange, message } => CallRecord {
                message: *message,
                ..numbers(CallCode::Send, exchange, 0, 0)
            },
            Call::Wait { exchange } => numbers(CallCode::Wait, exchange, 0, 0),
            Call::Check { exchange } => numbers(CallCode::Check, exchange, 0, 0),
            Call::Request {
                reply,
                name,
                message,
            } => CallRecord {
                name: *name,
                message: *message,
                ..numbers(CallCode::Request, reply, 0, 0)
            },
            Call::Respond { block, status } => numbers(CallCode::Respond, block, 0, status),
            Call::Move { block, exchange } => numbers(CallCode::Move, block, exchange, 0),
            Call::Alarm {
                exchange,
                ticks,
                message,
            } => CallRecord {
                message: *message,
                ..numbers(CallCode::Alarm, exchange, 0, ticks)
            },
            Call::Cancel { block } => numbers(CallCode::Cancel, block, 0, 0),
            Call::Priority { priority } => numbers(CallCode::Priority, priority, 0, 0),
            Call::End => numbers(CallCode::End, 0, 0, 0),
            Call::Tray => numbers(CallCode::Tray, 0, 0, 0),
        }
    }
}

// The three numbers of a row: as a struct they would be `CallRecord` without its texts, which this makes.
fn numbers(code: CallCode, n1: u16, n2: u16, n3: u32) -> CallRecord
    ensures { result ≡ fields (code_number code) n1 n2 n3 zeros zeros }
{
    CallRecord {
        code: u8::from(code),
        n1,
        n2,
        n3,
        name: [0; 8],
        message: [0; 8],
    }
}
