// The line of a call, from the call as read.
use crate::words::InWords;
use calls::call::Call;
use std::fmt;
use std::marker::PhantomData;

// Eight bytes in hexadecimal, in their order.
#[derive(Clone, Copy)]
pub(crate) struct Hex<'a>(pub(crate) &'a [u8; 8]);

impl fmt::Display for Hex<'_> {
    fn fmt<W: fmt::Write>(&self, f: &mut fmt::Formatter<W>) -> fmt::Result {
        for byte in self.0 {
            write!(f, "{byte:02x}")?;
        }
        Ok(())
    }
}

// A service name, without the spaces that pad it.
#[derive(Clone, Copy)]
struct ServiceName<'a>(&'a [u8; 8]);

impl fmt::Display for ServiceName<'_> {
    fn fmt<W: fmt::Write>(&self, f: &mut fmt::Formatter<W>) -> fmt::Result {
        let name = self.0;
        for byte in name.iter().filter(|byte| **byte != b' ') {
            f.write_char(char::from(*byte))?;
        }
        Ok(())
    }
}

// A message of kind M in words; in hexadecimal where the bytes are none.
#[derive(Clone, Copy)]
struct MessageText<'a, M> {
    bytes: &'a [u8; 8],
    kind: PhantomData<M>,
}

fn told<M: InWords>(bytes: &[u8; 8]) -> MessageText<'_, M> {
    MessageText {
        bytes,
        kind: PhantomData,
    }
}

impl<M: InWords> fmt::Display for MessageText<'_, M> {
    fn fmt<W: fmt::Write>(&self, f: &mut fmt::Formatter<W>) -> fmt::Result {
        match M::read(self.bytes) {
            Some(message) => write!(f, "{message}"),
            None => write!(f, "{}", Hex(self.bytes)),
        }
    }
}

// The call's name and its used fields by name; its message is of kind M.
#[derive(Clone, Copy)]
pub(crate) struct CallLine<'a, M> {
    call: Call<'a>,
    kind: PhantomData<M>,
}

impl<'a, M: InWords> CallLine<'a, M> {
    pub(crate) fn new(call: Call<'a>) -> CallLine<'a, M> {
        CallLine {
            call,
            kind: PhantomData,
        }
    }
}

impl<M: InWords> fmt::Display for CallLine<'_, M> {
    fn fmt<W: fmt::Write>(&self, f: &mut fmt::Formatter<W>) -> fmt::Result {
        match self.call {
            Call::Start { task, priority } => write!(f, "Start task {task} priority {priority}"),
            Call::Open { exchange } => write!(f, "Open exchange {exchange}"),
            Call::Close { exchange } => write!(f, "Close exchange {exchange}"),
            Call::Register { exchange, name } => {
                write!(f, "Register exchange {exchange} name {}", ServiceName(name))
            }
            Call::Strike { name } => write!(f, "Strike name {}", ServiceName(name)),
            Call::Post { exchange, message } => {
                write!(f, "Post exchange {exchange} message {}", told::<M>(message))
            }
            Call::Tick => write!(f, "Tick"),
            Call::Send { exchange, message } => {
                write!(f, "Send exchange {exchange} message {}", told::<M>(message))
            }
            Call::Wait { exchange } => write!(f, "Wait exchange {exchange}"),
            Call::Check { exchange } => write!(f, "Check exchange {exchange}"),
            Call::Request {
                reply,
                name,
                message,
            } => write!(
                f,
                "Request reply exchange {reply} name {} message {}",
                ServiceName(name),
                told::<M>(message)
            ),
            Call::Respond { block, status } => write!(f, "Respond block {block} status {status}"),
            Call::Move { block, exchange } => write!(f, "Move block {block} exchange {exchange}"),
            Call::Alarm {
                exchange,
                ticks,
                message,
            } => write!(
                f,
                "Alarm exchange {exchange} ticks {ticks} message {}",
                told::<M>(message)
            ),
            Call::Cancel { block } => write!(f, "Cancel block {block}"),
            Call::Priority { priority } => write!(f, "Priority priority {priority}"),
            Call::End => write!(f, "End"),
            Call::Tray => write!(f, "Tray"),
        }
    }
}
