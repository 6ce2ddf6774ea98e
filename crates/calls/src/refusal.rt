// Why a call, a batch or a draft is refused. Each case has one number, by which operators know it.
ghost use Rattle.std.specs.Prelude.{◌≡◌, Some};
ghost use Rattle.calls.specs.Refusals.{refusal_number, row_refusal};
ghost use Rattle.calls.specs.Words.{refusal_words};
ghost use Rattle.calls.specs.declared.refusal.RowFault.TheVariants.{UnknownCode as unknown_code};

use crate::code::UnknownCode;
use std::error::Error;
use std::fmt;

#[derive(Clone, Copy, Debug, PartialEq, Eq, Hash)]
pub enum Refusal {
    // a draft's size would leave its limits
    DraftSize = 1,
    // a brought table is not as long as the station's size
    TableLength = 2,
    // the batch as a whole is not 4 + 25n bytes with row width 24 and at most 1,024 calls
    BatchShape = 3,
    // the buffer for answers, or for a written batch, is too short
    ShortBuffer = 4,
    // the code is not 1 to 18
    UnknownCode = 5,
    // a field that the call does not use is not zero
    UnusedField = 6,
    // the name that the call uses is not a service name
    BadName = 7,
    // the message that the call uses is not one of the station's kind
    BadMessage = 8,
    // a task's call while no task runs
    NoneRunning = 9,
    // a task, an exchange or a block is not below its size, a priority is above 31, or the ticks are 0
    OutOfRange = 10,
    // Start of a live task, Open of an open exchange, or Register of a name that is registered
    AlreadyThere = 11,
    // an exchange that the call names is closed, and the call is not Open
    ExchangeClosed = 12,
    // Strike or Request of a name that is not registered
    UnknownName = 13,
    // Close of an exchange to which an item, a task, an alarm, a name or an owed reply is bound
    ExchangeBound = 14,
    // Register while 16 names are registered
    RegisterFull = 15,
    // the call needs a block and none is free
    NoFreeBlock = 16,
    // Check finds no item
    NoItem = 17,
    // Respond or Move of no request in the caller's hand, or Cancel of no running alarm
    NotHeld = 18,
    // End of a task with a request in hand
    RequestInHand = 19,
}

// What can be wrong with one row of a batch: the refusals 5 to 8. A batch's refusal carries a row exactly for these.
#[derive(Clone, Copy, Debug, PartialEq, Eq, Hash)]
pub enum RowFault {
    UnknownCode,
    UnusedField,
    BadName,
    BadMessage,
}

impl From<Refusal> for u8 {
    ghost from_gives = { λ refusal n. n ≡ refusal_number refusal };

    fn from(refusal: Refusal) -> u8 {
        refusal as u8
    }
}

impl From<RowFault> for Refusal {
    ghost from_gives = { λ fault refusal. refusal ≡ row_refusal fault };

    fn from(fault: RowFault) -> Refusal {
        match fault {
            RowFault::UnknownCode => Refusal::UnknownCode,
            RowFault::UnusedField => Refusal::UnusedField,
            RowFault::BadName => Refusal::BadName,
            RowFault::BadMessage => Refusal::BadMessage,
        }
    }
}

impl From<UnknownCode> for RowFault {
    ghost from_gives = { λ _ fault. fault ≡ unknown_code };

    fn from(_code: UnknownCode) -> RowFault {
        RowFault::UnknownCode
    }
}

// A table of words, as each type that is printed has one of its own.
impl fmt::Display for Refusal {
    ghost output = { λ refusal. Some (refusal_words refusal) };

    fn fmt<W: fmt::Write>(&self, f: &mut fmt::Formatter<W>) -> fmt::Result {
        f.write_str(match self {
            Refusal::DraftSize => "the draft's size would leave its limits",
            Refusal::TableLength => "a table is not as long as the station's size",
            Refusal::BatchShape => "the batch does not have its shape",
            Refusal::ShortBuffer => "the buffer is too short",
            Refusal::UnknownCode => "the code is no call's",
            Refusal::UnusedField => "a field that the call does not use is not zero",
            Refusal::BadName => "the name is not a service name",
            Refusal::BadMessage => "the message is not one of the station's kind",
            Refusal::NoneRunning => "no task runs",
            Refusal::OutOfRange => "a number is out of its range",
            Refusal::AlreadyThere => "the task, exchange or name is there already",
            Refusal::ExchangeClosed => "the exchange is closed",
            Refusal::UnknownName => "the name is not registered",
            Refusal::ExchangeBound => "something is bound to the exchange",
            Refusal::RegisterFull => "the register is full",
            Refusal::NoFreeBlock => "no block is free",
            Refusal::NoItem => "the exchange has no item",
            Refusal::NotHeld => "the request is not in hand, or the alarm does not run",
            Refusal::RequestInHand => "the task has a request in hand",
        })
    }
}

impl fmt::Display for RowFault {
    ghost output = { λ fault. Some (refusal_words (row_refusal fault)) };

    fn fmt<W: fmt::Write>(&self, f: &mut fmt::Formatter<W>) -> fmt::Result {
        let refusal = Refusal::from(*self);
        write!(f, "{refusal}")
    }
}

impl Error for Refusal {}

impl Error for RowFault {}
