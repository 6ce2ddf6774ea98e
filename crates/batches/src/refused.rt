// Why a batch is refused, or records are not written as one, and at which row.
ghost use Rattle.std.specs.Prelude.{◌≡◌, Some};
ghost use Rattle.batches.specs.Refused.{batch_refusal, batch_row, batch_words};

use calls::refusal::{Refusal, RowFault};
use std::error::Error;
use std::fmt;

// A row is carried exactly where one row is at fault.
#[derive(Clone, Copy, Debug, PartialEq, Eq, Hash)]
pub enum BatchRefusal {
    Shape,
    ShortBuffer,
    Row { row: u16, fault: RowFault },
}

impl BatchRefusal {
    pub fn row(self) -> Option<u16>
        ensures { result ≡ batch_row self }
    {
        match self {
            BatchRefusal::Shape | BatchRefusal::ShortBuffer => None,
            BatchRefusal::Row { row, .. } => Some(row),
        }
    }
}

impl From<BatchRefusal> for Refusal {
    ghost from_gives = { λ batch refusal. refusal ≡ batch_refusal batch };

    fn from(batch: BatchRefusal) -> Refusal {
        match batch {
            BatchRefusal::Shape => Refusal::BatchShape,
            BatchRefusal::ShortBuffer => Refusal::ShortBuffer,
            BatchRefusal::Row { fault, .. } => Refusal::from(fault),
        }
    }
}

impl fmt::Display for BatchRefusal {
    ghost output = { λ batch. Some (batch_words batch) };

    fn fmt<W: fmt::Write>(&self, f: &mut fmt::Formatter<W>) -> fmt::Result {
        match *self {
            BatchRefusal::Row { row, fault } => write!(f, "row {row}: {fault}"),
            whole => {
                let refusal = Refusal::from(whole);
                write!(f, "{refusal}")
            }
        }
    }
}

impl Error for BatchRefusal {}
