// What is wrong with a refused batch, in words.
use crate::lines::Hex;
use crate::words::InWords;
use batches::layout::MOST_CALLS;
use batches::reader::Reader;
use batches::refused::BatchRefusal;
use calls::code::{CallCode, Uses};
use calls::record::Row;
use calls::refusal::RowFault;
use std::fmt;
use std::marker::PhantomData;

// What is wrong with a batch that has not its shape: the reader's tests again, since its refusal says that one failed and not which.
#[derive(Clone, Copy)]
struct WrongShape<'a>(&'a [u8]);

impl fmt::Display for WrongShape<'_> {
    fn fmt<W: fmt::Write>(&self, f: &mut fmt::Formatter<W>) -> fmt::Result {
        let batch = self.0;
        let bytes = batch.len();
        if bytes < 4 {
            return write!(f, "the batch has {bytes} bytes; its header takes 4");
        }
        let count = u16::from_le_bytes([batch[0], batch[1]]);
        let width = u16::from_le_bytes([batch[2], batch[3]]);
        if width != 24 {
            return write!(f, "the row width is {width}; it must be 24");
        }
        if usize::from(count) > MOST_CALLS {
            return write!(
                f,
                "the header counts {count} calls; a batch has at most {MOST_CALLS}"
            );
        }
        let need = 4 + 25 * usize::from(count);
        write!(
            f,
            "the header counts {count} calls, which take {need} bytes; the batch has {bytes}"
        )
    }
}

// One of the five fields of a row.
#[derive(Clone, Copy, Debug, PartialEq, Eq, Hash)]
enum Field {
    N1,
    N2,
    N3,
    Name,
    Message,
}

impl fmt::Display for Field {
    fn fmt<W: fmt::Write>(&self, f: &mut fmt::Formatter<W>) -> fmt::Result {
        f.write_str(match self {
            Field::N1 => "n1",
            Field::N2 => "n2",
            Field::N3 => "n3",
            Field::Name => "name",
            Field::Message => "message",
        })
    }
}

// The first field that the call does not use and that is not zero.
fn unused_field(uses: Uses, row: Row<'_>) -> Field {
    if !uses.n1 && row.n1 != 0 {
        Field::N1
    } else if !uses.n2 && row.n2 != 0 {
        Field::N2
    } else if !uses.n3 && row.n3 != 0 {
        Field::N3
    } else if !uses.name && *row.name != [0; 8] {
        Field::Name
    } else {
        Field::Message
    }
}

// What is wrong with a row, whose message would be of kind M.
#[derive(Clone, Copy)]
struct WrongRow<'a, M> {
    row: Row<'a>,
    fault: RowFault,
    kind: PhantomData<M>,
}

impl<M: InWords> fmt::Display for WrongRow<'_, M> {
    fn fmt<W: fmt::Write>(&self, f: &mut fmt::Formatter<W>) -> fmt::Result {
        let row = self.row;
        match self.fault {
            RowFault::UnknownCode => {
                write!(f, "{} is no call's code; the codes are 1 to 18", row.code)
            }
            RowFault::UnusedField => match CallCode::try_from(row.code) {
                Ok(code) => {
                    let field = unused_field(code.uses(), row);
                    write!(f, "{code} does not use {field}, which is not zero")
                }
                Err(_) => write!(f, "a field is not zero"),
            },
            RowFault::BadName => write!(f, "{} is not a service name", Hex(row.name)),
            RowFault::BadMessage => write!(f, "{} is not {}", Hex(row.message), M::KIND),
        }
    }
}

// What is wrong with a refused batch of messages of kind M, and where.
#[derive(Clone, Copy)]
pub(crate) struct Explanation<'a, M> {
    batch: &'a [u8],
    refusal: BatchRefusal,
    kind: PhantomData<M>,
}

impl<'a, M: InWords> Explanation<'a, M> {
    pub(crate) fn new(batch: &'a [u8], refusal: BatchRefusal) -> Explanation<'a, M> {
        Explanation {
            batch,
            refusal,
            kind: PhantomData,
        }
    }
}

impl<M: InWords> fmt::Display for Explanation<'_, M> {
    fn fmt<W: fmt::Write>(&self, f: &mut fmt::Formatter<W>) -> fmt::Result {
        let (at, fault) = match self.refusal {
            BatchRefusal::Shape => return write!(f, "{}", WrongShape(self.batch)),
            BatchRefusal::ShortBuffer => {
                return write!(f, "the buffer is too short for the batch");
            }
            BatchRefusal::Row { row, fault } => (row, fault),
        };
        let row = Reader::new(self.batch)
            .ok()
            .and_then(|reader| reader.row_at(at));
        let Some(row) = row else {
            return write!(f, "row {at} is not there");
        };
        let wrong = WrongRow::<M> {
            row,
            fault,
            kind: PhantomData,
        };
        write!(f, "row {at}: {wrong}")
    }
}
