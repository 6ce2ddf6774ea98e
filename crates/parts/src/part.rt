// Any part: what it is asked, what it answers and what is left in it.
use crate::operation::NoOperation;
use ready::task::ReadyTask;
use std::alloc::AllocError;
use std::fmt;

#[derive(Clone, Copy, Debug, PartialEq, Eq)]
pub(crate) enum Answer {
    Done,
    Is(bool),
    Number(Option<u16>),
    Task(Option<ReadyTask>),
    Priority(Option<u8>),
    Count(u16),
}

impl fmt::Display for Answer {
    fn fmt<W: fmt::Write>(&self, f: &mut fmt::Formatter<W>) -> fmt::Result {
        match *self {
            Answer::Done => f.write_str("done"),
            Answer::Is(true) => f.write_str("yes"),
            Answer::Is(false) => f.write_str("no"),
            Answer::Number(Some(number)) => write!(f, "number {number}"),
            Answer::Task(Some(ReadyTask { task, priority })) => {
                write!(f, "task {task} priority {priority}")
            }
            Answer::Priority(Some(priority)) => write!(f, "priority {priority}"),
            Answer::Count(count) => write!(f, "{count}"),
            Answer::Number(None) | Answer::Task(None) | Answer::Priority(None) => {
                f.write_str("none")
            }
        }
    }
}

// How much a part has left.
#[derive(Clone, Copy, Debug, PartialEq, Eq)]
pub(crate) enum Left {
    Free(u16),
    Ready(u8),
}

impl fmt::Display for Left {
    fn fmt<W: fmt::Write>(&self, f: &mut fmt::Formatter<W>) -> fmt::Result {
        match *self {
            Left::Free(numbers) => write!(f, "{numbers} free"),
            Left::Ready(tasks) => write!(f, "{tasks} ready"),
        }
    }
}

pub(crate) trait Part {
    // Does the operation that the line asks for. A line that is no operation of the part changes nothing.
    fn answer(&mut self, line: &str) -> Result<(Answer, Left), NoOperation>;
}

// What stands for a part where there is none yet.
#[derive(Clone, Copy)]
pub(crate) struct NoPart;

impl Part for NoPart {
    fn answer(&mut self, _line: &str) -> Result<(Answer, Left), NoOperation> {
        Err(NoOperation)
    }
}

// Does the operations of the lines, and writes a line for each.
pub(crate) fn use_part<P: Part + Drop>(
    mut part: P,
    lines: &[String],
    text: &mut String,
) -> Result<(), AllocError> {
    for (number, line) in (1usize..).zip(lines) {
        match part.answer(line.as_str()) {
            Ok((answer, left)) => writeln!(text, "{number} {line}: {answer}, {left}")?,
            Err(NoOperation) => writeln!(text, "{number} is no operation: {line}")?,
        }
    }
    Ok(())
}
