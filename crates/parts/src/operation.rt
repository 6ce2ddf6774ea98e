// Operations as they are written: words and numbers with one blank between them.
use ready::task::ReadyTask;
use std::num::ParseIntError;
use std::str::FromStr;

// A line that is no operation of the part.
#[derive(Clone, Copy, Debug, PartialEq, Eq)]
pub(crate) struct NoOperation;

// A number of 1 to 5 digits that its type can hold.
fn number<N: FromStr<Err = ParseIntError>>(digits: &str) -> Result<N, NoOperation> {
    if digits.len() <= 5 && digits.bytes().all(|b| b.is_ascii_digit()) {
        digits.parse().map_err(|_| NoOperation)
    } else {
        Err(NoOperation)
    }
}

// What a block pool can be asked.
#[derive(Clone, Copy, Debug, PartialEq, Eq)]
pub(crate) enum PoolOperation {
    Reset(u16),
    Take,
    Return(u16),
    Count,
    Free(u16),
}

impl FromStr for PoolOperation {
    type Err = NoOperation;

    fn from_str(line: &str) -> Result<Self, NoOperation> {
        match line.split_once(' ') {
            None => match line {
                "take" => Ok(PoolOperation::Take),
                "count" => Ok(PoolOperation::Count),
                _ => Err(NoOperation),
            },
            Some(("reset", size)) => Ok(PoolOperation::Reset(number(size)?)),
            Some(("return", n)) => Ok(PoolOperation::Return(number(n)?)),
            Some(("free", n)) => Ok(PoolOperation::Free(number(n)?)),
            Some(_) => Err(NoOperation),
        }
    }
}

// What a ready queue can be asked.
#[derive(Clone, Copy, Debug, PartialEq, Eq)]
pub(crate) enum QueueOperation {
    Reset,
    Join(ReadyTask),
    TakeBest,
    Best,
    Length,
}

impl FromStr for QueueOperation {
    type Err = NoOperation;

    fn from_str(line: &str) -> Result<Self, NoOperation> {
        match line {
            "reset" => Ok(QueueOperation::Reset),
            "take best" => Ok(QueueOperation::TakeBest),
            "best" => Ok(QueueOperation::Best),
            "length" => Ok(QueueOperation::Length),
            _ => {
                let Some(("join", numbers)) = line.split_once(' ') else {
                    return Err(NoOperation);
                };
                let (task, priority) = numbers.split_once(' ').ok_or(NoOperation)?;
                Ok(QueueOperation::Join(ReadyTask {
                    task: number(task)?,
                    priority: number(priority)?,
                }))
            }
        }
    }
}
