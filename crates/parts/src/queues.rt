// A ready queue as a part.
use crate::operation::{NoOperation, QueueOperation};
use crate::part::{Answer, Left, Part};
use ready::queue::ReadyQueue;

#[derive(Clone, Copy)]
pub(crate) struct Queue<Q>(pub(crate) Q);

impl<Q: ReadyQueue> Part for Queue<Q> {
    fn answer(&mut self, line: &str) -> Result<(Answer, Left), NoOperation> {
        let Queue(queue) = self;
        let answer = match line.parse()? {
            QueueOperation::Reset => {
                queue.reset();
                Answer::Done
            }
            QueueOperation::Join(ready) => Answer::Is(queue.join(ready)),
            QueueOperation::TakeBest => Answer::Task(queue.take_best()),
            QueueOperation::Best => Answer::Priority(queue.best()),
            QueueOperation::Length => Answer::Count(u16::from(queue.len())),
        };
        Ok((answer, Left::Ready(queue.len())))
    }
}
