// The calls that a reader has left, as an iterator: the reader's `next`, for one kind of message.
ghost use Rattle.std.specs.Prelude.{◌≡◌, length};
ghost use Rattle.std.specs.Iterator.{at_most};
ghost use Rattle.batches.specs.Readers.{Next, calls_left, left};

use crate::reader::Reader;
use calls::call::Call;
use calls::refusal::RowFault;
use messages::message::Message;
use std::marker::PhantomData;

// The calls of a reader, from its cursor on: each call, or what is wrong with its row.
#[derive(Clone, Copy)]
pub struct Calls<'a, M> {
    reader: Reader<'a>,
    kind: PhantomData<M>,
}

impl<'a, M: Message> Calls<'a, M> {
    pub(super) fn new(reader: Reader<'a>) -> Calls<'a, M>
        ensures { calls_left result ≡ left reader.entry }
    {
        Calls {
            reader,
            kind: PhantomData,
        }
    }
}

impl<'a, M: Message> Iterator for Calls<'a, M> {
    type Item = Result<Call<'a>, RowFault>;

    ghost next_gives = { λ s r t. Next M.Message.reading (calls_left s) r (calls_left t) };

    ghost remaining = { λ s. at_most (length (calls_left s)) };

    fn next(&mut self) -> Option<Result<Call<'a>, RowFault>> {
        self.reader.next::<M>()
    }
}
