// The moves over the tables: what settling, taking and putting do.
// `messages` and `trays` come as two loans, since most moves need only a shared one: a struct over both would ask for exclusive use.
ghost use Rattle.std.specs.Prelude.{◌≡◌, true, slice_set};
ghost use Rattle.plain.specs.Moves.{put, readied, receives, settles, takes, yields};
ghost use Rattle.pool.specs.Marks.{Takes};
ghost use Rattle.tables.specs.Draws.{HandsOut, Posts};
ghost use Rattle.tables.specs.Views.{shown};

use crate::item::{item_of, message_item};
use crate::places::{copy_message, write_message};
use crate::tables::Tables;
use plain::records::Carries;
use pool::block_pool::BlockPool;
use ready::queue::ReadyQueue;
use ready::settle::settle;
use ready::task::ReadyTask;

impl<P: BlockPool, Q: ReadyQueue> Tables<P, Q> {
    // A better ready task displaces the running one; where none runs, the best ready one does.
    pub fn settle<M>(&mut self, messages: &[M], trays: &[M])
        ensures { shown P.BlockPool.marks Q.ReadyQueue.line self.new messages.now trays.now ≡ settles (shown P.BlockPool.marks Q.ReadyQueue.line self.old messages.now trays.now) }
    {
        self.running = settle(&mut self.queue, self.running);
    }

    // The task joins the ready queue with its own priority. One that may not join is left where it is.
    pub fn ready<M>(&mut self, task: u8, messages: &[M], trays: &[M])
        ensures { shown P.BlockPool.marks Q.ReadyQueue.line self.new messages.now trays.now ≡ readied task (shown P.BlockPool.marks Q.ReadyQueue.line self.old messages.now trays.now) }
    {
        let priority = self.tasks.priority(task);
        let _ = self.queue.join(ReadyTask { task, priority });
    }

    // The task takes the item of a block. A request's block is then in its hand, and any other is free again.
    pub fn take<M: Copy>(&mut self, task: u8, block: u8, messages: &[M], trays: &mut [M])
        ensures { shown P.BlockPool.marks Q.ReadyQueue.line self.new messages.now trays.new ≡ takes task block (shown P.BlockPool.marks Q.ReadyQueue.line self.old messages.now trays.old) }
    {
        let carries = self.blocks.carries(block);
        self.tasks.note(task, item_of(block, carries));
        copy_message(messages, block, trays, task);
        match carries {
            Carries::Request { .. } => self.blocks.hand_to(block, task),
            Carries::Message | Carries::Reply { .. } | Carries::Alarm => {
                // One that is refused is free already, or no number of the pool: either way it stays as it is.
                let _ = self.pool.give_back(u16::from(block));
            }
        }
    }

    // Puts the item of a block at an exchange: the first task that waits there takes it and is ready, or else it stands in line.
    pub fn put<M: Copy>(&mut self, exchange: u8, block: u8, messages: &[M], trays: &mut [M])
        ensures { shown P.BlockPool.marks Q.ReadyQueue.line self.new messages.now trays.new ≡ put exchange block (shown P.BlockPool.marks Q.ReadyQueue.line self.old messages.now trays.old) }
    {
        let Some(task) = self.exchanges.first_waiting(exchange) else {
            self.exchanges.add_item(exchange, block);
            return;
        };
        self.exchanges.drop_first(exchange);
        self.take(task, block, messages, trays);
        self.ready(task, messages, trays);
    }

    // The running task gives way to a ready one that is as good or better.
    pub fn give_way<M>(&mut self, messages: &[M], trays: &[M])
        ensures { shown P.BlockPool.marks Q.ReadyQueue.line self.new messages.now trays.now ≡ yields (shown P.BlockPool.marks Q.ReadyQueue.line self.old messages.now trays.now) }
    {
        let Some(task) = self.running else {
            return;
        };
        let Some(best) = self.queue.best() else {
            return;
        };
        if best <= task.priority && self.queue.join(task) {
            self.running = None;
        }
    }

    // The task takes a message that no block carries.
    pub fn receive<M: Copy>(&mut self, task: u8, message: M, messages: &[M], trays: &mut [M])
        ensures { shown P.BlockPool.marks Q.ReadyQueue.line self.new messages.now trays.new ≡ receives task message (shown P.BlockPool.marks Q.ReadyQueue.line self.old messages.now trays.old) }
    {
        self.tasks.note(task, message_item());
        write_message(trays, task, message);
    }

    // Takes a block from the pool. It then carries this, in nobody's hand, and its place holds the message.
    pub fn hand_out<M: Copy>(
        &mut self,
        carries: Carries,
        message: M,
        messages: &mut [M],
        trays: &[M],
    ) -> Option<u8>
        ensures { HandsOut carries message result (shown P.BlockPool.marks Q.ReadyQueue.line self.old messages.old trays.now) (shown P.BlockPool.marks Q.ReadyQueue.line self.new messages.new trays.now) }
    {
        // A number from the pool is below 256.
        let block = u8::try_from(self.pool.take()?).ok()?;
        self.blocks.load(block, carries);
        write_message(messages, block, message);
        Some(block)
    }

    // Puts a message at an exchange: the first task that waits there takes it and is ready, or else a block with it stands in line.
    // No, and nothing changes, where no task waits and no block is free: it cannot fail, and says whether the message went.
    pub fn put_message<M: Copy>(
        &mut self,
        exchange: u8,
        message: M,
        messages: &mut [M],
        trays: &mut [M],
    ) -> bool
        ensures { Posts exchange message result (shown P.BlockPool.marks Q.ReadyQueue.line self.old messages.old trays.old) (shown P.BlockPool.marks Q.ReadyQueue.line self.new messages.new trays.new) }
    {
        let Some(task) = self.exchanges.first_waiting(exchange) else {
            let Some(block) = self.hand_out(Carries::Message, message, messages, trays) else {
                return false;
            };
            self.exchanges.add_item(exchange, block);
            return true;
        };
        self.exchanges.drop_first(exchange);
        self.receive(task, message, messages, trays);
        self.ready(task, messages, trays);
        true
    }
}
