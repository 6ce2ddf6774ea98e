// The tables of a station as it opens.
ghost use Rattle.std.specs.Prelude.{◌≡◌, ◌≤◌, true, replicate};
ghost use Rattle.plain.specs.Openings.{fits, opened};
ghost use Rattle.tables.specs.Opened.{AsOpened};
ghost use Rattle.tables.specs.Views.{shown, sizes_of};

use crate::tables::Tables;
use lines::exchanges::Exchanges;
use plain::records::Sizes;
use pool::block_pool::BlockPool;
use ready::queue::ReadyQueue;
use records::alarms::Alarms;
use records::blocks::Blocks;
use records::register::Register;
use records::tasks::Tasks;

impl<P: BlockPool, Q: ReadyQueue> Tables<P, Q> {
    // Where every size is within its limits, the tables are those of a station that opens: the pool and the queue are reset.
    // A size past its limit is cut to it. `messages` and `trays` are two loans, as in the moves.
    pub fn new<M>(
        sizes: Sizes,
        mut pool: P,
        mut queue: Q,
        messages: &[M],
        trays: &[M],
    ) -> Tables<P, Q>
        ensures parts { AsOpened sizes (shown P.BlockPool.marks Q.ReadyQueue.line result messages.now trays.now) }
        ensures opened { fits sizes ≡ true → shown P.BlockPool.marks Q.ReadyQueue.line result messages.now trays.now ≡ opened sizes messages.now trays.now }
    {
        // A size that is refused leaves the pool as it is.
        let _ = pool.reset(sizes.blocks);
        queue.reset();
        Tables {
            running: None,
            pool,
            queue,
            register: Register::new(),
            alarms: Alarms::new(),
            tasks: Tasks::new(sizes.tasks),
            blocks: Blocks::new(sizes.blocks),
            exchanges: Exchanges::new(sizes.exchanges),
        }
    }

    // Gives the pool and the queue back, and lets the tables go.
    pub fn into_parts(self) -> (P, Q)
        ensures { result ≡ (self.pool, self.queue) }
    {
        let Tables {
            running: _,
            pool,
            queue,
            register: _,
            alarms: _,
            tasks: _,
            blocks: _,
            exchanges: _,
        } = self;
        (pool, queue)
    }

    // The three sizes.
    pub fn sizes(&self) -> Sizes
        ensures { result ≡ sizes_of self.now }
    {
        Sizes {
            tasks: self.tasks.size(),
            exchanges: self.exchanges.size(),
            blocks: self.blocks.size(),
        }
    }
}
