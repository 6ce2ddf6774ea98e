// One exchange: whether it is open, and its line, in which items stand or tasks wait, never both.
ghost use Rattle.std.specs.Prelude.{◌≡◌};
ghost use Rattle.plain.specs.Lookups.{closed_exchange, first_of, is_open, items, waiting};
ghost use Rattle.plain.specs.Moves.{with_item, with_waiting, without_first};
ghost use Rattle.plain.specs.declared.records.Holds.TheVariants.{Items, Tasks};
ghost use Rattle.lines.specs.Exchanges.{closed, exchange_of, open_exchange};

use crate::line::Line;
use plain::records::{ExchangeState, Holds};

#[derive(Clone, Copy)]
pub(crate) struct ExchangeLine {
    state: ExchangeState,
    // what the line holds stands beside it, as in the plain exchange: a case with a line of its own would move 258 bytes at each change
    holds: Holds,
    line: Line,
}

impl ExchangeLine {
    // A closed exchange, with nothing in its line.
    pub(crate) fn new() -> ExchangeLine
        ensures { exchange_of result ≡ closed_exchange }
    {
        ExchangeLine {
            state: ExchangeState::Closed,
            holds: Holds::Items,
            line: Line::new(),
        }
    }

    // Whether it is open.
    pub(crate) fn is_open(&self) -> bool
        ensures { result ≡ is_open self.now.state }
    {
        self.state == ExchangeState::Open
    }

    // Opens it, with nothing in its line.
    pub(crate) fn make_open(&mut self)
        ensures { exchange_of self.new ≡ open_exchange }
    {
        self.state = ExchangeState::Open;
        self.holds = Holds::Items;
        self.line.clear();
    }

    // Closes it. What stands in its line stays.
    pub(crate) fn make_closed(&mut self)
        ensures { exchange_of self.new ≡ closed (exchange_of self.old) }
    {
        self.state = ExchangeState::Closed;
    }

    // The first item's block, if any.
    pub(crate) fn first_item(&self) -> Option<u8>
        ensures { result ≡ first_of (items (exchange_of self.now)) }
    {
        self.first_if(Holds::Items)
    }

    // The first task that waits, if any.
    pub(crate) fn first_waiting(&self) -> Option<u8>
        ensures { result ≡ first_of (waiting (exchange_of self.now)) }
    {
        self.first_if(Holds::Tasks)
    }

    // The first of the line, if it holds these.
    fn first_if(&self, holds: Holds) -> Option<u8>
        ensures items { holds ≡ Items → result ≡ first_of (items (exchange_of self.now)) }
        ensures tasks { holds ≡ Tasks → result ≡ first_of (waiting (exchange_of self.now)) }
    {
        if self.holds == holds {
            self.line.first()
        } else {
            None
        }
    }

    // Puts an item at the end of the line of items.
    pub(crate) fn add_item(&mut self, block: u8)
        ensures { exchange_of self.new ≡ with_item block (exchange_of self.old) }
    {
        self.join(Holds::Items, block);
    }

    // Puts a task at the end of the line of tasks.
    pub(crate) fn add_waiting(&mut self, task: u8)
        ensures { exchange_of self.new ≡ with_waiting task (exchange_of self.old) }
    {
        self.join(Holds::Tasks, task);
    }

    // Puts a number at the end of the line. What of the other kind stood in it goes.
    fn join(&mut self, holds: Holds, number: u8)
        ensures items { holds ≡ Items → exchange_of self.new ≡ with_item number (exchange_of self.old) }
        ensures tasks { holds ≡ Tasks → exchange_of self.new ≡ with_waiting number (exchange_of self.old) }
    {
        if self.holds != holds {
            self.line.clear();
        }
        self.holds = holds;
        self.line.push(number);
    }

    // The first of the line leaves, if any.
    pub(crate) fn drop_first(&mut self)
        ensures { exchange_of self.new ≡ without_first (exchange_of self.old) }
    {
        let _ = self.line.pop();
    }
}
