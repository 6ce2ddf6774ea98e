// The table of exchanges. A number that is not below its size is no exchange: it has nothing in its line, and nothing changes there.
#![tactic(auto, using(std::proofs::lemmas::Grind::common_steps, crate::proofs::TableLaws::tables))]

ghost use Rattle.std.specs.Prelude.{◌≡◌, length, min, replicate, slice_index_or, slice_set};
ghost use Rattle.plain.specs.Lookups.{closed_exchange, first_of, is_open, items, waiting};
ghost use Rattle.plain.specs.Moves.{with_item, with_waiting, without_first};
ghost use Rattle.lines.specs.Exchanges.{changed_at, closed, exchanges_of, open_exchange};

use crate::exchange::ExchangeLine;
use fixed::FixedVec;

// Its methods are alike, and stay apart: each is one call of the exchange's own method, where the exchange is there.
#[derive(Clone, Copy)]
pub struct Exchanges {
    lines: FixedVec<ExchangeLine, MOST>,
}

const MOST: usize = 64;

impl Exchanges {
    // So many closed exchanges, at most 64.
    pub fn new(size: u8) -> Exchanges
        ensures { exchanges_of result ≡ replicate (min size 64) closed_exchange }
    {
        Exchanges {
            lines: FixedVec::filled(usize::from(size), ExchangeLine::new()),
        }
    }

    pub fn size(&self) -> u8
        ensures { result ≡ length (exchanges_of self.now) }
    {
        self.lines.len() as u8
    }

    // Whether it is open.
    pub fn is_open(&self, exchange: u8) -> bool
        ensures { result ≡ is_open (slice_index_or (exchanges_of self.now) exchange closed_exchange).state }
    {
        self.lines
            .get(usize::from(exchange))
            .is_some_and(|line| line.is_open())
    }

    // Opens the exchange, with nothing in its line.
    pub fn make_open(&mut self, exchange: u8)
        ensures { exchanges_of self.new ≡ slice_set (exchanges_of self.old) exchange open_exchange }
    {
        if let Some(line) = self.lines.get_mut(usize::from(exchange)) {
            line.make_open();
        }
    }

    // Closes the exchange. What stands in its line stays.
    pub fn make_closed(&mut self, exchange: u8)
        ensures { exchanges_of self.new ≡ changed_at closed exchange (exchanges_of self.old) }
    {
        if let Some(line) = self.lines.get_mut(usize::from(exchange)) {
            line.make_closed();
        }
    }

    // The first item's block, if any.
    pub fn first_item(&self, exchange: u8) -> Option<u8>
        ensures { result ≡ first_of (items (slice_index_or (exchanges_of self.now) exchange closed_exchange)) }
    {
        self.lines.get(usize::from(exchange))?.first_item()
    }

    // The first task that waits, if any.
    pub fn first_waiting(&self, exchange: u8) -> Option<u8>
        ensures { result ≡ first_of (waiting (slice_index_or (exchanges_of self.now) exchange closed_exchange)) }
    {
        self.lines.get(usize::from(exchange))?.first_waiting()
    }

    // Puts an item at the end of the line of items.
    pub fn add_item(&mut self, exchange: u8, block: u8)
        ensures { exchanges_of self.new ≡ changed_at (with_item block) exchange (exchanges_of self.old) }
    {
        if let Some(line) = self.lines.get_mut(usize::from(exchange)) {
            line.add_item(block);
        }
    }

    // Puts a task at the end of the line of tasks.
    pub fn add_waiting(&mut self, exchange: u8, task: u8)
        ensures { exchanges_of self.new ≡ changed_at (with_waiting task) exchange (exchanges_of self.old) }
    {
        if let Some(line) = self.lines.get_mut(usize::from(exchange)) {
            line.add_waiting(task);
        }
    }

    // The first of the line leaves, if any.
    pub fn drop_first(&mut self, exchange: u8)
        ensures { exchanges_of self.new ≡ changed_at without_first exchange (exchanges_of self.old) }
    {
        if let Some(line) = self.lines.get_mut(usize::from(exchange)) {
            line.drop_first();
        }
    }
}
