// The table of block records. A number that is not below its size is no block: it carries a message, and nothing changes there.
#![tactic(auto, using(std::proofs::lemmas::Grind::common_steps, fixed::proofs::FrontLaws::writing))]

ghost use Rattle.std.specs.Prelude.{◌≡◌, length, min, replicate, slice_index_or, slice_set};
ghost use Rattle.plain.specs.Lookups.{idle_block};
ghost use Rattle.records.specs.Records.{block_changed, blocks_of, carrying, in_hand_of};

use fixed::FixedVec;
use plain::records::{BlockRecord, Carries};

#[derive(Clone, Copy)]
pub struct Blocks {
    records: FixedVec<BlockRecord, MOST>,
}

const MOST: usize = 256;

impl Blocks {
    // So many records of blocks that carry a message, at most 256.
    pub fn new(size: u16) -> Blocks
        ensures { blocks_of result ≡ replicate (min size 256) idle_block }
    {
        Blocks {
            records: FixedVec::filled(
                usize::from(size),
                BlockRecord {
                    carries: Carries::Message,
                    holder: None,
                },
            ),
        }
    }

    pub fn size(&self) -> u16
        ensures { result ≡ length (blocks_of self.now) }
    {
        self.records.len() as u16
    }

    // What the block carries.
    pub fn carries(&self, block: u8) -> Carries
        ensures { result ≡ (slice_index_or (blocks_of self.now) block idle_block).carries }
    {
        self.records
            .get(usize::from(block))
            .map_or(Carries::Message, |record| record.carries)
    }

    // The task in whose hand the block is, if any.
    pub fn holder(&self, block: u8) -> Option<u8>
        ensures { result ≡ (slice_index_or (blocks_of self.now) block idle_block).holder }
    {
        self.records.get(usize::from(block))?.holder
    }

    // Puts the block, with what it carries, into a task's hand. This and `load` are one call of the list each, on a record of their own.
    pub fn hand_to(&mut self, block: u8, task: u8)
        ensures { blocks_of self.new ≡ block_changed (in_hand_of task) block (blocks_of self.old) }
    {
        if let Some(record) = self.records.get_mut(usize::from(block)) {
            record.holder = Some(task);
        }
    }

    // Lets the block carry something else, in nobody's hand.
    pub fn load(&mut self, block: u8, carries: Carries)
        ensures { blocks_of self.new ≡ slice_set (blocks_of self.old) block (carrying carries) }
    {
        self.records.set(
            usize::from(block),
            BlockRecord {
                carries,
                holder: None,
            },
        );
    }
}
