// What can be done with any block pool, known by its trait alone.
ghost use Rattle.std.specs.Prelude.{◌≡◌, true, length, take, drop, replicate};
ghost use Rattle.pool.specs.Clients.{Covers, Drained, all_given};
ghost use Rattle.pool.specs.Marks.{free_count};

use crate::block_pool::BlockPool;

// Takes every free number, writes them to the front of `out`, and answers how many they were. The buffer is lent, since there is no heap.
pub fn drain<P: BlockPool>(pool: &mut P, out: &mut [u16; 256]) -> u16
    ensures drained { Drained (P.BlockPool.marks pool.old) (take result out.new) (P.BlockPool.marks pool.new) }
    ensures counts { result ≡ free_count (P.BlockPool.marks pool.old) }
    ensures rest { drop result out.new ≡ drop result out.old }
{
    // over a range, since how many were taken is the answer
    for count in 0..256 {
        let Some(number) = pool.take() else {
            return count;
        };
        out[usize::from(count)] = number;
    }
    256
}

// Gives every number of the list back. Where the others are free, the pool is as after a reset to its size.
#[tactic(auto, using(crate::proofs::ClientLaws::one_more))]
pub fn refill<P: BlockPool>(pool: &mut P, numbers: &[u16])
    ensures given { P.BlockPool.marks pool.new ≡ all_given (P.BlockPool.marks pool.old) numbers.now }
    ensures whole { Covers numbers.now (P.BlockPool.marks pool.old) → P.BlockPool.marks pool.new ≡ replicate (length (P.BlockPool.marks pool.old)) true }
{
    for number in numbers {
        // a number that is refused is free already, or no number of the pool
        let _ = pool.give_back(*number);
    }
}
