// A block pool as a part.
use crate::operation::{NoOperation, PoolOperation};
use crate::part::{Answer, Left, Part};
use pool::block_pool::BlockPool;

#[derive(Clone, Copy)]
pub(crate) struct Pool<P>(pub(crate) P);

impl<P: BlockPool> Part for Pool<P> {
    fn answer(&mut self, line: &str) -> Result<(Answer, Left), NoOperation> {
        let Pool(pool) = self;
        let answer = match line.parse()? {
            PoolOperation::Reset(size) => Answer::Is(pool.reset(size)),
            PoolOperation::Take => Answer::Number(pool.take()),
            PoolOperation::Return(number) => Answer::Is(pool.give_back(number)),
            PoolOperation::Count => Answer::Count(pool.free_count()),
            PoolOperation::Free(number) => Answer::Is(pool.is_free(number)),
        };
        Ok((answer, Left::Free(pool.free_count())))
    }
}
