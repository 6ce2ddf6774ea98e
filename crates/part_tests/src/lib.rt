// One behaviour test for each part, run over every build of it.
#![tactic(auto)]

#[cfg(test)]
mod tests {
    use pool::block_pool::BlockPool;
    use pool::block_pool::bitmap::Bitmap;
    use pool::block_pool::free_list::FreeList;
    use ready::lines::PriorityLines;
    use ready::queue::ReadyQueue;
    use ready::sorted::SortedLine;
    use ready::task::ReadyTask;
    use std::test::Fail;

    // Fails the test where the claim does not hold, with no handle that could end the process.
    fn claim(holds: bool) -> Result<(), Fail> {
        Ok(
            holds
                .then_some(())
                .ok_or("a claim of the test does not hold")?,
        )
    }

    // Whether the pool does what every block pool does, whichever number it hands out.
    fn pool_behaves<P: BlockPool>(pool: &mut P) -> bool {
        let sizes = !pool.reset(0)
            && !pool.reset(257)
            && pool.free_count() == 1
            && pool.reset(256)
            && pool.free_count() == 256
            && pool.reset(2)
            && !pool.give_back(0)
            && !pool.give_back(2);
        let Some(n) = pool.take() else {
            return false;
        };
        sizes
            && !pool.is_free(n)
            && pool.take().is_some()
            && pool.take().is_none()
            && pool.give_back(n)
            && pool.is_free(n)
            && pool.free_count() == 1
    }

    // Whether the queue does what every ready queue does.
    fn queue_behaves<Q: ReadyQueue>(queue: &mut Q) -> bool {
        let ready = |task, priority| ReadyTask { task, priority };
        let lines = queue.join(ready(4, 9))
            && queue.join(ready(1, 9))
            && queue.join(ready(2, 8))
            && queue.join(ready(63, 31))
            && !queue.join(ready(1, 0))
            && !queue.join(ready(64, 0))
            && !queue.join(ready(5, 32))
            && queue.len() == 4
            && queue.best() == Some(8)
            && queue.take_best() == Some(ready(2, 8))
            && queue.take_best() == Some(ready(4, 9))
            && queue.join(ready(4, 9))
            && queue.take_best() == Some(ready(1, 9));
        queue.reset();
        lines && queue.take_best().is_none() && queue.best().is_none()
    }

    #[test]
    fn free_list() -> Result<(), Fail> {
        claim(pool_behaves(&mut FreeList::new()))
    }

    #[test]
    fn bitmap() -> Result<(), Fail> {
        claim(pool_behaves(&mut Bitmap::new()))
    }

    #[test]
    fn priority_lines() -> Result<(), Fail> {
        claim(queue_behaves(&mut PriorityLines::new()))
    }

    #[test]
    fn sorted_line() -> Result<(), Fail> {
        claim(queue_behaves(&mut SortedLine::new()))
    }

    // The chain hands out the number that came back last, and then the one before it.
    #[test]
    fn free_list_is_a_stack(rt: HostRuntime) {
        let mut pool = FreeList::new();
        assert!(rt; pool.reset(4));
        assert_eq!(rt; pool.take(), Some(0));
        assert_eq!(rt; pool.take(), Some(1));
        assert!(rt; pool.give_back(0));
        assert!(rt; pool.give_back(1));
        assert_eq!(rt; pool.take(), Some(1));
        assert_eq!(rt; pool.take(), Some(0));
        assert_eq!(rt; pool.take(), Some(2));
    }

    // The map hands out the lowest free number.
    #[test]
    fn bitmap_is_lowest_first(rt: HostRuntime) {
        let mut pool = Bitmap::new();
        assert!(rt; pool.reset(70));
        assert_eq!(rt; pool.take(), Some(0));
        assert_eq!(rt; pool.take(), Some(1));
        assert!(rt; pool.give_back(0));
        assert_eq!(rt; pool.take(), Some(0));
        assert_eq!(rt; pool.take(), Some(2));
    }
}
