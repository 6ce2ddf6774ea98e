// The moves over real tables, run over both pools and both queues.
#![tactic(auto)]

#[cfg(test)]
mod tests {
    use plain::records::Sizes;
    use pool::block_pool::BlockPool;
    use pool::block_pool::bitmap::Bitmap;
    use pool::block_pool::free_list::FreeList;
    use ready::lines::PriorityLines;
    use ready::queue::ReadyQueue;
    use ready::sorted::SortedLine;
    use std::test::Fail;
    use tables::tables::Tables;

    // With two blocks a third message finds none; a block that was taken serves again, and the task has the message.
    fn blocks_come_back<P: BlockPool + Drop, Q: ReadyQueue + Drop>(
        pool: P,
        queue: Q,
    ) -> Result<(), Fail> {
        let sizes = Sizes {
            tasks: 4,
            exchanges: 2,
            blocks: 2,
        };
        let mut messages = [0u8; 2];
        let mut trays = [0u8; 4];
        let mut tables = Tables::new(sizes, pool, queue, &messages, &trays);
        let first = tables.put_message(0, 11, &mut messages, &mut trays);
        let second = tables.put_message(1, 12, &mut messages, &mut trays);
        let third = tables.put_message(1, 13, &mut messages, &mut trays);
        tables.take(3, 0, &messages, &mut trays);
        let fourth = tables.put_message(0, 14, &mut messages, &mut trays);
        tables.settle(&messages, &trays);
        let told = tables.sizes();
        let (_pool, _queue) = tables.into_parts();
        let holds = first
            && second
            && fourth
            && !third
            && trays[3] == 11
            && messages[0] == 14
            && messages[1] == 12
            && told.tasks == 4;
        Ok(
            holds
                .then_some(())
                .ok_or("a claim of the test does not hold")?,
        )
    }

    #[test]
    fn bitmap_and_lines() -> Result<(), Fail> {
        blocks_come_back(Bitmap::new(), PriorityLines::new())
    }

    #[test]
    fn free_list_and_line() -> Result<(), Fail> {
        blocks_come_back(FreeList::new(), SortedLine::new())
    }
}
