// The builds of a part that the program can be asked for.
use crate::part::use_part;
use crate::pools::Pool;
use crate::queues::Queue;
use pool::block_pool::bitmap::Bitmap;
use pool::block_pool::free_list::FreeList;
use ready::lines::PriorityLines;
use ready::sorted::SortedLine;
use std::alloc::AllocError;
use std::str::FromStr;

#[derive(Clone, Copy, Debug, PartialEq, Eq)]
pub(crate) enum Build {
    FreeList,
    Bitmap,
    PriorityLines,
    SortedLine,
}

// A word that names no build.
#[derive(Clone, Copy, Debug, PartialEq, Eq)]
pub(crate) struct UnknownBuild;

impl FromStr for Build {
    type Err = UnknownBuild;

    fn from_str(word: &str) -> Result<Self, UnknownBuild> {
        match word {
            "free-list" => Ok(Build::FreeList),
            "bitmap" => Ok(Build::Bitmap),
            "priority-lines" => Ok(Build::PriorityLines),
            "sorted-line" => Ok(Build::SortedLine),
            _ => Err(UnknownBuild),
        }
    }
}

impl Build {
    // Does the operations of the lines on a fresh part of this build.
    pub(crate) fn run(self, lines: &[String], text: &mut String) -> Result<(), AllocError> {
        match self {
            Build::FreeList => use_part(Pool(FreeList::new()), lines, text),
            Build::Bitmap => use_part(Pool(Bitmap::new()), lines, text),
            Build::PriorityLines => use_part(Queue(PriorityLines::new()), lines, text),
            Build::SortedLine => use_part(Queue(SortedLine::new()), lines, text),
        }
    }
}
