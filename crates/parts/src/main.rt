// The program `parts`: does operations on a block pool or a ready queue, one to a line of standard input, and prints what each answers.
#![tactic(auto)]

mod build;
mod operation;
mod part;
mod pools;
mod queues;

use build::{Build, UnknownBuild};
use part::{NoPart, use_part};
use std::alloc::{AllocError, Global};
use std::io::{BufRead, BufReader, Read};
use std::rt::Env;
use std::str::FromStr;
use std::{env, io};

const USAGE: &str = "usage: parts BUILD < operations
BUILD is free-list, bitmap, priority-lines or sorted-line.
pools: reset N, take, return N, count, free N
queues: reset, join T P, take best, best, length
";

// What the program is asked for: one part, or, for tests, a fresh one for each section.
#[derive(Clone, Copy, Debug, PartialEq, Eq)]
enum Task {
    One(Build),
    Sections,
}

impl FromStr for Task {
    type Err = UnknownBuild;

    fn from_str(word: &str) -> Result<Self, UnknownBuild> {
        match word {
            "all" => Ok(Task::Sections),
            _ => word.parse().map(Task::One),
        }
    }
}

// The build that a line `part BUILD` names.
fn part_line(line: &str) -> Option<Build> {
    line.strip_prefix("part ")?.parse().ok()
}

// Each section begins with a line `part BUILD` and has a fresh part of that build. The lines before the first have no part.
fn use_sections(lines: &[String], text: &mut String) -> Result<(), AllocError> {
    for section in lines.chunk_by(|_, line| part_line(line.as_str()).is_none()) {
        if let [first, operations @ ..] = section
            && let Some(build) = part_line(first.as_str())
        {
            writeln!(text, "{first}")?;
            build.run(operations, text)?;
        } else {
            use_part(NoPart, section, text)?;
        }
    }
    Ok(())
}

// The task that the program's word names, or none where it is given another word, several or none.
fn asked(rt: &(impl Env + Alloc)) -> io::Result<Option<Task>> {
    let mut words = env::args(rt)?.skip(1);
    match (words.next(), words.next()) {
        (Some(word), None) => Ok(word.as_str().parse().ok()),
        _ => Ok(None),
    }
}

// The allocator is given, since there is no text yet that has one.
fn input(heap: Global, stdin: impl Read + Drop) -> anyhow::Result<Vec<String>> {
    BufReader::new(heap, stdin)?
        .lines(heap)
        .map(|line| line.map_err(anyhow::Error::from))
        .try_collect(heap)
}

fn main(rt: HostRuntime) -> anyhow::Result<()> {
    let Some(task) = asked(&rt)? else {
        rt.print(USAGE)?;
        return Ok(());
    };
    let lines = input(rt.alloc(), rt.stdin())?;
    let mut text = String::new(rt.alloc());
    match task {
        Task::One(build) => build.run(&lines, &mut text)?,
        Task::Sections => use_sections(&lines, &mut text)?,
    }
    rt.print(text)?;
    Ok(())
}
