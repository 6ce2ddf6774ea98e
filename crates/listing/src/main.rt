// The program `listing`: says what a batch on standard input holds, or what is wrong with it.
#![tactic(auto)]

use messages::dock::DockMessage;
use messages::form::Form;
use report::listing::list_batch;
use report::words::InWords;
use std::env;
use std::io::Read;
use std::str::FromStr;

const USAGE: &str = "usage: listing docks < batch
       listing forms < batch
Lists the calls of a batch of dock messages or of forms, or says what is wrong with it.
";

// The kind of the messages in a batch.
#[derive(Clone, Copy, Debug, PartialEq, Eq, Hash)]
enum Kind {
    Docks,
    Forms,
}

// A word that names no kind.
#[derive(Clone, Copy, Debug, PartialEq, Eq, Hash)]
struct UnknownKind;

impl FromStr for Kind {
    type Err = UnknownKind;

    fn from_str(word: &str) -> Result<Kind, UnknownKind> {
        match word {
            "docks" => Ok(Kind::Docks),
            "forms" => Ok(Kind::Forms),
            _ => Err(UnknownKind),
        }
    }
}

// The kind that just one word asks for; none where the words ask for nothing that is there.
fn asked_for(rt: &HostRuntime) -> anyhow::Result<Option<Kind>> {
    let mut words = env::args(rt)?.skip(1);
    let (Some(word), None) = (words.next(), words.next()) else {
        return Ok(None);
    };
    Ok(word.parse::<Kind>().ok())
}

fn list<M: InWords>(rt: &HostRuntime) -> anyhow::Result<()> {
    let heap = rt.alloc();
    let mut batch = Vec::new(heap);
    rt.stdin().read_to_end(&mut batch)?;
    let mut text = String::new(heap);
    // a refusal is told in the text too
    let _outcome = list_batch::<M>(batch.as_slice(), &mut text)?;
    rt.print(text.as_str())?;
    Ok(())
}

fn run(rt: &HostRuntime) -> anyhow::Result<()> {
    match asked_for(rt)? {
        Some(Kind::Docks) => list::<DockMessage>(rt),
        Some(Kind::Forms) => list::<Form>(rt),
        None => {
            rt.print(USAGE)?;
            Ok(())
        }
    }
}

fn main(rt: HostRuntime) -> anyhow::Result<()> {
    run(&rt)
}
