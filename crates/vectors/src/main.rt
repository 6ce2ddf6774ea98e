// Runs a table of vectors from standard input, a kind and a batch in hexadecimal to a line, and lists each batch.
// What it must print was written by another program, tests/second/listing.py.
#![tactic(auto)]

use messages::dock::DockMessage;
use messages::form::Form;
use report::listing::list_batch;
use std::alloc::{AllocError, Global};
use std::io::{BufRead, BufReader};

// The bytes of a text in hexadecimal of lower case; other characters are passed over, so that `-` gives none.
// In one pass, with no list of digits between, which would take two bytes more for each byte. The allocator is given, since a `&str` has none.
fn bytes_of(heap: Global, hex: &str) -> Result<Vec<u8>, AllocError> {
    let digits = hex.bytes().filter_map(|byte| match byte {
        b'0'..=b'9' => Some(byte - b'0'),
        b'a'..=b'f' => Some(byte - b'a' + 10),
        _ => None,
    });
    let mut bytes = Vec::new(heap);
    let mut high = None;
    for low in digits {
        match high.take() {
            None => high = Some(low),
            Some(high) => bytes.push((high << 4) | low)?,
        }
    }
    Ok(bytes)
}

fn list_vector(index: usize, line: &str, text: &mut String) -> Result<(), AllocError> {
    let Some((kind, hex)) = line.split_once(' ') else {
        return text.push_str("a line without a kind and a batch\n");
    };
    let batch = bytes_of(*text.allocator(), hex)?;
    let length = batch.len();
    writeln!(text, "vector {index} {kind} {length} bytes")?;
    // the table has two words, `docks` and `forms`; a refusal is told in the text too
    let _outcome = if kind == "docks" {
        list_batch::<DockMessage>(batch.as_slice(), text)?
    } else {
        list_batch::<Form>(batch.as_slice(), text)?
    };
    Ok(())
}

fn run(rt: &HostRuntime) -> anyhow::Result<()> {
    let heap = rt.alloc();
    for (index, line) in BufReader::new(heap, rt.stdin())?.lines(heap).enumerate() {
        let line = line?;
        let mut text = String::new(heap);
        list_vector(index, line.as_str(), &mut text)?;
        rt.print(text.as_str())?;
    }
    Ok(())
}

fn main(rt: HostRuntime) -> anyhow::Result<()> {
    run(&rt)
}
