//! Messages in hexadecimal, one a line, as `memberlist_message` reads and writes them. It is for
//! tests: `tests/messages` compares what it prints with memberlist.
#![tactic(auto)]

mod texts;

use anyhow::Result;
use memberlist_message::{Parts, decode_message};
use std::alloc::{AllocError, Global};
use std::io::{self, BufRead, BufReader, BufWriter, Write};
use texts::message_text;

fn main(rt: HostRuntime) -> Result<()> {
    let lines = BufReader::new(rt.alloc(), rt.reader())?.lines(rt.alloc());
    let mut out = BufWriter::new(rt.alloc(), io::writer(&rt))?;
    for line in lines {
        let text = shown(rt.alloc(), &line?)?;
        out.write_all(text.as_bytes())?;
    }
    out.flush()?;
    Ok(())
}

/// The lines that a line gives.
fn shown(alloc: Global, line: &str) -> Result<String, AllocError> {
    match hex::decode(alloc, line) {
        Ok(bytes) => match Parts::of(&bytes) {
            Some(parts) => parts_text(alloc, parts),
            None => message_text(alloc, decode_message(alloc, &bytes)),
        },
        Err(_) => String::from_str(alloc, "no hexadecimal\n"),
    }
}

/// A line for each part, and one that says how many there are and how many are truncated.
fn parts_text(alloc: Global, parts: Parts<'_>) -> Result<String, AllocError> {
    let mut text = String::new(alloc);
    let mut parts = parts;
    for count in 0..256 {
        match parts.next_part() {
            Some(part) => {
                let part = hex::encode(alloc, part)?;
                writeln!(text, "part {part}")?;
            }
            None => {
                let truncated = parts.untaken();
                writeln!(text, "compound {count} {truncated}")?;
                return Ok(text);
            }
        }
    }
    Ok(text)
}
