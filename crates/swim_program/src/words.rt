//! The words after a program's name, and why they are refused.

ghost use Rattle.std.specs.Prelude.{◌≡◌, [], map, string_bytes, unwrap_or, IfOk};
ghost use Rattle.clap.specs.Words.{found_of, rows_of};
ghost use Rattle.clap.specs.Walk.{all_of};
ghost use Rattle.swim_program.specs.declared.words.WordFault.TheVariants as words;
ghost use Rattle.swim_program.specs.Words.{IsFaultOf};

use clap::ArgMatches;
use clap::error::ErrorKind;
use std::alloc::{AllocError, Global};
use std::{env, io};

/// Why words were refused.
#[derive(Debug, Drop)]
pub enum WordFault {
    /// They ask for something unknown, or for help or the version.
    Words(clap::Error),
    /// Memory ran out.
    Memory,
}

impl From<clap::Error> for WordFault {
    ghost from_gives = { λ error fault. IsFaultOf error fault };

    fn from(error: clap::Error) -> WordFault {
        match error.kind() {
            ErrorKind::OutOfMemory => WordFault::Memory,
            _ => WordFault::Words(error),
        }
    }
}

impl From<AllocError> for WordFault {
    ghost from_gives = { λ _ fault. fault ≡ words.Memory };

    fn from(_error: AllocError) -> WordFault {
        WordFault::Memory
    }
}

/// The words after the program's name.
pub fn words_of(rt: &HostRuntime) -> io::Result<Vec<String>> {
    Ok(env::args(rt)?.skip(1).collect(rt.alloc())?)
}

/// The values of an argument, in order.
pub fn texts_of(alloc: Global, found: &ArgMatches, id: &str) -> Result<Vec<String>, AllocError>
    ensures { IfOk result (λ texts. map string_bytes texts.items
        ≡ unwrap_or (all_of id.now (rows_of (found_of found.now))) []) }
{
    match found.get_strs(id) {
        Some(words) => copies_of(alloc, words),
        None => Ok(Vec::new(alloc)),
    }
}

fn copies_of(alloc: Global, words: &[&str]) -> Result<Vec<String>, AllocError>
    ensures { IfOk result (λ copies. map string_bytes copies.items
        ≡ map (λ word. word.now) words.now) }
{
    let mut copies = Vec::new(alloc);
    for word in words {
        copies.push(String::from_str(alloc, word)?)?;
    }
    Ok(copies)
}
