//! The command-line arguments.

use crate::command_line::chosen;
use crate::tests::assert_text;
use crate::verb::{Chosen, Verb};
use std::alloc::{AllocError, Global};
use std::process::Abort;
use std::test::Fail;
use swim_program::WordFault;

fn texts(alloc: Global, words: &[&str]) -> Result<Vec<String>, AllocError> {
    let mut texts = Vec::new(alloc);
    for word in words {
        texts.push(String::from_str(alloc, word)?)?;
    }
    Ok(texts)
}

/// What words ask for; if memory is refused, at the second try.
fn choice(alloc: Global, words: &[&str]) -> Result<Chosen, WordFault> {
    let words = texts(alloc, words)?;
    match chosen(alloc, words.as_slice()) {
        Err(WordFault::Memory) => chosen(alloc, words.as_slice()),
        answer => answer,
    }
}

#[test]
fn words_ask_for_a_verb_and_its_files(rt: HostRuntime) -> Result<(), Fail> {
    let chosen = choice(rt.alloc(), &["relate", "--", "-x", "--help"])?;
    assert_eq!(rt; chosen.verb(), Verb::Relate);
    assert_eq!(rt; chosen.files().len(), 2);
    for (file, wanted) in chosen.files().iter().zip(["-x", "--help"]) {
        assert_text(&rt, file.as_str(), wanted, "a file");
    }
    Ok(())
}

/// The text with which words are refused.
fn refusal(rt: &impl Abort, alloc: Global, words: &[&str]) -> Result<String, Fail> {
    match choice(alloc, words) {
        Ok(_chosen) => panic!(rt; "{words:?} are taken"),
        Err(WordFault::Words(error)) => Ok(format!(in alloc; "{error}")?),
        Err(WordFault::Memory) => Err(Fail::from(WordFault::Memory)),
    }
}

#[test]
fn other_words_are_refused_with_a_text(rt: HostRuntime) -> Result<(), Fail> {
    let text = refusal(&rt, rt.alloc(), &["list", "--help"])?;
    assert!(rt; text.contains("swimtab list <FILE>..."), "{text}");
    Ok(())
}
