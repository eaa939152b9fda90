//! The command line arguments.

use crate::command_line::chosen;
use crate::verb::{Chosen, Verb};
use memberlist_transport::InTheClear;
use std::alloc::{AllocError, Global};
use std::process::Abort;
use std::test::Fail;
use swim_program::WordFault;

/// Arguments that are accepted, what they ask for, those that name files, and those that name key
/// files.
const TAKEN: [(&[&str], Verb, &[&str], &[&str]); 9] = [
    (&[], Verb::Lines, &[], &[]),
    (&["--skip"], Verb::Skipping, &[], &[]),
    (&["stream"], Verb::Stream, &[], &[]),
    (&["stream", "x"], Verb::Stream, &["x"], &[]),
    (&["stream", "-"], Verb::Stream, &["-"], &[]),
    (&["stream", "--", "-x"], Verb::Stream, &["-x"], &[]),
    (
        &["--key-file", "a", "--key-file", "b"],
        Verb::Lines,
        &[],
        &["a", "b"],
    ),
    (
        &["stream", "--key-file", "b", "x"],
        Verb::Stream,
        &["x"],
        &["b"],
    ),
    (
        &["--key-file", "a", "stream", "--key-file", "b"],
        Verb::Stream,
        &[],
        &["a", "b"],
    ),
];

/// Arguments, and what becomes of what is in the clear.
const CLEAR: [(&[&str], InTheClear); 5] = [
    (&["--key-file", "a"], InTheClear::Refused),
    (&["--accept-clear"], InTheClear::Accepted),
    (&["stream", "x"], InTheClear::Refused),
    (&["stream", "--accept-clear", "x"], InTheClear::Accepted),
    (&["--accept-clear", "stream"], InTheClear::Accepted),
];

/// Arguments that are refused.
const REFUSED: [&[&str]; 12] = [
    &["x"],
    &["-"],
    &[""],
    &["--skip", "x"],
    &["--key-file"],
    &["--skip", "--skip"],
    &["--accept-clear=x"],
    &["stream", "x", "y"],
    &["stream", "--skip"],
    &["help"],
    &["--help"],
    &["stream", "--help"],
];

fn texts(alloc: Global, words: &[&str]) -> Result<Vec<String>, AllocError> {
    let mut texts = Vec::new(alloc);
    for word in words {
        texts.push(String::from_str(alloc, word)?)?;
    }
    Ok(texts)
}

/// What arguments ask for.
fn choice(alloc: Global, words: &[&str]) -> Result<Chosen, WordFault> {
    let words = texts(alloc, words)?;
    chosen(alloc, words.as_slice())
}

fn assert_files(rt: &impl Abort, files: &[String], wanted: &[&str]) {
    assert_eq!(rt; files.len(), wanted.len());
    for (file, word) in files.iter().zip(wanted) {
        assert_eq!(rt; file.as_str(), *word);
    }
}

/// Asserts that the arguments ask for this, with these files and key files.
fn assert_taken(
    rt: &impl Abort,
    alloc: Global,
    words: &[&str],
    verb: Verb,
    (files, key_files): (&[&str], &[&str]),
) -> Result<(), Fail> {
    let chosen = choice(alloc, words)?;
    assert_eq!(rt; chosen.verb(), verb, "{words:?}");
    assert_files(rt, chosen.files(), files);
    assert_files(rt, chosen.key_files(), key_files);
    Ok(())
}

#[test]
fn words_ask_for_a_verb_and_its_file(rt: HostRuntime) -> Result<(), Fail> {
    for (words, wanted) in CLEAR {
        let clear = choice(rt.alloc(), words)?.clear();
        assert_eq!(rt; clear, wanted, "{words:?}");
    }
    for (words, verb, files, key_files) in TAKEN {
        assert_taken(&rt, rt.alloc(), words, verb, (files, key_files))?;
    }
    Ok(())
}

/// The text with which arguments are refused.
fn refusal(rt: &impl Abort, alloc: Global, words: &[&str]) -> Result<String, Fail> {
    match choice(alloc, words) {
        Ok(_chosen) => panic!(rt; "{words:?} are taken"),
        Err(WordFault::Words(error)) => Ok(format!(in alloc; "{error}")?),
        Err(WordFault::Memory) => Err(Fail::from(WordFault::Memory)),
    }
}

/// Asserts that arguments are refused with a text that has each of these parts.
fn assert_refused(
    rt: &impl Abort,
    alloc: Global,
    words: &[&str],
    parts: &[&str],
) -> Result<(), Fail> {
    let text = refusal(rt, alloc, words)?;
    assert!(rt; !text.is_empty(), "{words:?}");
    for part in parts {
        assert!(rt; text.contains(part), "{part:?} in {text}");
    }
    Ok(())
}

#[test]
fn other_words_are_refused_with_a_text(rt: HostRuntime) -> Result<(), Fail> {
    for words in REFUSED {
        assert_refused(&rt, rt.alloc(), words, &[])?;
    }
    Ok(())
}

#[test]
fn help_and_version_tell_what_there_is(rt: HostRuntime) -> Result<(), Fail> {
    let asked: [(&[&str], &[&str]); 3] = [
        (
            &["--help"],
            &[
                "stream",
                "--skip",
                "--accept-clear",
                "hexadecimal",
                "encrypted",
            ],
        ),
        (&["--version"], &["swimunwrap 0.3.0", "rattle-kit-13f"]),
        (
            &["stream", "--help"],
            &[
                "swimunwrap stream [OPTIONS] [FILE]",
                "--key-file",
                "Example",
            ],
        ),
    ];
    for (words, parts) in asked {
        assert_refused(&rt, rt.alloc(), words, parts)?;
    }
    Ok(())
}
