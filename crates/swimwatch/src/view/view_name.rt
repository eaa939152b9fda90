//! The name of a view among several.

use std::alloc::{AllocError, Global};
use std::collections::BTreeMap;

/// Whose an end of a word is.
#[derive(Clone, Copy)]
enum Owner<'a> {
    /// Of this word alone.
    One(&'a str),
    /// Of several words.
    Several,
}

/// The words of all captures, and whose the ends of these words are, by how many folders the ends
/// have. The ends of more folders are noted only once they are asked for.
#[derive(Drop)]
pub(crate) struct ViewNames<'a> {
    alloc: Global,
    words: &'a [String],
    ends: Vec<BTreeMap<&'a str, Owner<'a>>>,
}

impl<'a> ViewNames<'a> {
    pub(crate) fn new(alloc: Global, words: &'a [String]) -> ViewNames<'a> {
        ViewNames {
            alloc,
            words,
            ends: Vec::new(alloc),
        }
    }

    /// The name of the view that begins with the capture of this word: the shortest end of the word,
    /// without the file's own ending, that no other word has: `w1` of `captures/w1.pcap`, or `a/w1`
    /// and `b/w1` of `a/w1.pcap` and `b/w1.pcap`.
    pub(crate) fn name<'b>(&mut self, word: &'b str) -> Result<&'b str, AllocError> {
        let parts = word.bytes().filter(|byte| *byte == b'/').count();
        for folders in 0..=parts {
            let name = end_of(word, folders);
            if self.is_own(word, folders, name)? {
                return Ok(name);
            }
        }
        Ok(word)
    }

    /// Whether no other word has this end with that many folders.
    fn is_own(&mut self, word: &str, folders: usize, end: &str) -> Result<bool, AllocError> {
        if self.ends.len() <= folders {
            let ends = ends_of(self.alloc, self.words, self.ends.len())?;
            self.ends.push(ends)?;
        }
        let Some(ends) = self.ends.get(folders) else {
            return Ok(false);
        };
        Ok(match ends.get(end) {
            Some(Owner::One(owner)) => *owner == word,
            Some(Owner::Several) => false,
            None => true,
        })
    }
}

/// Whose the ends of words with that many folders are.
fn ends_of<'a>(
    alloc: Global,
    words: &'a [String],
    folders: usize,
) -> Result<BTreeMap<&'a str, Owner<'a>>, AllocError> {
    let mut ends = BTreeMap::new(alloc);
    for word in words {
        let word = word.as_str();
        let end = end_of(word, folders);
        match ends.get_mut(end) {
            Some(owner) => {
                if !matches!(owner, Owner::One(other) if *other == word) {
                    *owner = Owner::Several;
                }
            }
            None => {
                ends.insert(end, Owner::One(word))?;
            }
        }
    }
    Ok(ends)
}

/// A file's name with that many folders before it, and without its ending.
fn end_of(word: &str, folders: usize) -> &str {
    let mut front = word;
    for _ in 0..=folders {
        match front.rsplit_once('/') {
            Some((before, _)) => front = before,
            None => return without_ending(word),
        }
    }
    match word.get(front.len().saturating_add(1)..) {
        Some(end) => without_ending(end),
        None => word,
    }
}

/// A path without the ending of its file: `a/w1` of `a/w1.pcap`.
fn without_ending(path: &str) -> &str {
    match path.rsplit_once('.') {
        Some((stem, ending)) if !ending.contains('/') && !stem.is_empty() && !stem.ends_with('/') =>
            { stem }
        _ => path,
    }
}
