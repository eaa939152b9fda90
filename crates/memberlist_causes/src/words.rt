//! What the agents of members sent, and when.

use crate::Member;
use std::alloc::{AllocError, Global};
use std::collections::{BTreeMap, VecDeque};

/// What an agent sent.
#[derive(Clone, Copy, PartialEq, Eq)]
pub enum Saying {
    /// A ping with this number.
    Ping(u32),
    Ack,
    /// Another datagram, or a stream.
    Other,
}

/// Something that an agent sent, as one capture has it.
#[derive(Clone, Copy)]
pub struct Word {
    /// In microseconds since the start of 1970.
    pub time: u64,
    /// To whom.
    pub to: Option<Member>,
    pub saying: Saying,
}

/// The most words that are kept of one member (own). With one more the oldest is forgotten.
const MAX_WORDS: usize = 131_072;

/// What the agents of members sent, in the order of the times.
#[derive(Drop)]
pub(crate) struct Words {
    alloc: Global,
    all: BTreeMap<Member, VecDeque<Word>>,
}

impl Words {
    /// Nothing yet.
    pub(crate) fn new(alloc: Global) -> Words {
        Words {
            alloc,
            all: BTreeMap::new(alloc),
        }
    }

    /// Notes what a member's agent sent.
    pub(crate) fn note(&mut self, member: Member, word: Word) -> Result<(), AllocError> {
        if let Some(words) = self.all.get_mut(&member) {
            if is_repeated(words, word) {
                return Ok(());
            }
            if MAX_WORDS <= words.len() {
                let _ = words.pop_front();
            }
            return words.push_back(word).map_err(AllocError::from);
        }
        let mut words = VecDeque::new(self.alloc);
        words.push_back(word)?;
        self.all.insert(member, words)?;
        Ok(())
    }

    /// What a member's agent sent.
    pub(crate) fn of(&self, member: Member) -> Option<&VecDeque<Word>> {
        self.all.get(&member)
    }

    /// Who sent something, and what.
    pub(crate) fn all(&self) -> &BTreeMap<Member, VecDeque<Word>> {
        &self.all
    }

    /// Forgets what was sent before this time.
    pub(crate) fn forget(&mut self, before: u64) {
        for words in self.all.values_mut() {
            forget_words(words, before);
        }
    }
}

/// Whether a word is another message of the last datagram, which tells no more.
fn is_repeated(words: &VecDeque<Word>, word: Word) -> bool {
    match words.back() {
        Some(last) => word.saying == Saying::Other && last.time == word.time,
        None => false,
    }
}

fn forget_words(words: &mut VecDeque<Word>, before: u64) {
    for _ in 0..words.len() {
        match words.front() {
            Some(word) if word.time < before => {
                let _ = words.pop_front();
            }
            _ => break,
        }
    }
}
