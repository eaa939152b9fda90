//! Pings on behalf of others (`handleIndirectPing` in net.go).

ghost use Rattle.std.specs.Prelude.{◌≡◌, ◌≤◌, ◌∷◌, ◌++◌, [], OnErr, OnOk, find, length, position};
ghost use Rattle.std.specs.Option.{option_to_list};
ghost use Rattle.memberlist_member.specs.Lists.{newest, without_first};
ghost use Rattle.memberlist_member.specs.Relaying.{due_first, first_due, has_number};

use std::alloc::{AllocError, Global};
use std::net::SocketAddr;

/// The most pings on behalf of others that wait for an answer (own).
const MAX_RELAYS: usize = 1024;

/// A ping on behalf of another member.
#[derive(Clone, Copy)]
pub(crate) struct Relay {
    /// The number of this ping.
    pub(crate) seq: u32,
    /// Who asked for it, and the number that it gave.
    pub(crate) asker: SocketAddr,
    pub(crate) asked: u32,
    /// Until when an answer is passed on.
    pub(crate) due: u64,
    /// Whether the asker wants to know if none comes.
    pub(crate) wants_nack: bool,
}

/// Pings on behalf of others, oldest first.
#[derive(Drop)]
pub(crate) struct Relays {
    waiting: Vec<Relay>,
    ghost few: { length waiting.items ≤ 1024 },
}

impl Relays {
    /// None.
    pub(crate) fn new(alloc: Global) -> Relays
        ensures { result.waiting.items ≡ [] }
    {
        Relays {
            waiting: Vec::new(alloc),
        }
    }

    /// How many there are, at most 1,024.
    pub(crate) fn len(&self) -> usize
        ensures len { result ≡ length self.now.waiting.items }
        ensures few { result ≤ 1024 }
    {
        self.waiting.len()
    }

    /// Adds one; if there are too many the oldest is dropped.
    ///
    /// # Errors
    ///
    /// `AllocError` if out of memory: it is not added.
    pub(crate) fn add(&mut self, relay: Relay) -> Result<(), AllocError>
        ensures added { OnOk result (self.new.waiting.items
            ≡ newest 1023 self.old.waiting.items ++ relay ∷ []) }
        ensures refused { OnErr result (self.new.waiting.items
            ≡ newest 1023 self.old.waiting.items) }
        ensures few { length self.new.waiting.items ≤ 1024 }
    {
        if MAX_RELAYS <= self.waiting.len() {
            let _ = self.waiting.remove(0);
        }
        self.waiting.push(relay)?;
        Ok(())
    }

    /// Takes out the one with this number.
    pub(crate) fn take(&mut self, seq: u32) -> Option<Relay>
        ensures which { result ≡ find (has_number seq) self.old.waiting.items }
        ensures left { self.new.waiting.items
            ≡ without_first (has_number seq) self.old.waiting.items }
    {
        let place = self.place_of(seq)?;
        Some(self.waiting.remove(place))
    }

    fn place_of(&self, seq: u32) -> Option<usize>
        ensures { result ≡ position (has_number seq) self.now.waiting.items }
    {
        self.waiting.iter().position(|relay| relay.seq == seq)
    }

    /// Takes out the first that is due.
    pub(crate) fn take_due(&mut self, now: u64) -> Option<Relay>
        ensures which { result ≡ due_first now self.old.waiting.items }
        ensures left { self.old.waiting.items
            ≡ option_to_list result ++ self.new.waiting.items }
    {
        let first = self.waiting.first()?;
        if now < first.due {
            return None;
        }
        Some(self.waiting.remove(0))
    }

    /// When the first is due.
    pub(crate) fn wakes_at(&self) -> Option<u64>
        ensures { result ≡ first_due self.now.waiting.items }
    {
        Some(self.waiting.first()?.due)
    }
}
