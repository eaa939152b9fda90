//! The last intent to leave or to join that is believed of each name, by Serf's `serf.go`.
//!
//! Serf's status of a member follows from where memberlist has it and from what is believed here:
//! one that is up is alive or leaving, and one that is down failed or left.

ghost use Rattle.std.specs.Prelude.{◌≡◌, ◌≢◌, ◌+◌, ◌%◌, ◌^◌, ℕ, List, [], Some, None, IfOk, OnOk, OnErr, IsTrue};
ghost use Rattle.serf_view.specs.Intents.{intent_of, is_newer, leaving_of, leaving_after_join, leave_after, join_after, returned_after};

use std::alloc::{AllocError, Global};
use std::collections::BTreeMap;
use std::marker::Model;

/// Where memberlist has a member.
#[derive(Clone, Copy, PartialEq, Eq)]
pub enum Standing {
    /// Nothing was heard of it.
    Unknown,
    /// Alive or suspected.
    Up,
    /// Dead, or it left.
    Down,
}

/// What is believed of a name.
#[derive(Clone, Copy, Debug, PartialEq, Eq)]
pub struct Intent {
    /// The Lamport time of the last intent that was believed (Serf's `statusLTime`).
    pub time: u64,
    /// Whether the member intends to leave, or intended it before it went: Serf's status is leaving
    /// or left, and not alive or failed.
    pub leaving: bool,
}

/// The last intent that is believed of each name: of a member, Serf's `statusLTime` and what its
/// status says, and of another name, an entry of `recentIntents`. Nothing is ever forgotten.
#[derive(Drop)]
pub struct Intents {
    alloc: Global,
    known: BTreeMap<Vec<u8>, Intent>,
}

impl Model for Intents {
    ghost use Rattle.serf_view.specs.Intents.{Beliefs, beliefs_in};

    ghost Value = { Beliefs };

    ghost view = { λ s. beliefs_in s.known.entries };
}

impl Intents {
    /// Nothing is believed of any name. What grows later takes memory from the allocator.
    pub fn new(alloc: Global) -> Intents
        ensures { result ≡ [] }
    {
        Intents {
            alloc,
            known: BTreeMap::new(alloc),
        }
    }

    /// The last intent that is believed of the name. `None` if none was.
    pub fn get(&self, name: &[u8]) -> Option<Intent>
        ensures { result ≡ intent_of self.now name.now }
    {
        self.known.get(name).copied()
    }

    /// Whether the member with this name intends to leave, or intended it before it went.
    pub fn is_leaving(&self, name: &[u8]) -> bool
        ensures { result ≡ leaving_of (intent_of self.now name.now) }
    {
        match self.get(name) {
            Some(intent) => intent.leaving,
            None => false,
        }
    }

    /// Takes in an intent to leave (`handleNodeLeaveIntent`), and returns whether it is news, which
    /// Serf sends on: whether its time is greater than that of the intent that is believed, or than
    /// 0 if none is. Then it is believed: the member is leaving, or if it is down, it left. It
    /// takes memory only for news about a name of which nothing is believed.
    ///
    /// # Errors
    ///
    /// `AllocError` if there is not enough memory. What is believed is as it was.
    pub fn leave(&mut self, name: &[u8], time: u64) -> Result<bool, AllocError>
        ensures news { IfOk result (λ news. news ≡ is_newer (intent_of self.old name.now) time) }
        ensures intent { OnOk result
            (intent_of self.new name.now ≡ leave_after (intent_of self.old name.now) time) }
        ensures others { (other : List ℕ) → other ≢ name.now
            → intent_of self.new other ≡ intent_of self.old other }
        ensures err { OnErr result (self.new ≡ self.old) }
        ensures asks { OnErr result (intent_of self.old name.now ≡ None) }
        ensures asks_for_news { OnErr result
            (IsTrue (is_newer (intent_of self.old name.now) time)) }
    {
        if !is_newer(self.get(name), time) {
            return Ok(false);
        }
        self.put(
            name,
            Intent {
                time,
                leaving: true,
            },
        )?;
        Ok(true)
    }

    /// Takes in an intent to join (`handleNodeJoinIntent`), and returns whether it is news, as
    /// `leave` does. If it is, its time is believed, and an earlier intent to leave is taken back;
    /// but one that left stays so while it is down. It takes memory as `leave` does.
    ///
    /// # Errors
    ///
    /// `AllocError` if there is not enough memory. What is believed is as it was.
    pub fn join(&mut self, name: &[u8], time: u64, standing: Standing) -> Result<bool, AllocError>
        ensures news { IfOk result (λ news. news ≡ is_newer (intent_of self.old name.now) time) }
        ensures intent { OnOk result
            (intent_of self.new name.now ≡ join_after (intent_of self.old name.now) time standing) }
        ensures others { (other : List ℕ) → other ≢ name.now
            → intent_of self.new other ≡ intent_of self.old other }
        ensures err { OnErr result (self.new ≡ self.old) }
        ensures asks { OnErr result (intent_of self.old name.now ≡ None) }
        ensures asks_for_news { OnErr result
            (IsTrue (is_newer (intent_of self.old name.now) time)) }
    {
        let known = self.get(name);
        if !is_newer(known, time) {
            return Ok(false);
        }
        let leaving = stays_leaving(known, standing);
        self.put(name, Intent { time, leaving })?;
        Ok(true)
    }

    /// To call if memberlist believes an Alive of a member that was dead or had left
    /// (`handleNodeJoin`): the member is alive, and does not intend to leave. The time stays.
    /// Nothing comes of it if nothing is believed of the name.
    pub fn returned(&mut self, name: &[u8])
        ensures intent { intent_of self.new name.now
            ≡ returned_after (intent_of self.old name.now) }
        ensures others { (other : List ℕ) → other ≢ name.now
            → intent_of self.new other ≡ intent_of self.old other }
    {
        let Some(intent) = self.known.get_mut(name) else {
            return;
        };
        intent.leaving = false;
    }

    /// Believes this intent of the name.
    fn put(&mut self, name: &[u8], intent: Intent) -> Result<(), AllocError>
        ensures intent { OnOk result (intent_of self.new name.now ≡ Some intent) }
        ensures others { (other : List ℕ) → other ≢ name.now
            → intent_of self.new other ≡ intent_of self.old other }
        ensures err { OnErr result (self.new ≡ self.old) }
        ensures asks { OnErr result (intent_of self.old name.now ≡ None) }
    {
        if let Some(known) = self.known.get_mut(name) {
            *known = intent;
            return Ok(());
        }
        let key = name.to_vec(self.alloc)?;
        self.known.insert(key, intent)?;
        Ok(())
    }
}

/// Whether an intent of this time is newer than the one that is known.
fn is_newer(known: Option<Intent>, time: u64) -> bool
    ensures { result ≡ is_newer known time }
{
    match known {
        Some(intent) => intent.time < time,
        None => 0 < time,
    }
}

/// Whether a member still intends to leave after an intent to join.
fn stays_leaving(known: Option<Intent>, standing: Standing) -> bool
    ensures { result ≡ leaving_after_join standing (leaving_of known) }
{
    match (known, standing) {
        (Some(intent), Standing::Down) => intent.leaving,
        _ => false,
    }
}

/// The time of the intent to leave that the state of a push/pull stands for, by the status time
/// that it has for a member that left (`delegate.go`, `MergeRemoteState`): one more, and 0 after
/// the greatest, as Go counts. The status time of any other name counts as that of an intent to
/// join.
pub fn left_time(status_time: u64) -> u64
    ensures { result ≡ (status_time + 1) % 2 ^ 64 }
{
    status_time.wrapping_add(1)
}
