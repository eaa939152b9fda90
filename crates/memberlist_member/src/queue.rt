//! The broadcasts that wait to be sent (`queue.go`).

ghost use Rattle.std.specs.Prelude.{◌≡◌, ◌≢◌, ◌+◌, ◌<◌, ◌≤◌, ℕ, []};
ghost use Rattle.std.specs.Prelude.{Decides, IfNone, IfOk, IfSome, OnErr, OnOk, length, map};
ghost use Rattle.std.specs.List.{All, AllPairs};
ghost use Rattle.std.specs.Str.{bytes_eq};
ghost use Rattle.memberlist_member.specs.Compound.{total};
ghost use Rattle.memberlist_member.specs.Queues.{AreApart, ArePicked, CanFollow, GoesBefore, IsAbout};
ghost use Rattle.memberlist_member.specs.Queues.{IsBest, IsFirstAbout, Takes, after_sending, cost};
ghost use Rattle.memberlist_member.specs.Queues.{put, unsent};

use std::alloc::{AllocError, Global};

/// A broadcast about a member.
#[derive(Drop)]
pub struct Broadcast {
    /// The name of the member that it is about.
    subject: Vec<u8>,
    bytes: Vec<u8>,
    /// How often it was sent.
    sent: u32,
    /// Which of two is newer: the one with the greater number.
    id: u64,
}

impl Broadcast {
    /// Whether it is sent before another one: one that was sent less often, of these a longer one,
    /// and of these a newer one.
    fn goes_before(&self, other: &Broadcast) -> bool
        ensures { Decides result (GoesBefore self.now other.now) }
    {
        if self.sent != other.sent {
            return self.sent < other.sent;
        }
        if self.bytes.len() != other.bytes.len() {
            return other.bytes.len() < self.bytes.len();
        }
        other.id < self.id
    }

    /// Whether its bytes and so many besides fit this room.
    fn fits(&self, overhead: usize, room: usize) -> bool
        ensures { Decides result (cost overhead self.now ≤ room) }
    {
        overhead <= room && self.bytes.len() <= room - overhead
    }

    /// Whether it is about the member with this name.
    fn is_about(&self, subject: &[u8]) -> bool
        ensures { result ≡ bytes_eq self.now.subject.items subject.now }
    {
        self.subject.as_slice() == subject
    }
}

/// The broadcasts that wait to be sent, at most one about each member.
#[derive(Drop)]
pub struct Queue {
    waiting: Vec<Broadcast>,
    /// How many broadcasts were ever added.
    next_id: u64,
    ghost numbered: { All (λ b. b.id < next_id) waiting.items },
    ghost distinct: { AllPairs (λ a b. a.id ≢ b.id) waiting.items },
}

/// What was picked for one datagram.
#[derive(Drop)]
struct Picked {
    ids: Vec<u64>,
    /// Copies of the bytes.
    parts: Vec<Vec<u8>>,
}

impl Queue {
    /// No broadcasts.
    pub fn new(alloc: Global) -> Queue
        ensures empty { result.waiting.items ≡ [] }
        ensures first { result.next_id ≡ 0 }
    {
        Queue {
            waiting: Vec::new(alloc),
            next_id: 0,
        }
    }

    /// How many broadcasts there are.
    pub fn len(&self) -> usize
        ensures len { result ≡ length self.now.waiting.items }
        ensures numbered { All (λ b. b.id < self.now.next_id) self.now.waiting.items }
        ensures distinct { AllPairs (λ a b. a.id ≢ b.id) self.now.waiting.items }
    {
        self.waiting.len()
    }

    /// Adds a broadcast about the member with this name. It takes the place of one about it that
    /// waits (`queueBroadcast`: the older one is no longer true).
    ///
    /// # Errors
    ///
    /// `AllocError` if out of memory, or once 2^64 - 1 broadcasts were added: nothing is changed.
    pub fn push(&mut self, subject: Vec<u8>, bytes: Vec<u8>) -> Result<(), AllocError>
        ensures added { OnOk result (self.new.waiting.items
            ≡ put (unsent subject bytes self.old.next_id) self.old.waiting.items) }
        ensures counted { OnOk result (self.new.next_id ≡ self.old.next_id + 1) }
        ensures refused { OnErr result (self.new.waiting.items ≡ self.old.waiting.items) }
        ensures uncounted { OnErr result (self.new.next_id ≡ self.old.next_id) }
    {
        let next_id = self.next_id.checked_add(1).ok_or(AllocError)?;
        let broadcast = Broadcast {
            subject,
            bytes,
            sent: 0,
            id: self.next_id,
        };
        match self.place_of(&broadcast.subject) {
            Some(place) => self.waiting[place] = broadcast,
            None => self.waiting.push(broadcast)?,
        }
        self.next_id = next_id;
        Ok(())
    }

    /// The index of the broadcast about the member with this name.
    fn place_of(&self, subject: &[u8]) -> Option<usize>
        ensures some { IfSome result (IsFirstAbout subject.now self.now.waiting.items) }
        ensures none { IfNone result ((other : ℕ) → ¬ IsAbout subject.now
            self.now.waiting.items other) }
    {
        for index in 0..self.waiting.len() {
            if self.waiting[index].is_about(subject) {
                return Some(index);
            }
        }
        None
    }

    /// Takes the broadcasts for one datagram, and gives copies of their bytes in the order in which
    /// they are picked (`GetBroadcasts`). The next one is the one that was sent least often of those
    /// that were not picked and fit the room that is left; of these the longest, and of these the
    /// newest. Each takes `overhead` bytes of the room besides its own. At most `most` are picked,
    /// since a compound message counts its parts in one byte. Each of them counts as sent once more,
    /// and leaves the queue once it was sent `limit` times.
    ///
    /// # Errors
    ///
    /// `AllocError` if out of memory: nothing is changed.
    pub fn take(
        &mut self,
        alloc: Global,
        overhead: usize,
        room: usize,
        most: usize,
        limit: u32,
    ) -> Result<Vec<Vec<u8>>, AllocError>
        ensures taken { IfOk result (λ parts. Takes overhead room most limit self.old.waiting.items
            self.new.waiting.items (map (λ p. p.items) parts.items)) }
        ensures room { IfOk result (λ parts.
            total overhead (map (λ p. p.items) parts.items) ≤ room) }
        ensures each { IfOk result (λ parts.
            All (λ p. overhead + length p.items ≤ room) parts.items) }
        ensures most { IfOk result (λ parts. length parts.items ≤ most) }
        ensures refused { OnErr result (self.new.waiting.items ≡ self.old.waiting.items) }
        ensures uncounted { self.new.next_id ≡ self.old.next_id }
        ensures below { All (λ b. b.sent < limit) self.old.waiting.items
            → All (λ b. b.sent < limit) self.new.waiting.items }
        ensures apart { AreApart self.old.waiting.items → AreApart self.new.waiting.items }
    {
        let Picked { ids, parts } = self.picks(alloc, overhead, room, most)?;
        count(&mut self.waiting, &ids, limit);
        Ok(parts)
    }

    /// The broadcasts for one datagram.
    fn picks(
        &self,
        alloc: Global,
        overhead: usize,
        room: usize,
        most: usize,
    ) -> Result<Picked, AllocError>
        ensures { IfOk result (λ picked. ArePicked overhead room most self.now.waiting.items
            picked.ids.items (map (λ p. p.items) picked.parts.items)) }
    {
        let mut ids = Vec::new(alloc);
        let mut parts = Vec::new(alloc);
        let mut last = None;
        let mut left = room;
        for _ in 0..most {
            let Some(index) = self.next_after(last, overhead, left) else {
                break;
            };
            let broadcast = &self.waiting[index];
            parts.push(broadcast.bytes.to_vec(alloc)?)?;
            ids.push(broadcast.id)?;
            left -= overhead + broadcast.bytes.len();
            last = Some(index);
        }
        Ok(Picked { ids, parts })
    }

    /// The index of the broadcast to pick after the last one that was picked, for this much room.
    /// Those before it do not fit, since there was no less room for them.
    fn next_after(&self, last: Option<usize>, overhead: usize, room: usize) -> Option<usize>
        requires { IfSome last (λ before. before < length self.now.waiting.items) }
        ensures best { let waiting = self.now.waiting.items in
            IsBest (CanFollow waiting last overhead room) waiting (length waiting) result }
        ensures there { IfSome result (λ found. found < length self.now.waiting.items) }
    {
        let mut best = None;
        for index in 0..self.waiting.len() {
            best = self.better(best, index, last, overhead, room);
        }
        best
    }

    /// The broadcast at this index, if it can be the next and goes before the one that was found,
    /// and else that one.
    fn better(
        &self,
        best: Option<usize>,
        index: usize,
        last: Option<usize>,
        overhead: usize,
        room: usize,
    ) -> Option<usize>
        requires best { IfSome best (λ found. found < length self.now.waiting.items) }
        requires index { index < length self.now.waiting.items }
        requires last { IfSome last (λ before. before < length self.now.waiting.items) }
        ensures best { let waiting = self.now.waiting.items in
            IsBest (CanFollow waiting last overhead room) waiting index best
            → IsBest (CanFollow waiting last overhead room) waiting (index + 1) result }
        ensures there { IfSome result (λ found. found < length self.now.waiting.items) }
    {
        let broadcast = &self.waiting[index];
        if !self.can_follow(broadcast, last, overhead, room) {
            return best;
        }
        let Some(found) = best else {
            return Some(index);
        };
        if broadcast.goes_before(&self.waiting[found]) {
            Some(index)
        } else {
            best
        }
    }

    /// Whether a broadcast fits this room, and goes after the last one that was picked.
    fn can_follow(
        &self,
        broadcast: &Broadcast,
        last: Option<usize>,
        overhead: usize,
        room: usize,
    ) -> bool
        requires { IfSome last (λ before. before < length self.now.waiting.items) }
        ensures { Decides result
            (CanFollow self.now.waiting.items last overhead room broadcast.now) }
    {
        if !broadcast.fits(overhead, room) {
            return false;
        }
        match last {
            Some(before) => self.waiting[before].goes_before(broadcast),
            None => true,
        }
    }
}

/// Counts the broadcasts with these numbers as sent once more. Those that were sent as often as the
/// limit says leave.
fn count(waiting: &mut Vec<Broadcast>, ids: &[u64], limit: u32)
    ensures { waiting.new.items ≡ after_sending limit ids.now waiting.old.items }
{
    for broadcast in waiting.iter_mut() {
        if ids.contains(&broadcast.id) {
            broadcast.sent = broadcast.sent.saturating_add(1);
        }
    }
    waiting.retain(|broadcast| broadcast.sent < limit || !ids.contains(&broadcast.id));
}
