//! Connections, and what came over them.

ghost use Rattle.std.specs.Prelude.{◌≡◌, ◌<◌, ◌∷◌, ◌++◌, [], IfOk, IfSome, IsPermutation, MatchBool};
ghost use Rattle.std.specs.Prelude.{OnErr, OnOk, OnSome, false, find, length, min, nat_le, position};
ghost use Rattle.std.specs.Bool.{OnFalse, OnTrue};
ghost use Rattle.std.specs.Option.{option_map, option_to_list};
ghost use Rattle.memberlist_member.specs.Connecting.{IsLookedAt, IsLookedAtLater, StaysOpen, has_conn};
ghost use Rattle.memberlist_member.specs.Connecting.{has_grown, is_overdue, looked_at, looks_now};
ghost use Rattle.memberlist_member.specs.Lists.{with_first, without_first};

use std::alloc::{AllocError, Global};

/// The most connections at once (net.go, `maxPushPullRequests`).
pub(crate) const MAX_CONNECTIONS: usize = 128;

/// After so many microseconds without more bytes, what came is looked at again (own).
const FIRST_LOOK: u64 = 10_000;

/// Why there is a connection.
#[derive(Clone, Copy, PartialEq, Eq)]
pub(crate) enum Purpose {
    /// Another member opened it.
    Theirs,
    /// To exchange tables, joining or not.
    PushPull { join: bool },
    /// To ask whether a member is alive, with this number.
    Ping { seq: u32 },
}

/// A connection.
#[derive(Drop)]
pub(crate) struct Connection {
    pub(crate) conn: u64,
    pub(crate) purpose: Purpose,
    pub(crate) came: Vec<u8>,
    /// What is to be written once it is open.
    pub(crate) first: Vec<u8>,
    /// When it is closed.
    pub(crate) due: u64,
    /// How many bytes there were when they were last looked at.
    looked: usize,
    /// When they are looked at again, if no more come; and how long after that.
    look_at: u64,
    look_after: u64,
}

impl Connection {
    /// A connection over which nothing came yet.
    pub(crate) fn new(
        alloc: Global,
        conn: u64,
        purpose: Purpose,
        first: Vec<u8>,
        due: u64,
    ) -> Connection
        ensures conn { result.conn ≡ conn }
        ensures purpose { result.purpose ≡ purpose }
        ensures came { result.came.items ≡ [] }
        ensures first { result.first ≡ first }
        ensures due { result.due ≡ due }
        ensures looked { IsLookedAt result }
        ensures after { result.look_after ≡ 10_000 }
    {
        Connection {
            conn,
            purpose,
            came: Vec::new(alloc),
            first,
            due,
            looked: 0,
            look_at: due,
            look_after: FIRST_LOOK,
        }
    }

    /// Adds bytes that came. Returns whether they are looked at now: a message is whole or not, and
    /// looking takes time by its length, so it is done when it has grown by a quarter.
    ///
    /// # Errors
    ///
    /// `AllocError` if out of memory: nothing is changed.
    pub(crate) fn take(&mut self, now: u64, bytes: &[u8]) -> Result<bool, AllocError>
        ensures came { OnOk result (self.new.came.items ≡ self.old.came.items ++ bytes.now) }
        ensures looks { IfOk result (λ looks.
            looks ≡ has_grown self.old (length self.new.came.items)) }
        ensures looked { IfOk result (λ looks. MatchBool looks (IsLookedAt self.new)
            (IsLookedAtLater now self.old self.new)) }
        ensures stays { StaysOpen self.old self.new }
        ensures after { self.new.look_after ≡ self.old.look_after }
        ensures refused { OnErr result (self.new.came.items ≡ self.old.came.items) }
        ensures as_before { OnErr result
            ((self.new.looked ≡ self.old.looked) × (self.new.look_at ≡ self.old.look_at)) }
    {
        self.came.extend_from_slice(bytes)?;
        let len = self.came.len();
        if self.looked.saturating_add(self.looked / 4) <= len {
            self.looked = len;
            self.look_at = self.due;
            return Ok(true);
        }
        self.look_at = now.saturating_add(self.look_after);
        Ok(false)
    }

    /// Whether bytes that came are to be looked at again now.
    pub(crate) fn looks_again(&mut self, now: u64) -> bool
        ensures looks { result ≡ looks_now now self.old }
        ensures looked { OnTrue result (self.new ≡ looked_at self.old) }
        ensures as_before { OnFalse result (self.new ≡ self.old) }
    {
        if !self.is_to_look_at(now) {
            return false;
        }
        self.looked = self.came.len();
        self.look_at = self.due;
        self.look_after = self.look_after.saturating_mul(2);
        true
    }

    /// Whether there are bytes that were not looked at, and it is time to.
    fn is_to_look_at(&self, now: u64) -> bool
        ensures { result ≡ looks_now now self.now }
    {
        self.look_at <= now && self.looked != self.came.len()
    }

    /// When there is something to do if nothing comes.
    pub(crate) fn wakes_at(&self) -> u64
        ensures { result ≡ min self.now.due self.now.look_at }
    {
        self.due.min(self.look_at)
    }
}

/// All connections.
#[derive(Drop)]
pub(crate) struct Connections {
    pub(crate) list: Vec<Connection>,
}

impl Connections {
    /// None.
    pub(crate) fn new(alloc: Global) -> Connections
        ensures { result.list.items ≡ [] }
    {
        Connections {
            list: Vec::new(alloc),
        }
    }

    /// Whether there are as many as there may be.
    pub(crate) fn is_full(&self) -> bool
        ensures { result ≡ nat_le 128 (length self.now.list.items) }
    {
        MAX_CONNECTIONS <= self.list.len()
    }

    /// Adds one.
    ///
    /// # Errors
    ///
    /// `AllocError` if out of memory: it is not added.
    pub(crate) fn add(&mut self, connection: Connection) -> Result<(), AllocError>
        ensures added { OnOk result
            (self.new.list.items ≡ self.old.list.items ++ connection ∷ []) }
        ensures refused { OnErr result (self.new.list.items ≡ self.old.list.items) }
    {
        self.list.push(connection)?;
        Ok(())
    }

    /// The index of the one with this number.
    pub(crate) fn index_of(&self, conn: u64) -> Option<usize>
        ensures there { IfSome result (λ index. index < length self.now.list.items) }
        ensures first { result ≡ position (has_conn conn) self.now.list.items }
    {
        self.list.iter().position(|each| each.conn == conn)
    }

    /// One whose bytes are to be looked at again now.
    pub(crate) fn to_look_at(&mut self, now: u64) -> Option<u64>
        ensures which { result ≡ option_map (λ c. c.conn)
            (find (looks_now now) self.old.list.items) }
        ensures looked { self.new.list.items
            ≡ with_first (looks_now now) looked_at self.old.list.items }
    {
        let index = self.first_to_look_at(now)?;
        let each = &mut self.list[index];
        each.looks_again(now);
        Some(each.conn)
    }

    fn first_to_look_at(&self, now: u64) -> Option<usize>
        ensures there { IfSome result (λ index. index < length self.now.list.items) }
        ensures first { result ≡ position (looks_now now) self.now.list.items }
    {
        self.list.iter().position(|each| each.is_to_look_at(now))
    }

    /// One whose time is over.
    pub(crate) fn overdue(&self, now: u64) -> Option<u64>
        ensures { result ≡ option_map (λ c. c.conn)
            (find (is_overdue now) self.now.list.items) }
    {
        let each = self.list.iter().find(|each| each.due <= now)?;
        Some(each.conn)
    }

    /// Takes one out.
    pub(crate) fn remove(&mut self, conn: u64) -> Option<Connection>
        ensures which { result ≡ find (has_conn conn) self.old.list.items }
        ensures left { IsPermutation (without_first (has_conn conn) self.old.list.items)
            self.new.list.items }
    {
        let index = self.index_of(conn)?;
        Some(self.list.swap_remove(index))
    }
}
