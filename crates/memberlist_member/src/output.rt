//! What a member wants done, and what it tells.

ghost use Rattle.std.specs.Prelude.{◌≡◌, ◌++◌, ◌∷◌, [], MatchBool, OnErr, OnOk, if◌then◌else◌};
ghost use Rattle.std.specs.List.{All};
ghost use Rattle.memberlist_member.specs.Outputs.{FitsIn};
ghost use Rattle.memberlist_member.specs.Traffic.{PutsOutAtMost, is_datagram, is_dial, is_write};

use memberlist_view::{Event, MemberName};
use std::alloc::{AllocError, Global};
use std::net::SocketAddr;

/// Something that a member wants done, or tells.
#[derive(Drop)]
pub enum Output {
    /// Send these bytes as a datagram.
    Send {
        to: SocketAddr,
        bytes: Vec<u8>,
    },
    /// Open a connection; from now on it has this number.
    Dial {
        conn: u64,
        to: SocketAddr,
    },
    /// Write these bytes to the connection.
    Write {
        conn: u64,
        bytes: Vec<u8>,
    },
    /// Close the connection once all is written.
    Close {
        conn: u64,
    },
    /// The view of a member changed: what, its incarnation, and who says so, if somebody is named.
    Changed {
        name: MemberName,
        event: Event,
        inc: u32,
        by: Option<MemberName>,
    },
    /// The member did not answer this probe, so it will be suspected: so many of those that were
    /// asked should have said that they got no answer either, and so many did.
    Unanswered {
        name: MemberName,
        seq: u32,
        expected: u32,
        nacks: u32,
    },
    /// This claim about the member fits no datagram, so it is told with tables alone.
    Untold {
        name: MemberName,
    },
    /// Somebody took this member for suspect or dead, or took its name; it said that it is alive, at
    /// this incarnation.
    Refuted {
        inc: u32,
    },
    /// The same, but its incarnation is the greatest there is.
    Exhausted,
    /// Members that have been dead or have left for long are forgotten.
    Forgotten {
        count: usize,
    },
    /// The leave was told as often as it is to be, or for long enough.
    Departed,
    /// The table that came over the connection is not merged: of those that are alive in it, or shown,
    /// not all understand each other's versions.
    Incompatible {
        conn: u64,
    },
    /// Another program's message.
    User {
        bytes: Vec<u8>,
    },
    /// Another program's state, from a member that joins or not.
    UserState {
        bytes: Vec<u8>,
        join: bool,
    },
}

/// What a member put out, in its order.
#[derive(Drop)]
pub struct Outputs {
    list: Vec<Output>,
    /// The most bytes of a datagram.
    limit: usize,
    ghost fits: { All (FitsIn limit) list.items },
}

impl Outputs {
    /// Nothing yet.
    pub(crate) fn new(alloc: Global, limit: usize) -> Outputs
        ensures empty { result.list.items ≡ [] }
        ensures limit { result.limit ≡ limit }
    {
        Outputs {
            list: Vec::new(alloc),
            limit,
        }
    }

    /// All of them.
    pub fn all(&self) -> &[Output]
        ensures same { result.now ≡ self.now.list.items }
        ensures fits { All (FitsIn self.now.limit) result.now }
    {
        &self.list
    }

    /// All of them, to be taken apart.
    pub fn into_all(self) -> Vec<Output>
        ensures same { result.items ≡ self.list.items }
        ensures fits { All (FitsIn self.limit) result.items }
    {
        self.list
    }

    /// Adds one, unless it is a datagram that is too long.
    ///
    /// # Errors
    ///
    /// `AllocError` if out of memory: nothing is changed.
    pub(crate) fn push(&mut self, output: Output) -> Result<(), AllocError>
        ensures limit { self.new.limit ≡ self.old.limit }
        ensures refused { OnErr result (self.new.list.items ≡ self.old.list.items) }
        ensures added { OnOk result (FitsIn self.old.limit output
            → self.new.list.items ≡ self.old.list.items ++ output ∷ []) }
        ensures most { PutsOutAtMost (if is_datagram output then 1 else 0)
            (if is_dial output then 1 else 0) (if is_write output then 1 else 0)
            self.old.list.items self.new.list.items }
    {
        if self.is_too_long(&output) {
            return Ok(());
        }
        self.list.push(output)?;
        Ok(())
    }

    /// Whether it is a datagram with too many bytes.
    fn is_too_long(&self, output: &Output) -> bool
        ensures { MatchBool result (¬ FitsIn self.now.limit output.now)
            (FitsIn self.now.limit output.now) }
    {
        match output {
            Output::Send { bytes, .. } => self.limit < bytes.len(),
            Output::Dial { .. }
            | Output::Write { .. }
            | Output::Close { .. }
            | Output::Changed { .. }
            | Output::Unanswered { .. }
            | Output::Untold { .. }
            | Output::Refuted { .. }
            | Output::Exhausted
            | Output::Forgotten { .. }
            | Output::Departed
            | Output::Incompatible { .. }
            | Output::User { .. }
            | Output::UserState { .. } => false,
        }
    }
}
