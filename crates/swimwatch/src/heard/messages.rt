//! The messages of a datagram, part by part, as memberlist's handlers read them.

ghost use Rattle.std.specs.Prelude.{◌≡◌, ◌∷◌, [], ◌++◌, ℕ, List, map, IfOk, OnOk};
ghost use Rattle.memberlist_message.specs.Leaves.{AreLeaves};
ghost use Rattle.memberlist_message.specs.Messages.{message_of};
ghost use Rattle.swimwatch.specs.Datagrams.{values, if_read, messages_in, is_compressed, Unpacks, Gives, IsReadAs};

use memberlist_message::{Leaves, Message, decode_message};
use memberlist_wrap::{WrapFault, unwrap};
use std::alloc::{AllocError, Global};
use swim_wire::WireFault;

/// The first byte of a compressed message, as in memberlist's `net.go`.
const COMPRESSED: u8 = 9;

/// The most bytes that all compressed parts of a datagram may become (own), so that no datagram
/// makes more work than a few large ones.
const MAX_UNPACKED: usize = 1_048_576;

/// The messages of a datagram, in order.
#[derive(Drop)]
pub(crate) struct Messages {
    alloc: Global,
    pub(crate) read: Vec<Message>,
    /// How many parts are no messages, or are cut off.
    pub(crate) unread: u64,
    /// How many bytes compressed parts may still become.
    room: usize,
}

impl Messages {
    /// The messages in these bytes. A compound message gives those of its parts, whatever the other
    /// parts are (memberlist's `handleCompound` in net.go), and a compressed part those in it.
    ///
    /// # Errors
    ///
    /// If out of memory.
    pub(crate) fn of(alloc: Global, bytes: &[u8]) -> Result<Messages, AllocError>
        ensures { IfOk result (λ messages. IsReadAs bytes.now (values messages.read.items)) }
    {
        let leaves = Leaves::of(alloc, bytes)?;
        let mut messages = Messages {
            alloc,
            read: Vec::new(alloc),
            unread: leaves.truncated as u64,
            room: MAX_UNPACKED,
        };
        for leaf in &leaves.parts {
            messages.take_leaf(leaf)?;
        }
        Ok(messages)
    }

    /// Takes what is not compound.
    fn take_leaf(&mut self, bytes: &[u8]) -> Result<(), AllocError>
        ensures { OnOk result (Gives self.old.room bytes.now (values self.old.read.items)
            (values self.new.read.items) self.new.room) }
    {
        if is_compressed(bytes) {
            self.take_compressed(bytes)
        } else {
            self.take(bytes)
        }
    }

    /// Takes a message that is not compound.
    fn take(&mut self, bytes: &[u8]) -> Result<(), AllocError>
        ensures read { OnOk result (values self.new.read.items
            ≡ values self.old.read.items ++ if_read (message_of bytes.now)) }
        ensures room { OnOk result (self.new.room ≡ self.old.room) }
    {
        match decode_message(self.alloc, bytes) {
            Ok(message) => self.read.push(message).map_err(AllocError::from),
            Err(WireFault::Memory) => Err(AllocError),
            Err(_) => {
                self.unread = self.unread.saturating_add(1);
                Ok(())
            }
        }
    }

    /// Takes the messages in a compressed part (memberlist's `handleCompressed`).
    fn take_compressed(&mut self, bytes: &[u8]) -> Result<(), AllocError>
        ensures { OnOk result (Unpacks self.old.room bytes.now (values self.old.read.items)
            (values self.new.read.items) self.new.room) }
    {
        match unwrap(self.alloc, bytes, self.room) {
            Ok(inner) => {
                self.room = self.room.saturating_sub(inner.len());
                self.take_leaves(&inner)?;
                Ok(())
            }
            Err(WrapFault::Memory) => Err(AllocError),
            Err(_) => {
                self.unread = self.unread.saturating_add(1);
                Ok(())
            }
        }
    }

    /// Takes the leaves of a message.
    fn take_leaves(&mut self, bytes: &[u8]) -> Result<(), AllocError>
        ensures read { OnOk result ((leaves : List (List ℕ)) × (truncated : ℕ)
            × AreLeaves (bytes.now ∷ []) leaves truncated
            × (values self.new.read.items ≡ values self.old.read.items ++ messages_in leaves)) }
        ensures room { OnOk result (self.new.room ≡ self.old.room) }
    {
        let leaves = Leaves::of(self.alloc, bytes)?;
        self.unread = self.unread.saturating_add(leaves.truncated as u64);
        self.take_all(&leaves.parts)?;
        Ok(())
    }

    /// Takes messages that are not compound.
    fn take_all(&mut self, parts: &[&[u8]]) -> Result<(), AllocError>
        ensures read { OnOk result (values self.new.read.items
            ≡ values self.old.read.items ++ messages_in (map (λ part. part.now) parts.now)) }
        ensures room { OnOk result (self.new.room ≡ self.old.room) }
    {
        for part in parts {
            self.take(part)?;
        }
        Ok(())
    }
}

/// Whether this is a compressed message.
fn is_compressed(bytes: &[u8]) -> bool
    ensures { result ≡ is_compressed bytes.now }
{
    match bytes.split_first() {
        Some((first, _)) => *first == COMPRESSED,
        None => false,
    }
}
