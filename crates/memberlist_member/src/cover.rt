//! What is around a message: a label, and an encryption.

ghost use Rattle.std.specs.Prelude.{◌≡◌, ◌<◌, [], IfOk, IfSome, OnSome, if◌then◌else◌, length, nat_lt};
ghost use Rattle.memberlist_cipher.specs.Label.{IsLabelled};
ghost use Rattle.memberlist_transport.specs.declared.in_the_clear.InTheClear.TheVariants as clear;
ghost use Rattle.memberlist_member.specs.Covers.{ClosesPacket, ClosesStream, HasLabel, OpensPacket};
ghost use Rattle.memberlist_member.specs.Covers.{OpensStreamOf, size_around};
ghost use Rattle.std.specs.Prelude.{Decides, MatchResult};

use memberlist_cipher::{CipherFault, split_label};
use memberlist_keyring::{Keyring, behind_label};
use memberlist_transport::{InTheClear, PacketFault, StreamFault, unwrap_packet, unwrap_reply};
use rand_core::Rng;
use std::alloc::{AllocError, Global};

/// The bytes of an encryption besides the message's: a version, a nonce and a tag.
const SEAL: usize = 29;

/// The most bytes of a stream, as in memberlist (`maxPushStateBytes`).
pub(crate) const MAX_STREAM: usize = 20 * 1024 * 1024;

/// What is around each message of a cluster.
#[derive(Drop)]
pub struct Cover {
    /// The cluster's keys; none if it does not encrypt. The first encrypts.
    pub keys: Keyring,
    /// Whether messages in the clear are read although there are keys (`GossipVerifyIncoming`).
    pub clear: InTheClear,
    label: Vec<u8>,
}

/// What comes of opening a packet or stream.
#[derive(Drop)]
pub(crate) enum Opened {
    Message(Vec<u8>),
    /// It is refused.
    Refused,
}

impl Cover {
    /// Without keys, and without a label.
    pub fn none(alloc: Global) -> Cover
        ensures keys { result.keys ≡ [] }
        ensures clear { result.clear ≡ clear.Refused }
        ensures label { result.label.items ≡ [] }
    {
        Cover {
            keys: Keyring::new(alloc),
            clear: InTheClear::Refused,
            label: Vec::new(alloc),
        }
    }

    /// The cluster's label, of at most 255 bytes; none if it is empty. Returns whether it is short
    /// enough.
    pub fn set_label(&mut self, label: Vec<u8>) -> bool
        ensures short { result ≡ nat_lt (length label.items) 256 }
        ensures label { self.new.label ≡ (if result then label else self.old.label) }
        ensures keys { self.new.keys ≡ self.old.keys }
        ensures clear { self.new.clear ≡ self.old.clear }
    {
        let is_short = label.len() < 256;
        if is_short {
            self.label = label;
        }
        is_short
    }

    /// How many bytes of a datagram it takes.
    pub(crate) fn size(&self) -> usize
        ensures { result ≡ size_around self.now }
    {
        let label = if self.label.is_empty() {
            0
        } else {
            2 + self.label.len()
        };
        let seal = if self.keys.is_empty() { 0 } else { SEAL };
        label + seal
    }

    /// The datagram with this message; none if it is too long.
    pub(crate) fn close_packet<R: Rng>(
        &self,
        alloc: Global,
        message: Vec<u8>,
        rng: &mut R,
    ) -> Result<Option<Vec<u8>>, AllocError>
        ensures { IfOk result (λ closed. IfSome closed (λ bytes.
            ClosesPacket self.now message.items bytes.items)) }
    {
        if self.keys.is_empty() {
            return self.labelled(alloc, message);
        }
        closed(self.keys.encrypt(alloc, &nonce(rng), &self.label, &message))
    }

    /// The stream with this message.
    pub(crate) fn close_stream<R: Rng>(
        &self,
        alloc: Global,
        message: Vec<u8>,
        is_reply: bool,
        rng: &mut R,
    ) -> Result<Option<Vec<u8>>, AllocError>
        ensures { IfOk result (λ closed. IfSome closed (λ bytes.
            ClosesStream self.now is_reply message.items bytes.items)) }
    {
        if self.keys.is_empty() {
            return if is_reply {
                Ok(Some(message))
            } else {
                self.labelled(alloc, message)
            };
        }
        let nonce = nonce(rng);
        closed(if is_reply {
            self.keys
                .encrypt_reply(alloc, &nonce, &self.label, &message)
        } else {
            self.keys
                .encrypt_stream(alloc, &nonce, &self.label, &message)
        })
    }

    fn labelled(&self, alloc: Global, message: Vec<u8>) -> Result<Option<Vec<u8>>, AllocError>
        ensures { IfOk result (λ closed. IfSome closed (λ bytes.
            IsLabelled bytes.items self.now.label.items message.items)) }
    {
        if message.first() == Some(&244) || 255 < self.label.len() {
            return Ok(None);
        }
        Ok(Some(behind_label(alloc, &self.label, message)?))
    }

    /// The message of a datagram, if it has this label.
    pub(crate) fn open_packet(&self, alloc: Global, bytes: &[u8]) -> Result<Opened, AllocError>
        ensures { IfOk result (OpensPacket self.now bytes.now) }
    {
        if !self.has_label(bytes) {
            return Ok(Opened::Refused);
        }
        match unwrap_packet(alloc, &self.keys, self.clear, bytes) {
            Ok(message) => Ok(Opened::Message(message)),
            Err(fault) => match fault {
                PacketFault::Memory => Err(AllocError),
                _ => Ok(Opened::Refused),
            },
        }
    }

    /// The message that came over a connection so far. A reply has no label.
    pub(crate) fn open_stream(
        &self,
        alloc: Global,
        bytes: &[u8],
        is_reply: bool,
    ) -> Result<Opened, AllocError>
        ensures { IfOk result (OpensStreamOf self.now is_reply bytes.now) }
    {
        if 255 < self.label.len() || (!is_reply && !self.has_label(bytes)) {
            return Ok(Opened::Refused);
        }
        match unwrap_reply(
            alloc,
            &self.keys,
            self.clear,
            &self.label,
            bytes,
            MAX_STREAM,
        ) {
            Ok(message) => Ok(Opened::Message(message)),
            Err(fault) => match fault {
                StreamFault::Memory => Err(AllocError),
                _ => Ok(Opened::Refused),
            },
        }
    }

    fn has_label(&self, bytes: &[u8]) -> bool
        ensures { Decides result (HasLabel self.now bytes.now) }
    {
        match split_label(bytes) {
            Ok((label, _)) => *label == *self.label.as_slice(),
            Err(_) => false,
        }
    }
}

/// What was encrypted.
fn closed(sealed: Result<Option<Vec<u8>>, CipherFault>) -> Result<Option<Vec<u8>>, AllocError>
    ensures { IfOk result (λ bytes. MatchResult sealed (λ made. bytes ≡ made) (λ _. bytes ≡ None)) }
{
    match sealed {
        Ok(bytes) => Ok(bytes),
        Err(CipherFault::Memory) => Err(AllocError),
        Err(_) => Ok(None),
    }
}

/// A nonce.
fn nonce<R: Rng>(rng: &mut R) -> [u8; 12] {
    let mut bytes = [0; 12];
    rng.fill_bytes(&mut bytes);
    bytes
}
