//! What datagrams and connections carry.

ghost use Rattle.std.specs.Prelude.{◌≡◌, ◌≢◌, ◌↔◌, List, false, Decides, IfOk, IfErr};
ghost use Rattle.std.specs.List.{list_all};
ghost use Rattle.swim_claim.specs.declared.claim.Claim.{Claim};
ghost use Rattle.swimwatch.specs.declared.heard.carriage.NoStream.TheVariants.{Memory};
ghost use Rattle.swimwatch.specs.Carriage.{IsStreamOf};
ghost use Rattle.swimwatch.specs.Datagrams.{IsCarriageOf, IsOfCluster, IsReadFrom, AreNameless, is_nameless};
ghost use Rattle.swimwatch.specs.Records.{claims_in};

use crate::heard::messages::Messages;
use crate::heard::records::{Records, read_records};
use memberlist_cipher::{CipherFault, split_label};
use memberlist_keyring::Keyring;
use memberlist_message::Message;
use memberlist_transport::{InTheClear, PacketFault, StreamFault, open_stream, unwrap_packet};
use memberlist_wrap::WrapFault;
use std::alloc::{AllocError, Global};
use swim_claim::Claim;
use swim_wire::{COMPOUND_MESSAGE, WireFault};

/// The most bytes of a stream without its wrappers, and of one direction of a connection.
pub(crate) const MAX_STREAM_LEN: usize = 33_554_432;

/// The first byte of an encrypted stream, as in memberlist's `net.go`.
pub(crate) const ENCRYPTED: u8 = 10;

/// Which packets and streams are opened, with which keys, and what becomes of those in the clear.
#[derive(Clone, Copy)]
pub(crate) struct Opening<'a> {
    pub(crate) keys: &'a Keyring,
    pub(crate) clear: InTheClear,
    /// The label of the only cluster whose datagrams are heard; empty if all are.
    pub(crate) label: &'a [u8],
}

/// What a datagram carries.
#[derive(Drop)]
pub(crate) enum Carriage {
    /// These messages of memberlist. There may be none in a compound message.
    Read(Messages),
    /// It is encrypted, and no key decrypts it.
    Closed,
    /// It is not encrypted, and only what is encrypted is read.
    Unencrypted,
    /// It is not a message of memberlist.
    Foreign,
}

/// What a datagram carries. If it is encrypted, the first key that works decrypts it.
///
/// # Errors
///
/// If out of memory.
pub(crate) fn carriage_of(
    alloc: Global,
    keys: &Keyring,
    clear: InTheClear,
    payload: &[u8],
) -> Result<Carriage, AllocError>
    ensures { IfOk result (λ carriage. IsCarriageOf clear keys.now payload.now carriage) }
{
    match unwrap_packet(alloc, keys, clear, payload) {
        Ok(bytes) => carriage_in(alloc, &bytes),
        Err(PacketFault::Memory) => Err(AllocError),
        Err(PacketFault::NoKeyFits) => Ok(Carriage::Closed),
        Err(PacketFault::Unencrypted) => Ok(Carriage::Unencrypted),
        Err(_) => Ok(Carriage::Foreign),
    }
}

/// Whether a packet is of the cluster with this label. If there is none, each is.
pub(crate) fn is_of_cluster(label: &[u8], payload: &[u8]) -> bool
    ensures { Decides result (IsOfCluster label.now payload.now) }
{
    if label.is_empty() {
        return true;
    }
    match split_label(payload) {
        Ok((other, _)) => other == label,
        Err(_) => false,
    }
}

/// What the unwrapped bytes of a datagram carry. What begins with a version of encryption, 0 or 1,
/// and has only pings that name nobody, is encrypted (memberlist's `security.go`).
fn carriage_in(alloc: Global, bytes: &[u8]) -> Result<Carriage, AllocError>
    ensures { IfOk result (λ carriage. IsReadFrom bytes.now carriage) }
{
    let messages = Messages::of(alloc, bytes)?;
    let first = bytes.first().copied();
    if are_messages(first, &messages.read) {
        return Ok(Carriage::Read(messages));
    }
    match first {
        Some(0 | 1) => Ok(Carriage::Closed),
        _ => Ok(Carriage::Foreign),
    }
}

/// Whether a datagram with this first byte is of memberlist, if these messages were read in it.
fn are_messages(first: Option<u8>, read: &[Message]) -> bool
    ensures { result ≡ false → AreNameless read.now }
{
    match first {
        Some(0 | 1) => !are_nameless(read),
        Some(COMPOUND_MESSAGE) => true,
        _ => !read.is_empty(),
    }
}

/// Whether there are only messages that name nobody.
fn are_nameless(messages: &[Message]) -> bool
    ensures { result ≡ list_all is_nameless messages.now }
{
    messages.iter().all(|message| is_nameless(message))
}

/// Whether a message is a ping or an indirect ping that does not name whom it asks. memberlist's do,
/// and random bytes seldom have a name.
fn is_nameless(message: &Message) -> bool
    ensures { result ≡ is_nameless message.now }
{
    match message {
        Message::Ping(ping) => ping.node.is_empty(),
        Message::IndirectPing(ping) => ping.node.is_empty(),
        _ => false,
    }
}

/// Why one direction of a connection has no claims.
#[derive(Clone, Copy, PartialEq, Eq)]
pub(crate) enum NoStream {
    /// It is encrypted, and no key decrypts it.
    Closed,
    /// It is not encrypted, and only what is encrypted is read.
    Unencrypted,
    /// Some of its bytes are missing.
    Cut,
    /// It is whole, and members do not merge it for the versions in its records.
    Versions,
    /// A record of it is invalid.
    Invalid(WireFault),
    /// It is a ping, an ack, a user message or an error, which make no claims.
    Claimless,
    /// It is not a stream of memberlist.
    Foreign,
    /// Out of memory.
    Memory,
}

impl From<AllocError> for NoStream {
    ghost from_gives = { λ _ cause. cause ≡ Memory };

    fn from(_error: AllocError) -> NoStream {
        NoStream::Memory
    }
}

/// The records of the push/pull stream in one direction of a connection, in order. If it is
/// encrypted, the first key that works decrypts it.
///
/// # Errors
///
/// See [`NoStream`].
pub(crate) fn stream_records(
    alloc: Global,
    keys: &Keyring,
    clear: InTheClear,
    bytes: &[u8],
) -> Result<Records, NoStream>
    ensures ok { IfOk result (λ records.
        IsStreamOf clear keys.now bytes.now (claims_in records.records.items)) }
    ensures none { IfErr result (λ cause. cause ≢ NoStream.Memory → (claims : List Claim)
        → ¬ IsStreamOf clear keys.now bytes.now claims) }
{
    match open_stream(alloc, keys, clear, bytes, MAX_STREAM_LEN) {
        Ok(stream) => match read_records(alloc, &stream) {
            Ok(records) => Ok(records),
            Err(WireFault::Memory) => Err(NoStream::Memory),
            Err(WireFault::Ended) => Err(NoStream::Cut),
            Err(fault) => Err(NoStream::Invalid(fault)),
        },
        Err(fault) => Err(cause_of(fault)),
    }
}

/// Why a stream that is refused with this fault has no claims.
pub(crate) fn cause_of(fault: StreamFault) -> NoStream
    ensures { (result ≡ NoStream.Memory) ↔ (fault ≡ StreamFault.Memory) }
{
    match fault {
        StreamFault::Memory => NoStream::Memory,
        StreamFault::Unencrypted => NoStream::Unencrypted,
        StreamFault::Closed(CipherFault::TooShort) => NoStream::Cut,
        StreamFault::Wrapped(WrapFault::Ended) => NoStream::Cut,
        StreamFault::Closed(_) | StreamFault::NoStream(ENCRYPTED) => NoStream::Closed,
        StreamFault::NoStream(0 | 2 | 8 | 13) => NoStream::Claimless,
        StreamFault::Wrapped(_) | StreamFault::NoStream(_) | StreamFault::Empty => {
            NoStream::Foreign
        }
    }
}
