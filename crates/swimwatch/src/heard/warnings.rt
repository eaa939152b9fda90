//! Suspicions that come with a ping to the suspect.

ghost use Rattle.std.specs.Prelude.{◌≡◌, List, IfOk};
ghost use Rattle.memberlist_message.specs.declared.message.Message.{Message};
ghost use Rattle.swimwatch.specs.Pinged.{HasPings, is_pinged};
ghost use Rattle.swimwatch.specs.Views.{is_warning};

use memberlist_message::Message;
use std::alloc::{AllocError, Global};
use std::collections::BTreeSet;
use swim_claim::Claim;
use swim_wire::Packet;

/// The most warnings that are remembered (own). With one more all are forgotten, and may be shown
/// again.
const MAX_KNOWN: usize = 65_536;

/// Who is pinged in a datagram, and by whom; by nobody, if the ping does not say.
#[derive(Drop)]
pub(crate) struct Pinged<'a> {
    pairs: BTreeSet<(&'a [u8], &'a [u8])>,
}

impl<'a> Pinged<'a> {
    /// The pings among these messages.
    ///
    /// # Errors
    ///
    /// If out of memory.
    pub(crate) fn among(alloc: Global, messages: &'a [Message]) -> Result<Pinged<'a>, AllocError>
        ensures { IfOk result (λ pinged. HasPings pinged.pairs messages.now) }
    {
        let mut pairs = BTreeSet::new(alloc);
        for message in messages {
            if let Message::Ping(ping) = message {
                pairs.insert((ping.node.as_slice(), ping.source_node.as_slice()))?;
            }
        }
        Ok(Pinged { pairs })
    }

    /// Whether a suspicion only warns the suspect: with each ping of a member that it suspects,
    /// memberlist sends its suspicion, so that the member can refute it (state.go, `probeNode`). It
    /// says nothing to others, and the ping may be answered.
    pub(crate) fn warns(&self, packet: &'a Packet) -> bool
        ensures { (messages : List Message) → HasPings self.now.pairs messages
            → result ≡ is_warning messages packet.now }
    {
        let Claim::Suspect { name, .. } = packet.claim() else {
            return false;
        };
        self.has(name.bytes(), packet.from_name()) || self.has(name.bytes(), &[])
    }

    /// Whether there is a ping to the suspect from the accuser.
    fn has(&self, suspect: &'a [u8], accuser: &'a [u8]) -> bool
        ensures { result ≡ is_pinged self.now.pairs suspect.now accuser.now }
    {
        self.pairs.contains(&(suspect, accuser))
    }
}

/// The warnings that were shown, so that each is shown once.
#[derive(Drop)]
pub(crate) struct Warnings {
    alloc: Global,
    known: BTreeSet<(Vec<u8>, Vec<u8>, u32)>,
}

impl Warnings {
    pub(crate) fn new(alloc: Global) -> Warnings {
        Warnings {
            alloc,
            known: BTreeSet::new(alloc),
        }
    }

    /// Notes a warning, and returns whether it is the first of this accuser at this incarnation.
    pub(crate) fn note(&mut self, packet: &Packet) -> Result<bool, AllocError> {
        if MAX_KNOWN <= self.known.len() {
            self.known = BTreeSet::new(self.alloc);
        }
        let suspect = packet.claim().name().bytes().to_vec(self.alloc)?;
        let accuser = packet.from_name().to_vec(self.alloc)?;
        Ok(self.known.insert((suspect, accuser, packet.claim().inc()))?)
    }
}
