//! What Serf's messages say, which ride inside memberlist's.
//!
//! | module | subject |
//! |---|---|
//! | `vantage` | where a capture was taken, as its packets tell |
//! | `intention` | an intent about a member, and what it makes of the member |
//! | `queries` | queries, and who answered them |

pub(crate) mod intention;
pub(crate) mod queries;
pub(crate) mod vantage;

use crate::heard::sent::{Proto, Sent};
use serf_view::Intents;
use std::alloc::{AllocError, Global};
use std::collections::BTreeMap;
use vantage::Vantage;

/// What a listener knows by Serf's messages.
#[derive(Drop)]
pub(crate) struct Serf {
    /// Who leaves, or has left, as intents say.
    pub(crate) intents: Intents,
    /// Whether a member's state was heard: the events in the first one are older than the capture.
    pub(crate) is_late: bool,
    /// Where each capture was taken, by its number.
    vantages: BTreeMap<usize, Vantage>,
}

impl Serf {
    pub(crate) fn new(alloc: Global) -> Serf {
        Serf {
            intents: Intents::new(alloc),
            is_late: false,
            vantages: BTreeMap::new(alloc),
        }
    }

    /// Takes in between which hosts a packet of this capture went.
    pub(crate) fn note(&mut self, capture: usize, sent: &Sent) -> Result<(), AllocError> {
        if let Some(vantage) = self.vantages.get_mut(&capture) {
            vantage.note(sent);
        } else {
            self.vantages.insert(capture, Vantage::of(sent))?;
        }
        Ok(())
    }

    /// Whether news that is first seen now began with who sent it: a capture has all that went to
    /// the sender, or between all members, for long enough. A push/pull has what others began too.
    pub(crate) fn is_origin(&self, sent: &Sent) -> bool {
        sent.proto == Proto::Udp
            && self
                .vantages
                .values()
                .any(|vantage| vantage.has_all_to(sent))
    }
}
