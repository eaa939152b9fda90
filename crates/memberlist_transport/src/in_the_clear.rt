//! What becomes of what is not encrypted.

ghost use Rattle.memberlist_transport.specs.InTheClear.{AcceptsClear};
ghost use Rattle.std.specs.Prelude.{MatchBool};

use memberlist_keyring::Keyring;

/// What becomes of packets and streams in the clear if there are keys. Without keys all are in the
/// clear.
#[derive(Clone, Copy, Debug, PartialEq, Eq)]
pub enum InTheClear {
    /// They are refused, as in memberlist by default (`GossipVerifyIncoming` in its config.go).
    Refused,
    /// They are read, as in a cluster that begins or ends to encrypt.
    Accepted,
}

impl InTheClear {
    /// Whether what is in the clear is read with these keys.
    pub(crate) fn is_accepted(self, keys: &Keyring) -> bool
        ensures { MatchBool result (AcceptsClear self keys.now) (¬ AcceptsClear self keys.now) }
    {
        match self {
            InTheClear::Refused => keys.is_empty(),
            InTheClear::Accepted => true,
        }
    }
}
