//! What was heard, and when.

ghost use Rattle.std.specs.Prelude.{◌≡◌, IfOk};
ghost use Rattle.memberlist_view.specs.Member.{is_alive};
ghost use Rattle.memberlist_view.specs.Heard.{about, accuser_of, said_in_packet, said_in_record};

use crate::member_name::MemberName;
use std::alloc::{AllocError, Global};
use swim_claim::{Claim, Details, Name};

/// What was said about a member.
#[derive(Drop)]
pub enum Said {
    /// memberlist's alive: the member is alive with these details.
    Alive {
        name: MemberName,
        inc: u32,
        details: Details,
        /// Whether a new name joins by it: it came by gossip, or it is the sender's own record in
        /// a push/pull whose Join is true.
        joins: bool,
    },
    /// memberlist's suspect, from the member that says so. A record of a stream names none.
    Suspect {
        name: MemberName,
        inc: u32,
        from: Option<MemberName>,
    },
    /// memberlist's dead, from the member that says so: if that is the member itself, it left. A
    /// record of a stream names none.
    Dead {
        name: MemberName,
        inc: u32,
        from: Option<MemberName>,
    },
    /// A dead from the member itself, or a record of a stream that says left.
    Left {
        name: MemberName,
        inc: u32,
    },
    /// No claim: a packet shows that the member is alive at this address and port. Metadata and
    /// versions are empty.
    Seen {
        name: MemberName,
        place: Details,
    },
}

/// What was heard, and when.
#[derive(Drop)]
pub struct Heard {
    /// The time, in microseconds since the start of 1970.
    pub time: u64,
    /// What was said.
    pub said: Said,
}

impl Said {
    /// What a record of a push/pull stream says: nobody is named. `joins` is for an alive one, as in
    /// [`Said::Alive`].
    pub fn of_record(claim: Claim, joins: bool) -> Said
        ensures { result ≡ said_in_record claim joins }
    {
        match claim {
            Claim::Alive { name, inc, details } => Said::Alive {
                name: MemberName::new(name),
                inc,
                details,
                joins,
            },
            Claim::Suspect { name, inc } => Said::Suspect {
                name: MemberName::new(name),
                inc,
                from: None,
            },
            Claim::Confirm { name, inc } => Said::Dead {
                name: MemberName::new(name),
                inc,
                from: None,
            },
            Claim::Leave { name, inc } => Said::Left {
                name: MemberName::new(name),
                inc,
            },
        }
    }

    /// What a packet says in the name of this member, whose bytes may be none: then nobody is named.
    ///
    /// # Errors
    ///
    /// If out of memory for that name. The claim is dropped.
    pub fn of_packet(alloc: Global, claim: Claim, from: &[u8]) -> Result<Said, AllocError>
        ensures { IfOk result (λ said. said ≡ said_in_packet claim (accuser_of from.now)) }
    {
        let from = accuser(alloc, from)?;
        Ok(Said::by(claim, from))
    }

    /// What a packet says, if this member says so.
    fn by(claim: Claim, from: Option<MemberName>) -> Said
        ensures { result ≡ said_in_packet claim from }
    {
        match claim {
            Claim::Alive { name, inc, details } => Said::Alive {
                name: MemberName::new(name),
                inc,
                details,
                joins: true,
            },
            Claim::Suspect { name, inc } => Said::Suspect {
                name: MemberName::new(name),
                inc,
                from,
            },
            Claim::Leave { name, inc } => Said::Left {
                name: MemberName::new(name),
                inc,
            },
            Claim::Confirm { name, inc } => Said::Dead {
                name: MemberName::new(name),
                inc,
                from,
            },
        }
    }

    /// Whether it is an Alive.
    pub(crate) fn is_alive(&self) -> bool
        ensures { result ≡ is_alive self.now }
    {
        matches!(self, Said::Alive { .. })
    }

    /// The member it was said about.
    pub fn name(&self) -> &MemberName
        ensures { result.now ≡ about self.now }
    {
        match self {
            Said::Alive { name, .. } => name,
            Said::Suspect { name, .. } => name,
            Said::Dead { name, .. } => name,
            Said::Left { name, .. } => name,
            Said::Seen { name, .. } => name,
        }
    }
}

/// Who makes a claim, if somebody is named.
fn accuser(alloc: Global, from: &[u8]) -> Result<Option<MemberName>, AllocError>
    ensures { IfOk result (λ name. name ≡ accuser_of from.now) }
{
    match Name::copied(alloc, from)? {
        Ok(name) => Ok(Some(MemberName::new(name))),
        Err(_) => Ok(None),
    }
}
