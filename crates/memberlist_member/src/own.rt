//! What a member says about itself.

ghost use Rattle.std.specs.Prelude.{◌≡◌, ◌-◌, ◌^◌, ◌<◌, ◌↔◌, IfOk, IsTrue, false, max};
ghost use Rattle.std.specs.Bool.{OnFalse, OnTrue};
ghost use Rattle.memberlist_view.specs.Rules.{is_same_place};
ghost use Rattle.memberlist_member.specs.Owns.{outdone, own_alive, own_leave, verdict_on};

use crate::claims;
use memberlist_view::MemberName;
use std::alloc::{AllocError, Global};
use swim_claim::{Claim, Details, Name};
use swim_wire::Packet;

/// Who a member is, when it begins.
#[derive(Drop)]
pub struct Identity {
    pub name: Name,
    /// Its first incarnation; memberlist's is 1. One that it had before it was stopped is refuted.
    pub inc: u32,
    pub details: Details,
}

/// What a member says about itself.
#[derive(Drop)]
pub(crate) struct Own {
    pub(crate) name: MemberName,
    pub(crate) inc: u32,
    pub(crate) details: Details,
    /// Whether it leaves, or has left.
    pub(crate) is_leaving: bool,
}

/// Whether a claim about this member is to be refuted.
#[derive(Clone, Copy)]
pub(crate) enum Verdict {
    /// It says what the member says itself, or said before.
    Stands,
    /// It says something else.
    Refute,
    /// Another member has this name.
    Conflict,
}

impl Own {
    /// A member that begins, and does not leave.
    pub(crate) fn new(identity: Identity) -> Own
        ensures { result ≡ record {
          name = identity.name;
          inc = identity.inc;
          details = identity.details;
          is_leaving = false;
        } }
    {
        let Identity { name, inc, details } = identity;
        Own {
            name: MemberName::new(name),
            inc,
            details,
            is_leaving: false,
        }
    }

    /// The member's own Alive.
    pub(crate) fn alive(&self, alloc: Global) -> Result<Packet, AllocError>
        ensures { IfOk result (λ packet. packet ≡ own_alive self.now) }
    {
        let name = self.name.name().try_clone(alloc)?;
        Ok(claims::alive(alloc, name, self.inc, self.details.try_clone(alloc)?))
    }

    /// Its leave.
    pub(crate) fn leave(&self, alloc: Global) -> Result<Packet, AllocError>
        ensures { IfOk result (λ packet. packet ≡ own_leave self.now) }
    {
        let name = self.name.name().try_clone(alloc)?;
        claims::dead(alloc, name, self.inc, self.name.name())
    }

    /// What becomes of a claim about this member (`aliveNode`, `suspectNode`, `deadNode`).
    pub(crate) fn judge(&self, claim: &Claim) -> Verdict
        ensures { result ≡ verdict_on self.now claim.now }
    {
        if self.is_leaving || claim.inc() < self.inc {
            return Verdict::Stands;
        }
        let Some(details) = claim.details() else {
            return Verdict::Refute;
        };
        if !is_same_place(details, &self.details) {
            return Verdict::Conflict;
        }
        if claim.inc() == self.inc && *details == self.details {
            return Verdict::Stands;
        }
        Verdict::Refute
    }

    /// Takes an incarnation above its own and this one (`refute`). Returns whether there is one.
    pub(crate) fn outdo(&mut self, accused: u32) -> bool
        ensures possible { IsTrue result ↔ (max self.old.inc accused < 2 ^ 32 - 1) }
        ensures done { OnTrue result (self.new ≡ outdone self.old accused) }
        ensures newer { OnTrue result (self.old.inc < self.new.inc) }
        ensures outdoes { OnTrue result (accused < self.new.inc) }
        ensures exhausted { OnFalse result (self.new ≡ self.old) }
    {
        match self.inc.max(accused).checked_add(1) {
            Some(inc) => {
                self.inc = inc;
                true
            }
            None => false,
        }
    }
}

/// Whether two details have the same address and port.
fn is_same_place(details: &Details, other: &Details) -> bool
    ensures { result ≡ is_same_place details.now other.now }
{
    details.addr().cmp(other.addr()).is_eq() && details.port() == other.port()
}
