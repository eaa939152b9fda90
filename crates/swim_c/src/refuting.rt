//! Refuting what others say about a node's member.

ghost use Rattle.std.specs.Prelude.{◌≡◌, false};
ghost use Rattle.swim_c.specs.Taking.{RefuteDone};
ghost use Rattle.swim_c.specs.Watching.{Noted};

use crate::status::DONE;
use crate::watching::Watched;
use std::alloc::Global;

/// The result of a refutation.
#[repr(C)]
#[derive(Clone, Copy)]
pub struct Refuted {
    pub status: u32,
    /// Whether a refutation was due.
    pub due: bool,
    /// Its incarnation.
    pub inc: u32,
}

impl Refuted {
    /// No refutation was made.
    pub fn unmade(status: u32) -> Refuted
        ensures { result ≡ record { status = status; due = false; inc = 0 } }
    {
        Refuted {
            status,
            due: false,
            inc: 0,
        }
    }
}

/// Refutes what others say about the member, if that is due, and notes its name.
pub fn refute(alloc: Global, held: &mut Watched) -> Refuted
    ensures refutes { RefuteDone result.status result.due result.inc
        held.old.node held.new.node }
    ensures noted { Noted held.old.changes held.new.changes
        result.status held.old.node held.new.node }
{
    match held.refute(alloc) {
        Ok(Some(inc)) => Refuted {
            status: DONE,
            due: true,
            inc,
        },
        Ok(None) => Refuted::unmade(DONE),
        Err(fault) => Refuted::unmade(fault.number()),
    }
}
