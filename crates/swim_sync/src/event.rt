//! Events in a cluster.

ghost use Rattle.std.specs.Prelude.{◌≡◌, List, IfOk};
ghost use Rattle.swim_claim.specs.declared.claim.Claim.{Claim};

use std::alloc::{AllocError, Global};
use std::marker::Model;
use swim_claim::Claim;

/// Claims, such as those of one datagram, that a node takes in together. Contracts see them as the
/// list of the claims.
#[derive(Drop)]
pub struct Claims {
    claims: Vec<Claim>,
}

impl Model for Claims {
    ghost use Rattle.std.specs.Prelude.{List};
    ghost use Rattle.swim_claim.specs.declared.claim.Claim.{Claim};

    ghost Value = { List Claim };

    ghost view = { λ c. c.claims.items };
}

impl Claims {
    /// These claims, in this order. It takes no memory.
    pub fn new(claims: Vec<Claim>) -> Claims
        ensures { result ≡ claims.items }
    {
        Claims { claims }
    }

    /// The claims, in order. It takes no memory.
    pub fn claims(&self) -> &[Claim]
        ensures { result.now ≡ self.now }
    {
        &self.claims
    }

    /// Copies of the claims, in order.
    pub(crate) fn copies(&self, alloc: Global) -> Result<Vec<Claim>, AllocError>
        ensures { IfOk result (λ copies. copies.items ≡ self.now) }
    {
        let mut copies = Vec::with_capacity(alloc, self.claims.len())?;
        for claim in self.claims() {
            copies.push(claim.try_clone(alloc)?)?;
        }
        Ok(copies)
    }
}

/// An event in a cluster. It names a node by its number, counted from 0.
#[derive(Drop)]
pub enum Event {
    /// The node takes in a copy of the claim.
    Hear(usize, Claim),
    /// The node takes in copies of all the claims, or of none.
    HearAll(usize, Claims),
    /// The two nodes exchange their tables: each takes in the other's.
    Exchange(usize, usize),
    /// An exchange whose reply is lost: the second node takes in the first node's table, and the
    /// first node does not change.
    Half(usize, usize),
    /// The node refutes what is claimed about it. An exhausted refutation, or one of a node that is
    /// gone, stops nothing.
    Refute(usize),
}
