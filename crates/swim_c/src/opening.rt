//! A node from its parts.

ghost use Rattle.std.specs.Prelude.{◌≡◌, ◌∷◌, [], None, IfOk, IfErr};
ghost use Rattle.swim_claim.specs.declared.claim.Claim.TheVariants.{Alive};
ghost use Rattle.swim_table.specs.Table.{TableOf};
ghost use Rattle.swim_c.specs.Opening.{IsUnopened, open_number, told};
ghost use Rattle.swim_c.specs.declared.opening.OpenFault.TheVariants as opening;

use crate::status::MEMORY;
use crate::watching::Watched;
use std::alloc::{AllocError, Global};
use swim_claim::{ClaimFault, Details, Name};
use swim_table::Node;

/// What a member says about itself.
#[derive(Clone, Copy)]
pub struct Parts<'a> {
    pub name: &'a [u8],
    pub addr: &'a [u8],
    pub port: u16,
    pub meta: &'a [u8],
    pub vsn: &'a [u8],
}

/// Why no node was made.
#[derive(Drop)]
pub enum OpenFault {
    Claim(ClaimFault),
    Memory,
}

impl From<ClaimFault> for OpenFault {
    ghost from_gives = { λ fault made. made ≡ opening.Claim fault };

    fn from(fault: ClaimFault) -> OpenFault {
        OpenFault::Claim(fault)
    }
}

impl From<AllocError> for OpenFault {
    ghost from_gives = { λ _ made. made ≡ opening.Memory };

    fn from(_error: AllocError) -> OpenFault {
        OpenFault::Memory
    }
}

impl OpenFault {
    pub fn number(&self) -> u32
        ensures { result ≡ open_number self.now }
    {
        match self {
            OpenFault::Claim(fault) => fault.number(),
            OpenFault::Memory => MEMORY,
        }
    }
}

/// The node of a member whose start claim is the Alive with these parts. An invalid name is refused
/// before anything else.
pub fn open(alloc: Global, parts: Parts, inc: u32) -> Result<Box<Watched>, OpenFault>
    ensures name { IfOk result (λ held. held.value.node.name ≡ parts.entry.name.now) }
    ensures details { IfOk result (λ held. held.value.node.details
        ≡ told parts.entry.addr.now parts.entry.port parts.entry.meta.now parts.entry.vsn.now) }
    ensures table { IfOk result (λ held. TableOf held.value.node.table
        (Alive held.value.node.name inc held.value.node.details ∷ [])) }
    ensures changes { IfOk result (λ held. held.value.changes ≡ None) }
    ensures refused { IfErr result (IsUnopened parts.entry.name.now
        (told parts.entry.addr.now parts.entry.port parts.entry.meta.now parts.entry.vsn.now)) }
{
    let (name, details) = copied(alloc, parts)?;
    let node = Node::new(alloc, name, details, inc)?;
    match Box::new(alloc, Watched::new(node)) {
        Ok(held) => Ok(held),
        Err(_) => Err(OpenFault::Memory),
    }
}

/// Copies of the name and the details in these parts. An invalid name is refused before anything
/// else.
pub fn copied(alloc: Global, parts: Parts) -> Result<(Name, Details), OpenFault>
    ensures name { IfOk result (λ made. made.0 ≡ parts.entry.name.now) }
    ensures details { IfOk result (λ made. made.1
        ≡ told parts.entry.addr.now parts.entry.port parts.entry.meta.now parts.entry.vsn.now) }
    ensures refused { IfErr result (IsUnopened parts.entry.name.now
        (told parts.entry.addr.now parts.entry.port parts.entry.meta.now parts.entry.vsn.now)) }
{
    let name = Name::copied(alloc, parts.name)??;
    let meta = parts.meta.to_vec(alloc)?;
    let details = Details::of(parts.addr, parts.port, meta, parts.vsn)?;
    Ok((name, details))
}
