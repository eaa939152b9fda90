//! The members whose names were heard, and where they are.

use std::alloc::{AllocError, Global};
use std::collections::BTreeMap;
use std::net::{IpAddr, SocketAddr};

/// A member, by the order in which names were heard.
#[derive(Clone, Copy, PartialEq, Eq, PartialOrd, Ord)]
pub struct Member(u32);

/// Puts members into their order, each once.
pub(crate) fn order(members: &mut Vec<Member>) {
    members.sort_unstable();
    members.dedup();
}

/// Whether a member is among some that are in their order.
pub(crate) fn has(members: &[Member], member: Member) -> bool {
    members.binary_search(&member).is_ok()
}

/// The most members (own). Others are left out.
const MAX_MEMBERS: usize = 65_536;

/// The most addresses and ports at which members are (own). Others are left out.
const MAX_ENDS: usize = 65_536;

/// Who is at an address and port.
#[derive(Clone, Copy)]
struct Owner {
    member: Member,
    /// Whether it says so itself.
    is_own: bool,
}

/// A member that is where another one was, and from when on.
#[derive(Clone, Copy)]
pub(crate) struct Heir {
    pub(crate) member: Member,
    pub(crate) time: u64,
}

/// The members, and where they are.
#[derive(Drop)]
pub struct Members {
    alloc: Global,
    numbers: BTreeMap<Vec<u8>, Member>,
    names: Vec<Vec<u8>>,
    owners: BTreeMap<SocketAddr, Owner>,
    /// The last that took the address and port of each.
    heirs: BTreeMap<Member, Heir>,
}

impl Members {
    /// None yet.
    pub(crate) fn new(alloc: Global) -> Members {
        Members {
            alloc,
            numbers: BTreeMap::new(alloc),
            names: Vec::new(alloc),
            owners: BTreeMap::new(alloc),
            heirs: BTreeMap::new(alloc),
        }
    }

    /// The name of a member.
    pub fn name(&self, member: Member) -> &[u8] {
        match self.names.get(member.0 as usize) {
            Some(name) => name,
            None => &[],
        }
    }

    /// The member with this name. None if there are too many, or the name is empty.
    ///
    /// # Errors
    ///
    /// `AllocError` if out of memory.
    pub(crate) fn named(&mut self, name: &[u8]) -> Result<Option<Member>, AllocError> {
        if name.is_empty() {
            return Ok(None);
        }
        let key = name.to_vec(self.alloc)?;
        if let Some(member) = self.numbers.get(&key) {
            return Ok(Some(*member));
        }
        if MAX_MEMBERS <= self.names.len() {
            return Ok(None);
        }
        let member = Member(u32::try_from(self.names.len()).unwrap_or(u32::MAX));
        self.names.push(name.to_vec(self.alloc)?)?;
        self.numbers.insert(key, member)?;
        Ok(Some(member))
    }

    /// Notes that at this time a member is at this address and port. What it says itself counts for
    /// more than what others say.
    ///
    /// # Errors
    ///
    /// `AllocError` if out of memory.
    pub(crate) fn note(
        &mut self,
        end: SocketAddr,
        name: &[u8],
        is_own: bool,
        time: u64,
    ) -> Result<(), AllocError> {
        match self.owners.get(&end) {
            Some(owner) if owner.is_own && !is_own => return Ok(()),
            Some(owner) if owner.is_own == is_own && self.name(owner.member) == name => {
                return Ok(());
            }
            None if MAX_ENDS <= self.owners.len() => return Ok(()),
            _ => {}
        }
        let Some(member) = self.named(name)? else {
            return Ok(());
        };
        let before = self.owners.insert(end, Owner { member, is_own })?;
        match before {
            Some(owner) if owner.is_own && owner.member != member => {
                self.heirs.insert(owner.member, Heir { member, time })?;
            }
            _ => {}
        }
        Ok(())
    }

    /// The member that took the address and port of another, if one did.
    pub(crate) fn heir(&self, member: Member) -> Option<Heir> {
        self.heirs.get(&member).copied()
    }

    /// The member whose agent listens at this address and port.
    pub(crate) fn listening(&self, end: SocketAddr) -> Option<Member> {
        self.owners.get(&end).map(|owner| owner.member)
    }

    /// The member whose agent listens at this address and port, or the only one at the address.
    pub(crate) fn at(&self, end: SocketAddr) -> Option<Member> {
        match self.listening(end) {
            Some(member) => Some(member),
            None => self.at_host(end.ip()),
        }
    }

    /// The only member at this address.
    pub(crate) fn at_host(&self, host: IpAddr) -> Option<Member> {
        let mut found = None;
        for (end, owner) in self.owners.range(SocketAddr::new(host, 0)..) {
            if end.ip() != host {
                break;
            }
            match found {
                Some(member) if member != owner.member => return None,
                _ => found = Some(owner.member),
            }
        }
        found
    }
}
