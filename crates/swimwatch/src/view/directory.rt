//! Which member is at an address.

ghost use Rattle.std.specs.Prelude.{◌≡◌, IfOk};

use crate::text::endpoint::endpoint;
use memberlist_view::{Entry, MemberName, View};
use std::alloc::{AllocError, Global};
use std::collections::BTreeMap;
use std::net::{IpAddr, SocketAddr};

/// The members at one address, whatever their ports.
#[derive(Drop)]
struct Host {
    count: u64,
    /// The one that came last.
    last: MemberName,
}

/// The endpoints of the members in a view.
#[derive(Drop)]
pub(crate) struct Directory {
    alloc: Global,
    ends: BTreeMap<SocketAddr, MemberName>,
    hosts: BTreeMap<IpAddr, Host>,
}

impl Directory {
    pub(crate) fn new(alloc: Global) -> Directory {
        Directory {
            alloc,
            ends: BTreeMap::new(alloc),
            hosts: BTreeMap::new(alloc),
        }
    }

    /// Notes that a member is at this endpoint now, and no longer at the one where it was, if any.
    pub(crate) fn moved(
        &mut self,
        name: &MemberName,
        from: Option<SocketAddr>,
        to: SocketAddr,
    ) -> Result<(), AllocError> {
        if from == Some(to) {
            return Ok(());
        }
        if let Some(old) = from {
            if let Some(host) = self.hosts.get_mut(&old.ip()) {
                host.count = host.count.saturating_sub(1);
            }
        }
        self.ends.insert(to, copy_of(self.alloc, name)?)?;
        let count = match self.hosts.get(&to.ip()) {
            Some(host) => host.count.saturating_add(1),
            None => 1,
        };
        let last = copy_of(self.alloc, name)?;
        self.hosts.insert(to.ip(), Host { count, last })?;
        Ok(())
    }

    /// The member that a view has at this endpoint. If there is none, the only member that it has
    /// at the address, since a connection comes from a port of its own.
    pub(crate) fn member_at(&self, view: &View, end: SocketAddr) -> Option<&MemberName> {
        if let Some(name) = self.ends.get(&end) {
            if place_of(view, name) == Some(end) {
                return Some(name);
            }
        }
        let host = self.hosts.get(&end.ip())?;
        if host.count == 1 && place_of(view, &host.last)?.ip() == end.ip() {
            return Some(&host.last);
        }
        None
    }
}

/// The endpoint of a member in a view.
pub(crate) fn place_of(view: &View, name: &MemberName) -> Option<SocketAddr> {
    place_in(view.get(name)?)
}

/// The endpoint of the member that an entry is about.
pub(crate) fn place_in(entry: &Entry) -> Option<SocketAddr> {
    let place = entry.place()?;
    endpoint(place.addr(), place.port())
}

/// A copy of the name.
pub(crate) fn copy_of(alloc: Global, name: &MemberName) -> Result<MemberName, AllocError>
    ensures { IfOk result (λ copy. copy ≡ name.now) }
{
    Ok(MemberName::new(name.name().try_clone(alloc)?))
}
