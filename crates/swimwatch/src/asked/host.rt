//! Which member to ask.

use std::alloc::{AllocError, Global};
use std::net::{IpAddr, Ipv6Addr};

/// memberlist's default port.
const PORT: u16 = 7946;

/// The name or address of a member, and its port.
#[derive(Clone, Copy, PartialEq, Eq)]
pub(crate) struct Host<'a> {
    /// A name for the system's resolver, or an address.
    pub(crate) name: &'a str,
    pub(crate) port: u16,
}

impl<'a> Host<'a> {
    /// The host that a word names: `web-1`, `10.20.1.11`, `fe80::1%eth0`, or one of these followed
    /// by a colon and a port, with an IPv6 address in brackets: `[fe80::1%eth0]:7946`. None if the
    /// word does not name a host.
    pub(crate) fn parse(word: &'a str) -> Option<Host<'a>> {
        if is_address(word) {
            return Some(Host {
                name: word,
                port: PORT,
            });
        }
        let (name, port) = match word.strip_prefix('[') {
            Some(rest) => rest.split_once(']')?,
            None => name_and_port(word),
        };
        if name.is_empty() || !word.starts_with('[') && name.contains(':') {
            return None;
        }
        Some(Host {
            name,
            port: port_of(port)?,
        })
    }

    /// The host as text: `10.20.1.11:7946`, `[fe80::1]:7946`.
    pub(crate) fn text(&self, alloc: Global) -> Result<String, AllocError> {
        let Host { name, port } = *self;
        if name.contains(':') {
            return format!(in alloc; "[{name}]:{port}");
        }
        format!(in alloc; "{name}:{port}")
    }
}

/// Whether a word is an address; one of IPv6 may have the name of an interface behind `%` (RFC
/// 4007, section 11).
fn is_address(word: &str) -> bool {
    match word.split_once('%') {
        Some((address, zone)) => address.parse::<Ipv6Addr>().is_ok() && !zone.is_empty(),
        None => word.parse::<IpAddr>().is_ok(),
    }
}

/// What is before the last colon, and the rest with the colon. If there is no colon, all of it.
fn name_and_port(word: &str) -> (&str, &str) {
    match word.rfind(':') {
        Some(place) => word.split_at(place),
        None => (word, ""),
    }
}

/// The port in `:7946`, or memberlist's default if the text is empty.
fn port_of(text: &str) -> Option<u16> {
    if text.is_empty() {
        return Some(PORT);
    }
    match text.strip_prefix(':')?.parse::<u16>() {
        Ok(port) if port > 0 => Some(port),
        _ => None,
    }
}
