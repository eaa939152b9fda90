//! The kinds of link that frames come from.

ghost use Rattle.std.specs.Prelude.{◌≡◌};
ghost use Rattle.capture.specs.Packets.{link_of};

/// A kind of link that frames come from.
#[derive(Clone, Copy, PartialEq, Eq)]
pub enum Link {
    /// Four bytes of an address family, and a packet of IP.
    Loopback,
    /// Ethernet, with any tags.
    Ethernet,
    /// A packet of IP.
    Raw,
    /// Linux cooked.
    Cooked,
    /// Linux cooked, version 2.
    Cooked2,
}

impl Link {
    /// The kind of link with this number in captures, if it is supported: 0 and 108 (loopback), 1
    /// (Ethernet), 12, 14, 101, 228 and 229 (IP alone), 113 and 276 (Linux cooked).
    pub fn from_number(number: u32) -> Option<Link>
        ensures { result ≡ link_of number }
    {
        match number {
            0 | 108 => Some(Link::Loopback),
            1 => Some(Link::Ethernet),
            12 | 14 | 101 | 228 | 229 => Some(Link::Raw),
            113 => Some(Link::Cooked),
            276 => Some(Link::Cooked2),
            _ => None,
        }
    }
}
