//! Where a capture was taken.

ghost use Rattle.std.specs.Prelude.{◌≡◌, ◌∷◌, [], List, MatchBool};
ghost use Rattle.memberlist_probes.specs.Points.{Ends, IsEnd, IsPointOf, host_of, narrowed, kept};

use std::net::IpAddr;

/// Where a capture was taken, as the packets in it tell: at the host that is an end of each of them.
#[derive(Clone, Copy, PartialEq, Eq)]
pub enum Point {
    /// No packet was captured yet.
    Unknown,
    /// All packets went between these two.
    Either(IpAddr, IpAddr),
    /// One end of each packet is this host, and no other.
    At(IpAddr),
    /// No host is an end of each packet.
    Between,
}

impl Point {
    /// That of a capture without packets.
    pub fn new() -> Point
        ensures { IsPointOf [] result }
    {
        Point::Unknown
    }

    /// The point after one more packet.
    pub fn after(self, from: IpAddr, to: IpAddr) -> Point
        ensures { (packets : List Ends) → IsPointOf packets self
            → IsPointOf ((from, to) ∷ packets) result }
    {
        match self {
            Point::Unknown => of_first(from, to),
            Point::Either(one, other) => narrowed(
                one,
                other,
                is_end(one, from, to),
                is_end(other, from, to),
            ),
            Point::At(host) => kept(host, is_end(host, from, to)),
            Point::Between => Point::Between,
        }
    }

    /// The host at which the capture was taken, if its packets tell.
    pub fn host(self) -> Option<IpAddr>
        ensures { result ≡ host_of self }
    {
        match self {
            Point::At(host) => Some(host),
            _ => None,
        }
    }
}

/// Whether the host is an end of a packet.
fn is_end(host: IpAddr, from: IpAddr, to: IpAddr) -> bool
    ensures { MatchBool result (IsEnd host (from, to)) (IsEnd host (from, to) → ⊥) }
{
    host == from || host == to
}

/// The point after the first packet.
fn of_first(from: IpAddr, to: IpAddr) -> Point
    ensures { IsPointOf ((from, to) ∷ []) result }
{
    if from == to {
        Point::At(from)
    } else {
        Point::Either(from, to)
    }
}

/// The point after a packet, of a capture whose packets went between two hosts, by whether each of
/// them is an end of this one.
fn narrowed(one: IpAddr, other: IpAddr, is_one: bool, is_other: bool) -> Point
    ensures { result ≡ narrowed one other is_one is_other }
{
    match (is_one, is_other) {
        (true, true) => Point::Either(one, other),
        (true, false) => Point::At(one),
        (false, true) => Point::At(other),
        (false, false) => Point::Between,
    }
}

/// The point after a packet, of a capture at a host, by whether the host is an end of it.
fn kept(host: IpAddr, is_end: bool) -> Point
    ensures { result ≡ kept host is_end }
{
    if is_end {
        Point::At(host)
    } else {
        Point::Between
    }
}
