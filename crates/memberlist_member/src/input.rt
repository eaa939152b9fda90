//! What a member is told.

use std::net::SocketAddr;

/// What a member is told.
#[derive(Clone, Copy)]
pub enum Input<'a> {
    /// The time that [`Member::wake`](crate::Member::wake) said has come.
    Tick,
    /// This datagram came from there.
    Datagram { from: SocketAddr, bytes: &'a [u8] },
    /// Another member opened a connection; the caller numbers it, with a number that no other has.
    Accepted { conn: u64 },
    /// This connection is open now.
    Connected { conn: u64 },
    /// These bytes came over the connection.
    Received { conn: u64, bytes: &'a [u8] },
    /// The other side closed the connection, or it could not be opened.
    Closed { conn: u64 },
    /// Join the cluster by members at these places, and dial them again while alone.
    Join { seeds: &'a [SocketAddr] },
    /// Leave the cluster.
    Leave,
    /// The program's own metadata is now this, of at most 512 bytes.
    Update { meta: &'a [u8] },
    /// Tell this message of the program to all members.
    Say { bytes: &'a [u8] },
    /// Send the program's own state along with tables from now on.
    State { bytes: &'a [u8] },
}
