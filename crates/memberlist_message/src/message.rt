//! Messages, and their fields.

use swim_wire::Packet;

/// One message of a datagram: its type, and the fields that memberlist's handler gets.
#[derive(Drop)]
pub enum Message {
    /// Asks a member whether it is alive.
    Ping(Ping),
    /// Asks a member to ping another one.
    IndirectPing(IndirectPing),
    /// Answers a ping: the member is alive.
    Ack(Ack),
    /// Says that a member asked to ping another one got no answer yet.
    Nack(Nack),
    /// Bytes of the program that uses memberlist.
    User(Vec<u8>),
    /// Says why a stream was refused.
    Error(ErrorResponse),
    /// A suspect, alive or dead message.
    Claim(Packet),
}

/// memberlist's `ping` (net.go). Names are bytes, and need not be text.
#[derive(Drop)]
pub struct Ping {
    /// The number that the ack repeats.
    pub seq_no: u32,
    /// The name of the member that is asked, or empty.
    pub node: Vec<u8>,
    /// The address of the member that asks, or empty.
    pub source_addr: Vec<u8>,
    /// The port of the member that asks, or 0.
    pub source_port: u16,
    /// The name of the member that asks, or empty.
    pub source_node: Vec<u8>,
}

/// memberlist's `indirectPingReq` (net.go).
#[derive(Drop)]
pub struct IndirectPing {
    /// The number that the ack and the nack repeat.
    pub seq_no: u32,
    /// The address of the member that is to be pinged.
    pub target: Vec<u8>,
    /// The port of the member that is to be pinged.
    pub port: u16,
    /// The name of the member that is to be pinged, or empty.
    pub node: Vec<u8>,
    /// Whether a nack is wanted.
    pub nack: bool,
    /// The address of the member that asks, or empty.
    pub source_addr: Vec<u8>,
    /// The port of the member that asks, or 0.
    pub source_port: u16,
    /// The name of the member that asks, or empty.
    pub source_node: Vec<u8>,
}

/// memberlist's `ackResp` (net.go).
#[derive(Drop)]
pub struct Ack {
    /// The number of the ping that is answered.
    pub seq_no: u32,
    /// Bytes of the program that uses memberlist, or none.
    pub payload: Vec<u8>,
}

/// memberlist's `nackResp` (net.go).
#[derive(Clone, Copy)]
pub struct Nack {
    /// The number of the indirect ping that is answered.
    pub seq_no: u32,
}

/// memberlist's `errResp` (net.go).
#[derive(Drop)]
pub struct ErrorResponse {
    /// The text of the error, which need not be text.
    pub error: Vec<u8>,
}
