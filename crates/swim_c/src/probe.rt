//! What a ping, an indirect ping, an ack or a nack says, in the caller's memory.

ghost use Rattle.std.specs.Prelude.{◌≡◌, ◌≤◌, length, take, min};
ghost use Rattle.memberlist_message.specs.Messages.{ping_value, indirect_ping_value, ack_value};
ghost use Rattle.swim_c.specs.Messages.{ack_probe, blank, indirect_probe, padded, ping_probe, with_names};

use crate::copy::copy_front;
use memberlist_message::{Ack, IndirectPing, Ping};

/// What one of these messages says, with room for the longest values. What it has not is 0.
#[repr(C)]
#[derive(Drop)]
pub struct Probe {
    /// The length of an ack's payload, of which `payload` has no more than it has room for.
    pub payload_len: usize,
    /// 0 a ping, 1 an indirect ping, 2 an ack, 11 a nack.
    pub kind: u32,
    /// The number of the ping, which its ack and its nack repeat.
    pub seq: u32,
    /// The port of the member that an indirect ping is for.
    pub port: u16,
    /// The port of the member that asks.
    pub source_port: u16,
    pub node_len: u16,
    pub source_len: u16,
    pub addr_len: u8,
    pub source_addr_len: u8,
    /// Whether an indirect ping wants a nack.
    pub nack: bool,
    /// The address of the member that an indirect ping is for.
    pub addr: [u8; 16],
    /// The address of the member that asks.
    pub source_addr: [u8; 16],
    /// The name of the member that is pinged.
    pub node: [u8; 1024],
    /// The name of the member that asks.
    pub source: [u8; 1024],
    pub payload: [u8; 1024],
    /// Zeros, for later versions.
    pub reserved: [u8; 32],
}

impl Probe {
    /// A message of this kind with this number, and nothing else.
    pub fn blank(kind: u32, seq: u32) -> Probe
        ensures { result ≡ blank kind seq }
    {
        Probe {
            payload_len: 0,
            kind,
            seq,
            port: 0,
            source_port: 0,
            node_len: 0,
            source_len: 0,
            addr_len: 0,
            source_addr_len: 0,
            nack: false,
            addr: [0; 16],
            source_addr: [0; 16],
            node: [0; 1024],
            source: [0; 1024],
            payload: [0; 1024],
            reserved: [0; 32],
        }
    }

    pub fn of_ping(ping: &Ping) -> Probe
        requires node { length ping.now.node.items ≤ 1024 }
        requires addr { length ping.now.source_addr.items ≤ 16 }
        requires source { length ping.now.source_node.items ≤ 1024 }
        ensures { result ≡ ping_probe (ping_value ping.now) }
    {
        Probe::blank(0, ping.seq_no).with_names(
            &ping.node,
            &ping.source_addr,
            ping.source_port,
            &ping.source_node,
        )
    }

    pub fn of_indirect_ping(ping: &IndirectPing) -> Probe
        requires node { length ping.now.node.items ≤ 1024 }
        requires target { length ping.now.target.items ≤ 16 }
        requires addr { length ping.now.source_addr.items ≤ 16 }
        requires source { length ping.now.source_node.items ≤ 1024 }
        ensures { result ≡ indirect_probe (indirect_ping_value ping.now) }
    {
        let mut probe = Probe::blank(1, ping.seq_no).with_names(
            &ping.node,
            &ping.source_addr,
            ping.source_port,
            &ping.source_node,
        );
        probe.addr_len = ping.target.len() as u8;
        probe.addr = address_room(&ping.target);
        probe.port = ping.port;
        probe.nack = ping.nack;
        probe
    }

    pub fn of_ack(ack: &Ack) -> Probe
        ensures { result ≡ ack_probe (ack_value ack.now) }
    {
        let mut probe = Probe::blank(2, ack.seq_no);
        let len = ack.payload.len();
        let (front, _) = ack.payload.split_at(len.min(1024));
        probe.payload_len = len;
        probe.payload = name_room(front);
        probe
    }

    /// The same with the name of the member that is pinged, and with who asks.
    fn with_names(self, node: &[u8], addr: &[u8], port: u16, source: &[u8]) -> Probe
        requires node { length node.now ≤ 1024 }
        requires addr { length addr.now ≤ 16 }
        requires source { length source.now ≤ 1024 }
        ensures { result ≡ with_names self node.now addr.now port source.now }
    {
        let mut probe = self;
        probe.node_len = node.len() as u16;
        probe.node = name_room(node);
        probe.source_addr_len = addr.len() as u8;
        probe.source_addr = address_room(addr);
        probe.source_port = port;
        probe.source_len = source.len() as u16;
        probe.source = name_room(source);
        probe
    }
}

/// A name, or as much of a payload, at the start of room for 1,024 bytes.
fn name_room(bytes: &[u8]) -> [u8; 1024]
    requires { length bytes.now ≤ 1024 }
    ensures { result ≡ padded 1024 bytes.now }
{
    let mut room = [0; 1024];
    copy_front(bytes, &mut room);
    room
}

/// An address at the start of room for 16 bytes.
fn address_room(bytes: &[u8]) -> [u8; 16]
    requires { length bytes.now ≤ 16 }
    ensures { result ≡ padded 16 bytes.now }
{
    let mut room = [0; 16];
    copy_front(bytes, &mut room);
    room
}
