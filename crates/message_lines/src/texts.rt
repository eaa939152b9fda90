//! The text of a message.

ghost use Rattle.std.specs.Prelude.{◌<◌, ◌≤◌, ◌^◌, length, MatchBool};

use memberlist_message::{
    Ack, ErrorResponse, IndirectPing, Message, Ping, encode_ack, encode_error,
    encode_indirect_ping, encode_nack, encode_ping, encode_user,
};
use std::alloc::{AllocError, Global};
use swim_claim::{Claim, Details, Name};
use swim_wire::{Packet, WireFault};

/// The fields of the message, numbers in decimal and bytes in hexadecimal, and of one that makes no
/// claim its bytes as they are written anew; or the fault.
pub fn message_text(alloc: Global, read: Result<Message, WireFault>) -> Result<String, AllocError> {
    match read {
        Ok(Message::Ping(ping)) => ping_text(alloc, &ping),
        Ok(Message::IndirectPing(ping)) => indirect_ping_text(alloc, &ping),
        Ok(Message::Ack(ack)) => ack_text(alloc, &ack),
        Ok(Message::Nack(nack)) => {
            let again = bytes_text(alloc, &encode_nack(alloc, &nack)?)?;
            format!(in alloc; "nack {} {again}\n", nack.seq_no)
        }
        Ok(Message::User(bytes)) => {
            let again = bytes_text(alloc, &encode_user(alloc, &bytes)?)?;
            let bytes = bytes_text(alloc, &bytes)?;
            format!(in alloc; "user {bytes} {again}\n")
        }
        Ok(Message::Error(response)) => error_text(alloc, &response),
        Ok(Message::Claim(packet)) => packet_text(alloc, &packet),
        Err(fault) => format!(in alloc; "refused {fault:?}\n"),
    }
}

/// Bytes in hexadecimal, or `-` if there are none.
fn bytes_text(alloc: Global, bytes: &[u8]) -> Result<String, AllocError> {
    if bytes.is_empty() {
        return String::from_str(alloc, "-");
    }
    hex::encode(alloc, bytes)
}

/// Whether the bytes are too long to be written.
fn is_long(bytes: &[u8]) -> bool
    ensures { MatchBool result (2 ^ 16 ≤ length bytes.now) (length bytes.now < 2 ^ 16) }
{
    bytes.len() >= 65536
}

fn ping_text(alloc: Global, ping: &Ping) -> Result<String, AllocError> {
    if is_long(&ping.node) {
        return String::from_str(alloc, "ping long\n");
    }
    if is_long(&ping.source_addr) {
        return String::from_str(alloc, "ping long\n");
    }
    if is_long(&ping.source_node) {
        return String::from_str(alloc, "ping long\n");
    }
    let node = bytes_text(alloc, &ping.node)?;
    let source_addr = bytes_text(alloc, &ping.source_addr)?;
    let source_node = bytes_text(alloc, &ping.source_node)?;
    let again = bytes_text(alloc, &encode_ping(alloc, ping)?)?;
    let seq_no = ping.seq_no;
    let source_port = ping.source_port;
    format!(in alloc; "ping {seq_no} {node} {source_addr} {source_port} {source_node} {again}\n")
}

fn indirect_ping_text(alloc: Global, ping: &IndirectPing) -> Result<String, AllocError> {
    if is_long(&ping.node) {
        return String::from_str(alloc, "indirect long\n");
    }
    if is_long(&ping.target) {
        return String::from_str(alloc, "indirect long\n");
    }
    if is_long(&ping.source_addr) {
        return String::from_str(alloc, "indirect long\n");
    }
    if is_long(&ping.source_node) {
        return String::from_str(alloc, "indirect long\n");
    }
    let target = bytes_text(alloc, &ping.target)?;
    let node = bytes_text(alloc, &ping.node)?;
    let source_addr = bytes_text(alloc, &ping.source_addr)?;
    let source_node = bytes_text(alloc, &ping.source_node)?;
    let again = bytes_text(alloc, &encode_indirect_ping(alloc, ping)?)?;
    let mut text = format!(in alloc;
        "indirect {} {target} {} {node} {}",
        ping.seq_no, ping.port, ping.nack
    )?;
    let source_port = ping.source_port;
    writeln!(text, " {source_addr} {source_port} {source_node} {again}")?;
    Ok(text)
}

fn ack_text(alloc: Global, ack: &Ack) -> Result<String, AllocError> {
    if is_long(&ack.payload) {
        return String::from_str(alloc, "ack long\n");
    }
    let payload = bytes_text(alloc, &ack.payload)?;
    let again = bytes_text(alloc, &encode_ack(alloc, ack)?)?;
    format!(in alloc; "ack {} {payload} {again}\n", ack.seq_no)
}

fn error_text(alloc: Global, response: &ErrorResponse) -> Result<String, AllocError> {
    if is_long(&response.error) {
        return String::from_str(alloc, "error long\n");
    }
    let error = bytes_text(alloc, &response.error)?;
    let again = bytes_text(alloc, &encode_error(alloc, response)?)?;
    format!(in alloc; "error {error} {again}\n")
}

fn packet_text(alloc: Global, packet: &Packet) -> Result<String, AllocError> {
    let from = packet.from_name();
    match packet.claim() {
        Claim::Alive { name, inc, details } => alive_text(alloc, name, *inc, details),
        Claim::Suspect { name, inc } => accusation_text(alloc, "suspect", name, *inc, from),
        Claim::Confirm { name, inc } => accusation_text(alloc, "confirm", name, *inc, from),
        Claim::Leave { name, inc } => accusation_text(alloc, "leave", name, *inc, from),
    }
}

fn accusation_text<'a>(
    alloc: Global,
    kind: &'a str,
    name: &'a Name,
    inc: u32,
    from: &'a [u8],
) -> Result<String, AllocError> {
    let name = bytes_text(alloc, name.bytes())?;
    let from = bytes_text(alloc, from)?;
    format!(in alloc; "{kind} {inc} {name} {from}\n")
}

fn alive_text(
    alloc: Global,
    name: &Name,
    inc: u32,
    details: &Details,
) -> Result<String, AllocError> {
    let name = bytes_text(alloc, name.bytes())?;
    let addr = bytes_text(alloc, details.addr())?;
    let port = details.port();
    let meta = bytes_text(alloc, details.meta())?;
    let vsn = bytes_text(alloc, details.vsn())?;
    format!(in alloc; "alive {inc} {name} {addr} {port} {meta} {vsn}\n")
}
