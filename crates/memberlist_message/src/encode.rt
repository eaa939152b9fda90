//! Messages that make no claims, in memberlist's bytes: a type byte, and a map of the fields in
//! alphabetical order, as go-msgpack writes them in its old form.

ghost use Rattle.std.specs.Prelude.{◌≡◌, ◌<◌, ◌^◌, length, IfOk};
ghost use Rattle.memberlist_message.specs.Messages.{ping_value, indirect_ping_value, ack_value};
ghost use Rattle.memberlist_message.specs.Writing.{ping_bytes, indirect_ping_bytes, ack_bytes, nack_bytes, user_bytes, error_bytes};

use crate::decode::{
    ACK_MESSAGE, ERROR_MESSAGE, INDIRECT_PING_MESSAGE, NACK_MESSAGE, PING_MESSAGE, USER_MESSAGE,
};
use crate::layout::Key;
use crate::message::{Ack, ErrorResponse, IndirectPing, Nack, Ping};
use crate::pairs::{Written, write_message};
use std::alloc::{AllocError, Global};

/// The bytes of a ping. A source field that is empty or 0 is left out. Each name and address has at
/// most 65,535 bytes.
///
/// # Errors
///
/// `AllocError` if memory ran out.
pub fn encode_ping(alloc: Global, ping: &Ping) -> Result<Vec<u8>, AllocError>
    requires node { length ping.now.node.items < 2 ^ 16 }
    requires addr { length ping.now.source_addr.items < 2 ^ 16 }
    requires source { length ping.now.source_node.items < 2 ^ 16 }
    ensures { IfOk result (λ bytes. bytes.items ≡ ping_bytes (ping_value ping.now)) }
{
    let mut out = Vec::new(alloc);
    write_message(
        &mut out,
        PING_MESSAGE,
        &[
            (Key::Node, Written::Raw(&ping.node)),
            (Key::SeqNo, Written::Number(u64::from(ping.seq_no))),
            (Key::SourceAddr, Written::Raw(&ping.source_addr)),
            (Key::SourceNode, Written::Raw(&ping.source_node)),
            (
                Key::SourcePort,
                Written::Number(u64::from(ping.source_port)),
            ),
        ],
    )?;
    Ok(out)
}

/// The bytes of an indirect ping. A source field that is empty or 0 is left out. Each name and
/// address has at most 65,535 bytes.
///
/// # Errors
///
/// `AllocError` if memory ran out.
pub fn encode_indirect_ping(alloc: Global, ping: &IndirectPing) -> Result<Vec<u8>, AllocError>
    requires node { length ping.now.node.items < 2 ^ 16 }
    requires target { length ping.now.target.items < 2 ^ 16 }
    requires addr { length ping.now.source_addr.items < 2 ^ 16 }
    requires source { length ping.now.source_node.items < 2 ^ 16 }
    ensures { IfOk result
        (λ bytes. bytes.items ≡ indirect_ping_bytes (indirect_ping_value ping.now)) }
{
    let mut out = Vec::new(alloc);
    write_message(
        &mut out,
        INDIRECT_PING_MESSAGE,
        &[
            (Key::Nack, Written::Flag(ping.nack)),
            (Key::Node, Written::Raw(&ping.node)),
            (Key::Port, Written::Number(u64::from(ping.port))),
            (Key::SeqNo, Written::Number(u64::from(ping.seq_no))),
            (Key::SourceAddr, Written::Raw(&ping.source_addr)),
            (Key::SourceNode, Written::Raw(&ping.source_node)),
            (
                Key::SourcePort,
                Written::Number(u64::from(ping.source_port)),
            ),
            (Key::Target, Written::Raw(&ping.target)),
        ],
    )?;
    Ok(out)
}

/// The bytes of an ack, whose payload has at most 65,535 bytes.
///
/// # Errors
///
/// `AllocError` if memory ran out.
pub fn encode_ack(alloc: Global, ack: &Ack) -> Result<Vec<u8>, AllocError>
    requires { length ack.now.payload.items < 2 ^ 16 }
    ensures { IfOk result (λ bytes. bytes.items ≡ ack_bytes (ack_value ack.now)) }
{
    let mut out = Vec::new(alloc);
    write_message(
        &mut out,
        ACK_MESSAGE,
        &[
            (Key::Payload, Written::Raw(&ack.payload)),
            (Key::SeqNo, Written::Number(u64::from(ack.seq_no))),
        ],
    )?;
    Ok(out)
}

/// The bytes of a nack.
///
/// # Errors
///
/// `AllocError` if memory ran out.
pub fn encode_nack(alloc: Global, nack: &Nack) -> Result<Vec<u8>, AllocError>
    ensures { IfOk result (λ bytes. bytes.items ≡ nack_bytes nack.now.seq_no) }
{
    let mut out = Vec::new(alloc);
    write_message(
        &mut out,
        NACK_MESSAGE,
        &[(Key::SeqNo, Written::Number(u64::from(nack.seq_no)))],
    )?;
    Ok(out)
}

/// The bytes of a user message with these bytes.
///
/// # Errors
///
/// `AllocError` if memory ran out.
pub fn encode_user(alloc: Global, bytes: &[u8]) -> Result<Vec<u8>, AllocError>
    ensures { IfOk result (λ written. written.items ≡ user_bytes bytes.now) }
{
    let mut out = Vec::new(alloc);
    out.extend_from_slice(&[USER_MESSAGE])?;
    out.extend_from_slice(bytes)?;
    Ok(out)
}

/// The bytes of an error response, whose text has at most 65,535 bytes.
///
/// # Errors
///
/// `AllocError` if memory ran out.
pub fn encode_error(alloc: Global, response: &ErrorResponse) -> Result<Vec<u8>, AllocError>
    requires { length response.now.error.items < 2 ^ 16 }
    ensures { IfOk result (λ bytes. bytes.items ≡ error_bytes response.now.error.items) }
{
    let mut out = Vec::new(alloc);
    write_message(
        &mut out,
        ERROR_MESSAGE,
        &[(Key::Error, Written::Raw(&response.error))],
    )?;
    Ok(out)
}
