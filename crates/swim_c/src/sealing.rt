//! Messages encrypted with a keyring, or labelled in the clear, written to a buffer.

ghost use Rattle.std.specs.Prelude.{MatchBool};
ghost use Rattle.swim_c.specs.Sealing.{IsSentClear, IsRepliedClear, PacketSealed, StreamSealed, ReplySealed};

use crate::copy::{Written, copy_out};
use crate::fault::cipher_status;
use crate::status::MEMORY;
use memberlist_cipher::{CipherFault, MAX_LABEL_LEN, labelled};
use memberlist_keyring::Keyring;
use std::alloc::Global;

/// Writes a packet with this message to the buffer: encrypted with the first key, or in the clear
/// if there is none.
pub fn seal_out(
    alloc: Global,
    keys: &Keyring,
    nonce: &[u8; 12],
    label: &[u8],
    message: &[u8],
    out: &mut [u8],
) -> Written
    ensures { PacketSealed keys.now nonce.now label.now message.now
        out.old out.new result.status result.len }
{
    if keys.is_empty() {
        return label_out(alloc, label, message, out);
    }
    match keys.encrypt(alloc, nonce, label, message) {
        Ok(Some(sealed)) => copy_out(&sealed, out),
        Ok(None) => unreachable!(),
        Err(fault) => Written::refused(cipher_status(fault)),
    }
}

/// Writes a stream with this message to the buffer, or a reply: encrypted with the first key, or in
/// the clear if there is none.
pub fn seal_stream_out(
    alloc: Global,
    keys: &Keyring,
    nonce: &[u8; 12],
    label: &[u8],
    reply: bool,
    message: &[u8],
    out: &mut [u8],
) -> Written
    ensures { MatchBool reply
        (ReplySealed keys.now nonce.now label.now message.now
        out.old out.new result.status result.len)
        (StreamSealed keys.now nonce.now label.now message.now
        out.old out.new result.status result.len) }
{
    if reply {
        reply_out(alloc, keys, nonce, label, message, out)
    } else {
        stream_out(alloc, keys, nonce, label, message, out)
    }
}

/// Writes a stream after its label.
fn stream_out(
    alloc: Global,
    keys: &Keyring,
    nonce: &[u8; 12],
    label: &[u8],
    message: &[u8],
    out: &mut [u8],
) -> Written
    ensures { StreamSealed keys.now nonce.now label.now message.now
        out.old out.new result.status result.len }
{
    if keys.is_empty() {
        return label_out(alloc, label, message, out);
    }
    match keys.encrypt_stream(alloc, nonce, label, message) {
        Ok(Some(sealed)) => copy_out(&sealed, out),
        Ok(None) => unreachable!(),
        Err(fault) => Written::refused(cipher_status(fault)),
    }
}

/// Writes a reply, without a label before it.
fn reply_out(
    alloc: Global,
    keys: &Keyring,
    nonce: &[u8; 12],
    label: &[u8],
    message: &[u8],
    out: &mut [u8],
) -> Written
    ensures { ReplySealed keys.now nonce.now label.now message.now
        out.old out.new result.status result.len }
{
    if keys.is_empty() {
        return reply_clear_out(label, message, out);
    }
    match keys.encrypt_reply(alloc, nonce, label, message) {
        Ok(Some(sealed)) => copy_out(&sealed, out),
        Ok(None) => unreachable!(),
        Err(fault) => Written::refused(cipher_status(fault)),
    }
}

/// Writes a reply in the clear. It has no label before it.
fn reply_clear_out(label: &[u8], message: &[u8], out: &mut [u8]) -> Written
    ensures { IsRepliedClear label.now message.now out.old out.new result.status result.len }
{
    if label.len() <= MAX_LABEL_LEN {
        copy_out(message, out)
    } else {
        Written::refused(CipherFault::TooLong.number())
    }
}

/// Writes a message after its label to the buffer, in the clear.
fn label_out(alloc: Global, label: &[u8], message: &[u8], out: &mut [u8]) -> Written
    ensures { IsSentClear label.now message.now out.old out.new result.status result.len }
{
    if label.is_empty() {
        return copy_out(message, out);
    }
    if label.len() > MAX_LABEL_LEN {
        return Written::refused(CipherFault::TooLong.number());
    }
    match labelled(alloc, label, message) {
        Ok(text) => copy_out(&text, out),
        Err(_) => Written::refused(MEMORY),
    }
}
