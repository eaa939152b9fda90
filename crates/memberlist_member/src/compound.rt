//! Several messages in one datagram (`util.go`, `state.go`).

ghost use Rattle.std.specs.Prelude.{◌≡◌, ◌+◌, ◌<◌, ◌≤◌, ◌++◌, IfOk, OnOk, length, map};
ghost use Rattle.std.specs.List.{All, flat_map};
ghost use Rattle.memberlist_member.specs.Compound.{compound_bytes, datagram_bytes};
ghost use Rattle.memberlist_member.specs.Compound.{length_bytes, total};

use std::alloc::{AllocError, Global};

/// The type of a compound message (`compoundMsg`).
const COMPOUND: u8 = 7;

/// The bytes of a compound message of these messages (`makeCompoundMessage`): its type, how many
/// there are in one byte, the length of each in two bytes, and the messages. There are at most 255,
/// each shorter than 65,536 bytes.
///
/// # Errors
///
/// `AllocError` if out of memory.
pub(crate) fn compound(alloc: Global, parts: &[Vec<u8>]) -> Result<Vec<u8>, AllocError>
    requires few { length parts.now < 256 }
    requires short { All (λ p. length p.items < 65536) parts.now }
    ensures bytes { IfOk result (λ m. m.items ≡ compound_bytes (map (λ p. p.items) parts.now)) }
    ensures len { IfOk result (λ m. length m.items ≡ 2 + total 2 (map (λ p. p.items) parts.now)) }
{
    let mut message = Vec::new(alloc);
    message.push(COMPOUND)?;
    message.push(parts.len() as u8)?;
    push_lengths(&mut message, parts)?;
    push_parts(&mut message, parts)?;
    Ok(message)
}

/// The bytes of a datagram with these messages: a single one as it is, and others as a compound
/// message (`gossip`). There are at most 255, each shorter than 65,536 bytes.
///
/// # Errors
///
/// `AllocError` if out of memory.
pub fn datagram(alloc: Global, mut parts: Vec<Vec<u8>>) -> Result<Vec<u8>, AllocError>
    requires few { length parts.items < 256 }
    requires short { All (λ p. length p.items < 65536) parts.items }
    ensures bytes { IfOk result (λ m. m.items ≡ datagram_bytes (map (λ p. p.items) parts.items)) }
    ensures len { IfOk result (λ m. length m.items ≤ 2 + total 2 (map (λ p. p.items) parts.items)) }
{
    if parts.len() == 1 {
        Ok(parts.remove(0))
    } else {
        compound(alloc, &parts)
    }
}

/// Adds the length of each part in two bytes, the greater one first.
fn push_lengths(message: &mut Vec<u8>, parts: &[Vec<u8>]) -> Result<(), AllocError>
    requires { All (λ p. length p.items < 65536) parts.now }
    ensures { OnOk result (message.new.items
        ≡ message.old.items ++ flat_map (λ p. length_bytes p.items) parts.now) }
{
    for part in parts {
        message.extend_from_slice(&(part.len() as u16).to_be_bytes())?;
    }
    Ok(())
}

/// Adds the parts.
fn push_parts(message: &mut Vec<u8>, parts: &[Vec<u8>]) -> Result<(), AllocError>
    ensures { OnOk result (message.new.items
        ≡ message.old.items ++ flat_map (λ p. p.items) parts.now) }
{
    for part in parts {
        message.extend_from_slice(part)?;
    }
    Ok(())
}
