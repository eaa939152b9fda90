//! The parts of encrypted bytes: a version, a nonce, the ciphertext and a tag.

ghost use Rattle.std.specs.Prelude.{◌≡◌, ◌+◌, ◌<◌, ◌≤◌, ◌∷◌, ◌++◌, length, slice_index, IfOk, IfErr};
ghost use Rattle.memberlist_cipher.specs.Refusal.{FormCause};

use crate::CipherFault;

/// The parts of encrypted bytes.
#[derive(Drop)]
pub(crate) struct Parts<'a> {
    pub(crate) version: u8,
    pub(crate) nonce: &'a [u8],
    pub(crate) ciphertext: &'a [u8],
    pub(crate) tag: &'a [u8],
}

/// Splits encrypted bytes into their parts.
///
/// # Errors
///
/// `TooShort` if there are fewer than 29 bytes, `WrongVersion` if the first byte is above 1.
pub(crate) fn parts_of(bytes: &[u8]) -> Result<Parts<'_>, CipherFault>
    ensures nonce { IfOk result (λ parts. length parts.nonce.now ≡ 12) }
    ensures tag { IfOk result (λ parts. length parts.tag.now ≡ 16) }
    ensures size { IfOk result (λ parts. length parts.ciphertext.now + 29 ≡ length bytes.now) }
    ensures text { IfOk result (λ parts. bytes.now
        ≡ parts.version ∷ (parts.nonce.now ++ (parts.ciphertext.now ++ parts.tag.now))) }
    ensures version { IfOk result (λ parts. parts.version < 2) }
    ensures refuses { IfErr result (λ fault. FormCause fault bytes.now) }
{
    let Some((first, rest)) = bytes.split_first() else {
        return Err(CipherFault::TooShort);
    };
    if rest.len() < 28 {
        return Err(CipherFault::TooShort);
    }
    let version = *first;
    if version > 1 {
        return Err(CipherFault::WrongVersion);
    }
    let (nonce, body) = rest.split_at(12);
    let (ciphertext, tag) = body.split_at(body.len() - 16);
    Ok(Parts {
        version,
        nonce,
        ciphertext,
        tag,
    })
}
