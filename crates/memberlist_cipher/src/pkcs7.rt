//! Removes padding, PKCS #7 with blocks of 16 bytes.

ghost use Rattle.std.specs.Prelude.{◌≡◌, ◌≢◌, ◌-◌, ◌≤◌, ℕ, List, length, replicate, take, MatchBool, IfSome, IfNone, IfOk, IfErr};
ghost use Rattle.memberlist_cipher.specs.declared.fault.CipherFault.TheVariants.{BadPadding};
ghost use Rattle.memberlist_cipher.specs.Encryption.{padded};

use crate::CipherFault;

/// Whether each byte is this one.
fn all_are(bytes: &[u8], b: u8) -> bool
    ensures { MatchBool result (bytes.now ≡ replicate (length bytes.now) b)
        (bytes.now ≢ replicate (length bytes.now) b) }
{
    for x in bytes {
        if *x != b {
            return false;
        }
    }
    true
}

/// How many bytes were added: the last bytes, 1 to 16, each hold their count.
fn padding_len(text: &[u8]) -> Option<usize>
    ensures some { IfSome result (λ more. (more ≤ length text.now)
        × (padded (take (length text.now - more) text.now) ≡ text.now)) }
    ensures none { IfNone result ((message : List ℕ) → padded message ≢ text.now) }
{
    let len = text.len();
    if len == 0 {
        return None;
    }
    if len % 16 != 0 {
        return None;
    }
    let last = text[len - 1];
    let more = last as usize;
    if more == 0 {
        return None;
    }
    if more > 16 {
        return None;
    }
    if !all_are(&text[len - more..len], last) {
        return None;
    }
    Some(more)
}

/// The message that was padded.
pub(crate) fn unpadded(text: Vec<u8>) -> Result<Vec<u8>, CipherFault>
    ensures ok { IfOk result (λ message. padded message.items ≡ text.items) }
    ensures cause { IfErr result (λ fault. fault ≡ BadPadding) }
    ensures err { IfErr result (λ _. (message : List ℕ) → padded message ≢ text.items) }
{
    let Some(more) = padding_len(&text) else {
        return Err(CipherFault::BadPadding);
    };
    let mut message = text;
    let len = message.len();
    message.truncate(len - more);
    Ok(message)
}
