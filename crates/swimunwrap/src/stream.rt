//! A push/pull stream, unwrapped.

ghost use Rattle.std.specs.Prelude.{◌≡◌, ◌≢◌, ◌↔◌, ◌<◌, ◌≤◌, List, ℕ, None, length, IfOk, IfErr};
ghost use Rattle.swim_program.specs.Limits.{max_input_len};
ghost use Rattle.swimunwrap.specs.Stream.{IsStreamIn, ReasonFor, what_of_stream, what_of_wrap, what_of_cipher};

use memberlist_cipher::CipherFault;
use memberlist_keyring::Keyring;
use memberlist_transport::{InTheClear, StreamFault, UNENCRYPTED, open_stream};
use memberlist_wrap::WrapFault;
use std::alloc::Global;
use swim_program::{MAX_INPUT_LEN, What};
use swim_wire::WireFault;

/// The push/pull stream in one direction of a TCP connection, unwrapped, and decrypted with the
/// keys if it is encrypted and there are any. Only its first byte is checked to be that of such a
/// stream. If there are keys, a stream in the clear is read only if `clear` accepts it.
///
/// # Errors
///
/// InputTooLong if there are more than 268,435,456 bytes, the faults of `unwrap`, with that limit,
/// and then WrongType, with the first byte, if the message is not a push/pull stream, and Ended if
/// it is empty. If it is encrypted and there are keys, the fault of the last of them, and else
/// these errors for the decrypted bytes. If it is a stream in the clear, there are keys, and
/// `clear` refuses it: 59, Unencrypted.
pub fn unwrap_stream(
    alloc: Global,
    keys: &Keyring,
    clear: InTheClear,
    bytes: &[u8],
) -> Result<Vec<u8>, What>
    // It is the stream in the bytes.
    ensures unwraps { IfOk result (λ stream. IsStreamIn clear keys.now bytes.now stream.items) }

    // If they are refused, and not because of memory or their length, they hold none.
    ensures refuses { IfErr result (λ what. what ≢ What.Memory → length bytes.now ≤ max_input_len
        → (stream : List ℕ) → ¬ IsStreamIn clear keys.now bytes.now stream) }
    // And the refusal says why.
    ensures reason { IfErr result (λ what. what ≢ What.Memory → length bytes.now ≤ max_input_len
        → ReasonFor clear keys.now bytes.now what) }
    ensures long { (max_input_len < length bytes.now) ↔ (result ≡ Err (What.Refused 32 None)) }
    ensures no_device { IfErr result (λ what. what ≢ What.Device) }
{
    if bytes.len() > MAX_INPUT_LEN {
        return Err(What::input_too_long());
    }
    match open_stream(alloc, keys, clear, bytes, MAX_INPUT_LEN) {
        Ok(stream) => Ok(stream),
        Err(fault) => Err(what_of_stream(fault)),
    }
}

/// The error for bytes that hold no stream.
fn what_of_stream(fault: StreamFault) -> What
    ensures { result ≡ what_of_stream fault }
{
    match fault {
        StreamFault::Wrapped(cause) => what_of_wrap(cause),
        StreamFault::Closed(cause) => what_of_cipher(cause),
        StreamFault::Unencrypted => What::Refused {
            number: UNENCRYPTED,
            found: None,
        },
        StreamFault::NoStream(found) => What::from(WireFault::WrongType { found }),
        StreamFault::Empty => What::from(WireFault::Ended),
        StreamFault::Memory => What::Memory,
    }
}

/// The error for bytes that wrap no message.
fn what_of_wrap(fault: WrapFault) -> What
    ensures { result ≡ what_of_wrap fault }
{
    match fault {
        WrapFault::Memory => What::Memory,
        _ => What::Refused {
            number: fault.number(),
            found: None,
        },
    }
}

/// The error for bytes that no key decrypts.
fn what_of_cipher(fault: CipherFault) -> What
    ensures { result ≡ what_of_cipher fault }
{
    match fault {
        CipherFault::Memory => What::Memory,
        _ => What::Refused {
            number: fault.number(),
            found: None,
        },
    }
}
