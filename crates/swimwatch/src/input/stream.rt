//! The push/pull stream in a file.

use crate::NAME;
use crate::arguments::chosen::Chosen;
use crate::asked::answer::{NoAnswer, stream_in};
use crate::heard::carriage::NoStream;
use crate::heard::records::claims_of_stream;
use crate::input::limit::Limit;
use crate::input::origin::Input;
use crate::text::said::said;
use memberlist_keyring::Keyring;
use std::alloc::Global;
use swim_claim::Claim;
use swim_program::{Failure, read_bytes};

/// Opens a file, or standard input.
pub(crate) fn open<'a>(rt: &'a HostRuntime, word: &str) -> Result<Input<'a>, Failure> {
    match Input::open(Limit::endless(rt), word) {
        Ok(input) => Ok(input),
        Err(error) => Err(Failure::device(rt.alloc(), NAME, word, &error)),
    }
}

/// The claims of the push/pull stream in a file.
pub(crate) fn claims_of_file(
    rt: &HostRuntime,
    chosen: &Chosen,
    keys: &Keyring,
    word: &str,
) -> Result<Vec<Claim>, Failure> {
    let stream = stream_of_input(rt, chosen, keys, word, open(rt, word)?)?;
    match claims_of_stream(rt.alloc(), &stream)? {
        Some(claims) => Ok(claims),
        None => Err(no_stream(rt.alloc(), word, NoAnswer::NoStream(NoStream::Cut))),
    }
}

/// The push/pull stream in an input, without its wrappers.
pub(crate) fn stream_of_input(
    rt: &HostRuntime,
    chosen: &Chosen,
    keys: &Keyring,
    word: &str,
    input: Input,
) -> Result<Vec<u8>, Failure> {
    let alloc = rt.alloc();
    let mut input = input;
    let bytes = match read_bytes(alloc, &mut input) {
        Ok(bytes) => bytes,
        Err(error) => return Err(Failure::device(alloc, NAME, word, &error)),
    };
    match stream_in(
        alloc,
        keys,
        chosen.asking.clear,
        &chosen.asking.label,
        bytes,
    ) {
        Ok(stream) => Ok(stream),
        Err(cause) => Err(no_stream(alloc, word, cause)),
    }
}

/// The message about a file without a stream.
pub(crate) fn no_stream(alloc: Global, word: &str, cause: NoAnswer) -> Failure {
    let why = match cause {
        NoAnswer::NoStream(NoStream::Memory) => return Failure::Memory,
        NoAnswer::NoStream(NoStream::Closed) =>
            "it is encrypted, and no key decrypts it; check --key-file and --label",
        NoAnswer::NoStream(NoStream::Unencrypted) =>
            "it is not encrypted; --accept-clear believes it",
        NoAnswer::NoStream(NoStream::Cut) => "it ends in the middle of a stream",
        NoAnswer::NoStream(_) | NoAnswer::Error(_) =>
            "it is neither a capture nor a push/pull stream",
    };
    said(format!(in alloc; "{NAME}: {word}: {why}"), 3)
}
