//! What no clause states: packets and streams of a real memberlist, real key files, the texts of
//! faults.

mod encrypt;
mod key_files;
mod opening;
mod packets;
mod secrets;

use memberlist_keyring::Keyring;
use std::alloc::Global;
use std::test::Fail;

/// A key of 16 bytes in base64.
const KEY: &str = "EBceJSwzOkFIT1ZdZGtyeQ==";

/// A key of 24 bytes.
const KEY_24: &str = "GB8mLTQ7QklQV15lbHN6gYiPlp2kq7K5";

/// A key of 32 bytes, as `consul keygen` prints one.
const KEY_32: &str = "ICcuNTxDSlFYX2ZtdHuCiZCXnqWss7rByM/W3eTr8vk=";

/// Another key, under which nothing here is encrypted.
const OTHER: &str = "AAAAAAAAAAAAAAAAAAAAAA==";

/// A keyring with the keys of this file.
fn keyring(alloc: Global, text: &str) -> Result<Keyring, Fail> {
    let mut keyring = Keyring::new(alloc);
    keyring.add_file(alloc, text.as_bytes())?;
    Ok(keyring)
}
