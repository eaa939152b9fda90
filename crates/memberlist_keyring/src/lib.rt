//! A cluster's keys, read from key files, and packets and streams decrypted and encrypted under
//! them.
//!
//! | module | subject |
//! |---|---|
//! | `fault` | why a key file is refused |
//! | `key` | a key, and its text |
//! | `key_file` | the keys of a file |
//! | `secret` | bytes that must not stay in memory |
//! | `label` | the label of a packet or a stream |
//! | `trial` | keys tried in order |
//! | `keyring` | a cluster's keys |
//! | `encrypt` | packets and streams encrypted under the first key |
//! | `turn` | each key, and which one encrypts |
//! | `laws` | what holds for the definitions, independent of any code |
#![tactic(auto)]

mod encrypt;
mod fault;
mod key;
mod key_file;
mod keyring;
mod label;
pub mod laws;
mod secret;
mod trial;
mod turn;

pub use fault::KeyFileFault;
pub use keyring::Keyring;
pub use label::behind_label;
pub use secret::{Secret, overwrite};
