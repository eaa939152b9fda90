//! Encrypts and decrypts what memberlist sends under its cluster's key, and reads its labels.
//!
//! | module | subject |
//! |---|---|
//! | `fault` | why bytes are refused |
//! | `field` | bytes as polynomials |
//! | `tower` | the S-box on sixteen bytes at once |
//! | `block` | AES on one block, and on four |
//! | `appending` | appending to a vector that has room |
//! | `schedule` | the key schedule |
//! | `ghash` | the product and the hash of blocks |
//! | `ctr` | counter mode |
//! | `tag` | the tag |
//! | `encrypt` | encrypts a message, as a packet or a stream |
//! | `pkcs7` | removes padding |
//! | `key` | a prepared key |
//! | `label` | the label of a packet or a stream |
//! | `layout` | the parts of encrypted bytes |
//! | `decryption` | the message of a packet |
//! | `stream` | the message of a stream |
//! | `laws` | what holds for the definitions, independent of any code |
#![tactic(auto)]

mod appending;
mod block;
mod ctr;
mod decryption;
mod encrypt;
mod fault;
mod field;
mod ghash;
mod key;
mod label;
pub mod laws;
mod layout;
mod pkcs7;
mod schedule;
mod stream;
mod tag;
mod tower;

pub use decryption::decrypt;
pub use fault::CipherFault;
pub use key::{Key, is_key};
pub use label::{LABEL, LabelFault, MAX_LABEL_LEN, labelled, split_label};
pub use stream::decrypt_stream;
