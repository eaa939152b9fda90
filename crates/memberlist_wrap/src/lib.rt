//! Removes what memberlist's transport wraps around messages: checksums, compression, labels.
//!
//! | module | subject |
//! |---|---|
//! | `fault` | why bytes are refused |
//! | `crc` | the checksum before a packet |
//! | `bit_buffer` | bits that were read and are not used yet |
//! | `dictionary` | the dictionary |
//! | `lzw` | compressed bytes |
//! | `outer` | the outer wrapper of bytes |
//! | `wrappers` | nested wrappers |
//! | `laws` | what holds for the definitions |
#![tactic(auto)]

mod bit_buffer;
mod crc;
mod dictionary;
mod fault;
pub mod laws;
mod lzw;
mod outer;
mod wrappers;

pub use crc::crc32;
pub use fault::WrapFault;
pub use lzw::lzw_decode;
pub use wrappers::{MAX_DEPTH, unwrap, unwrap_in_place};
