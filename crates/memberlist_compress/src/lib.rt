//! Compresses messages as memberlist does.
//!
//! | module | subject |
//! |---|---|
//! | `held` | bits that are not a whole byte yet |
//! | `bit_writer` | codes of some bits each, one after the other |
//! | `table` | which code a word and the byte after it have |
//! | `encoder` | the codes of bytes |
//! | `lzw` | compressed bytes |
//! | `map` | the map of a compression |
//! | `message` | messages compressed as memberlist sends them |
//! | `laws` | what holds for the definitions |
#![tactic(auto)]

mod bit_writer;
mod encoder;
mod held;
pub mod laws;
mod lzw;
mod map;
mod message;
mod table;

pub use lzw::lzw_encode;
pub use message::{COMPRESSIBLE, compressed, compressed_if_shorter};
