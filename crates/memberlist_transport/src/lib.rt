//! Decrypts and unwraps what memberlist's transport sends: one packet, or one stream.
//!
//! | module | subject |
//! |---|---|
//! | `packet` | the message of a packet |
//! | `message` | what a message is |
//! | `unwrapped` | the bytes of a packet's message, whatever they are |
//! | `unwrapped_stream` | the bytes of a message in one direction of a connection |
//! | `stream` | the push/pull stream of a connection |
//! | `reply` | the push/pull stream that replies to one |
//! | `in_the_clear` | what becomes of what is not encrypted |
//! | `fault` | why a packet or a stream is refused |
//! | `laws` | what holds for the definitions, independent of any code |
#![tactic(auto)]

mod fault;
mod in_the_clear;
pub mod laws;
mod message;
mod packet;
mod reply;
mod stream;
mod unwrapped;
mod unwrapped_stream;

pub use fault::{PacketFault, StreamFault, UNENCRYPTED};
pub use in_the_clear::InTheClear;
pub use message::{Claiming, Message};
pub use packet::{MAX_MESSAGE_LEN, open_packet};
pub use reply::open_reply;
pub use stream::open_stream;
pub use unwrapped::unwrap_packet;
pub use unwrapped_stream::unwrap_reply;
