//! The messages of memberlist as memberlist's handlers read them, and those that make no claims as
//! memberlist writes them.
//!
//! `swim_wire` has the strict grammar of messages that make claims. This crate is for observers and
//! members: what memberlist decodes is decoded here, into the same fields.
//!
//! | module | subject |
//! |---|---|
//! | `message` | messages, and their fields |
//! | `decode` | one message from its bytes |
//! | `parts` | the parts of a compound message, one by one |
//! | `leaves` | the parts of a message, and of its parts, that are no compound messages |
//! | `encode` | messages that make no claims, in memberlist's bytes |
//! | `form` | what the first byte of a MessagePack value announces |
//! | `heads` | bytes, numbers, lengths and texts at the start of bytes |
//! | `passing` | values of unknown keys, which are passed over |
//! | `lists` | bytes written as a list of numbers |
//! | `layout` | the fields of each message, in memberlist's order |
//! | `fields` | the fields of a message, from a map or an array |
//! | `raw` | the text or bytes of a field |
//! | `claims` | the packets of messages that make claims |
//! | `pairs` | maps as they are written |
//! | `laws` | what holds for messages, independent of any code |
#![tactic(auto)]

mod claims;
mod decode;
mod encode;
mod fields;
mod form;
mod heads;
pub mod laws;
mod layout;
mod leaves;
mod lists;
mod message;
mod pairs;
mod parts;
mod passing;
mod raw;

pub use decode::decode_message;
pub use encode::{
    encode_ack, encode_error, encode_indirect_ping, encode_nack, encode_ping, encode_user,
};
pub use leaves::Leaves;
pub use message::{Ack, ErrorResponse, IndirectPing, Message, Nack, Ping};
pub use parts::Parts;
