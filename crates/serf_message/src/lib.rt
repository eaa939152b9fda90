//! The messages of Serf that ride inside memberlist, as values, both ways: read as Serf's handlers
//! read them, and written as Serf writes them.
//!
//! | module | subject |
//! |---|---|
//! | `message` | the messages that user messages of memberlist carry, and their fields |
//! | `decode`, `encode` | one such message from its bytes, and its bytes |
//! | `state`, `read_state`, `write_state` | the state that push/pulls carry |
//! | `tags` | the tags that a member's metadata carries |
//! | `coordinate` | the coordinates that the payloads of acks carry |
//! | `key_messages` | the messages about keys that queries and their responses carry |
//! | `fault` | why bytes were refused |
//! | `form` | what the first byte of a MessagePack value announces |
//! | `heads`, `signed` | bytes, numbers, lengths and texts at the start of bytes |
//! | `passing` | values of unknown keys, which are passed over |
//! | `lists` | bytes written as a list of numbers |
//! | `many` | the lengths of lists and maps, and lists of bytes and of texts |
//! | `layout` | the fields of each message, in Serf's order |
//! | `field_value`, `fields` | the fields of a message, from a map or an array |
//! | `write`, `pairs` | values and maps as they are written |
//! | `laws` | what holds for messages, independent of any code |
#![tactic(auto)]

mod coordinate;
mod decode;
mod encode;
mod fault;
mod field_value;
mod fields;
mod form;
mod heads;
mod key_messages;
pub mod laws;
mod layout;
mod lists;
mod many;
mod message;
mod pairs;
mod passing;
mod read_state;
mod signed;
mod state;
mod tags;
mod write;
mod write_state;

pub use coordinate::{Coordinate, decode_coordinate, encode_coordinate};
pub use decode::decode_message;
pub use encode::encode_message;
pub use fault::SerfFault;
pub use key_messages::{
    KeyRequest, KeyResponse, decode_key_request, decode_key_response, encode_key_request,
    encode_key_response,
};
pub use message::{Join, Leave, Message, Query, QueryResponse, Relay, UserEvent};
pub use read_state::decode_state;
pub use state::{EventGroup, GroupedEvent, State, StatusTime};
pub use tags::{Tag, decode_tags, encode_tags};
pub use write_state::encode_state;
