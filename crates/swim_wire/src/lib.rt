//! The messages of memberlist, as bytes and as claims: packets, and the parts of push/pull streams.
//!
//! | module | subject |
//! |---|---|
//! | `packet`, `datagram` | packets of one claim; one packet, or a compound packet of several |
//! | `stream`, `user_state` | the header and the records of a stream; the user state at its end |
//! | `state_record` | the records of a stream with all that they say |
//! | `claimless` | messages that make no claim |
//! | `compression` | the map of a compressed message |
//! | `layout` | the keys of each map, the kinds of their values, and their limits |
//! | `map` | maps of a layout, read key by key |
//! | `in_order` | messages that are at hand as a whole, each key once in alphabetical order |
//! | `message` | the fields of messages, before they are checked as a whole |
//! | `claims` | the claims, packets and headers that pass this check |
//! | `canonical` | messages in their canonical bytes |
//! | `fault` | why a message was refused |
//! | `laws` | what holds for messages, independent of any code |
//! | `stream_law`, `canonical_law` | the same, for streams and for canonical bytes |
#![tactic(auto)]

mod canonical;
mod canonical_law;
mod claimless;
mod claims;
mod compression;
mod datagram;
mod fault;
mod in_order;
pub mod laws;
mod layout;
mod map;
mod message;
mod packet;
mod state_record;
mod stream;
mod stream_law;
mod user_state;

pub use canonical::{
    encode_compound, encode_packet, header_len, put_header, put_state, put_state_with_details,
    state_len, state_with_details_len, write_header, write_state,
};
pub use claimless::{Claimless, decode_claimless};
pub use compression::decode_compression;
pub use datagram::{Datagram, decode_datagram};
pub use fault::WireFault;
pub use message::{
    ALIVE_MESSAGE, COMPOUND_MESSAGE, DEAD_MESSAGE, PUSH_PULL_MESSAGE, SUSPECT_MESSAGE,
};
pub use packet::{Packet, decode_packet};
pub use state_record::{StateRecord, read_record};
pub use stream::{Header, MAX_NODES, MAX_USER_STATE_LEN, read_header, read_state};
pub use user_state::skip_user;
