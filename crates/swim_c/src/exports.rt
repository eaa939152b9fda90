//! The functions that C calls.

mod agent_inputs;
mod agent_wishes;
mod agents;
mod buffers;
mod forgetting;
mod keyrings;
mod messages;
mod open_close;
mod packets;
mod seal;
mod streams;
mod table;
mod unwrap;
mod version;
mod views;
mod watch;
