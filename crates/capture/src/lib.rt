//! Captures of a network, record by record, and what their frames carry.
//!
//! | module | subject |
//! |---|---|
//! | `capture_fault` | why reading a capture stopped |
//! | `stop` | why a reader returns no record: the capture's end, or a fault |
//! | `order` | the two byte orders |
//! | `taking` | the next bytes of a record, in bounded memory |
//! | `record` | a record of a capture |
//! | `checks` | checks of a capture's numbers |
//! | `pcap` | the header and the records of a pcap file |
//! | `section`, `interface`, `clock` | what a section of a pcapng capture has described so far |
//! | `blocks` | the blocks of a pcapng capture |
//! | `reader` | the reader of both formats |
//! | `fault` | why a frame carries nothing of interest |
//! | `link` | the kinds of link that frames come from |
//! | `transport` | datagrams of UDP and segments of TCP |
//! | `unreachable` | refusals of packets whose port no process has |
//! | `network` | packets of IP |
//! | `content` | what a frame carries |
//! | `tunnel` | frames in tunnels |
//! | `frame` | frames, and what they carry |
//! | `laws` | what holds for the definitions |
//! | `fate` | what became of a segment |
//! | `piece` | segments at their places in a flow |
//! | `flow` | one direction of a TCP connection, reassembled |
//! | `ends` | both endpoints of a flow |
//! | `open` | a flow that is not complete |
//! | `pair` | the flows between two endpoints |
//! | `flows` | the flows of a capture |
#![tactic(auto)]

mod blocks;
mod capture_fault;
mod checks;
mod clock;
mod content;
mod ends;
mod fate;
mod fault;
mod flow;
mod flows;
mod frame;
mod interface;
pub mod laws;
mod link;
mod network;
mod open;
mod order;
mod pair;
mod pcap;
mod piece;
mod reader;
mod record;
mod section;
mod stop;
mod taking;
mod transport;
mod tunnel;
mod unreachable;

pub use capture_fault::CaptureFault;
pub use content::{Carried, Transport};
pub use ends::{Ends, address};
pub use fate::Fate;
pub use fault::NotCarried;
pub use flow::Flow;
pub use flows::{Flows, Heard};
pub use frame::carried;
pub use link::Link;
pub use reader::CaptureReader;
pub use record::Record;
pub use transport::{Datagram, Segment};
pub use unreachable::Unreachable;
