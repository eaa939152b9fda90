//! Members that exchange their tables: the exchange itself, whole runs of members, and levelling.
//!
//! | module | subject |
//! |---|---|
//! | `push_pull` | the exchange of two tables, in halves over inlets and outlets and as a whole |
//! | `over_memory` | the same over memory, where no inlet or outlet fails |
//! | `event` | events in a cluster |
//! | `cluster` | the nodes of a cluster, and runs of events |
//! | `alike` | which nodes are known to have one table |
//! | `level` | exchanges after which all nodes of a cluster have one table |
//! | `fault`, `stop` | why an exchange was refused, why a run stopped |
//! | `laws` | what holds for exchanges and runs, independent of any code |
#![tactic(auto)]

mod alike;
mod cluster;
mod event;
mod fault;
pub mod laws;
mod level;
mod over_memory;
mod push_pull;
mod stop;

pub use cluster::Cluster;
pub use event::{Claims, Event};
pub use fault::SyncFault;
pub use push_pull::{
    PreparedAnswer, answer, exchange, finish, offer, prepare_answer, room_for_both,
};
pub use stop::{Stop, Why};
