//! A member of a memberlist cluster, without sockets, clock or threads: it is told what came and what
//! time it is, and says what is to be sent.
//!
//! | module | subject |
//! |---|---|
//! | `member` | a whole member |
//! | `input`, `output` | what it is told; what it wants done, and what it tells |
//! | `config` | how it behaves |
//! | `own`, `claims` | what it says about itself; the claims that it makes |
//! | `probe`, `relays` | one probe of a member; pings on behalf of others |
//! | `rounds` | in which order members are probed |
//! | `suspicion`, `suspicions` | how long a member is suspected; those that are |
//! | `queue`, `compound` | the broadcasts that wait to be sent; several messages in one datagram |
//! | `connections` | connections, and what came over them |
//! | `lost` | members that died, and are dialled again |
//! | `cover` | labels and encryption |
//! | `versions` | whether members understand each other |
//! | `place` | where a member is |
//! | `scale` | how times and transmissions grow with the number of members |
//! | `awareness` | how healthy a member is |
//! | `fault` | why a step fails |
//! | `laws` | what holds of the definitions, without any code |
//! | `powers` | the thousandths of a decade |
#![tactic(auto)]

mod awareness;
mod claims;
mod compound;
mod config;
mod connections;
mod cover;
mod fault;
mod input;
pub mod laws;
mod lost;
mod member;
mod output;
mod own;
mod place;
mod powers;
mod probe;
mod queue;
mod relays;
mod rounds;
mod scale;
mod suspicion;
mod suspicions;
mod versions;

pub use awareness::Awareness;
pub use compound::datagram;
pub use config::{Config, ConfigFault, Settings};
pub use cover::Cover;
pub use fault::StepFault;
pub use input::Input;
pub use member::Member;
pub use output::{Output, Outputs};
pub use own::Identity;
pub use queue::{Broadcast, Queue};
pub use scale::{milli_log, push_pull_scale, retransmit_limit, suspicion_timeout};
pub use suspicion::Suspicion;
