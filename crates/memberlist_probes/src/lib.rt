//! What memberlist's failure detector did, as captures of its packets tell it.
//!
//! | module | subject |
//! |---|---|
//! | `detector` | what the failure detectors of a cluster did |
//! | `point` | where a capture was taken |
//! | `captures` | the captures, and when each of them has a packet |
//! | `probe` | a probe, and what the captures have of it |
//! | `probes` | probes, as the packets of the captures tell them |
//! | `indirect` | who asks whom to ping a member, and the probes of which nothing else tells |
//! | `fallbacks` | what the target's host answers: to TCP connections, and by refusals |
//! | `pairs` | what each prober made of its probes of each target |
//! | `health` | how healthy each member is, as its probes tell |
//! | `timing` | how a cluster is set up, read off the wire |
//! | `outcome` | what the prober made of a probe |
//! | `explanation` | why a prober had no answer in time |
//! | `leg` | what captures show of a ping and its ack, and what that leaves of the explanations |
//! | `awareness` | how a member scores its own health |
//! | `delays` | how long something took, many times |
//! | `laws` | what holds for all of it, independent of any code |
#![tactic(auto)]

mod awareness;
mod captures;
mod delays;
mod detector;
mod explanation;
mod fallbacks;
mod health;
mod indirect;
pub mod laws;
mod leg;
mod outcome;
mod pairs;
mod point;
mod probe;
mod probes;
mod timing;

pub use awareness::{Awareness, Change};
pub use captures::{Capture, Captures, Sighting, Sightings};
pub use delays::{Delays, rank_of};
pub use detector::{Detector, Span};
pub use explanation::Explanation;
pub use fallbacks::Segment;
pub use health::{Health, Healths};
pub use leg::{Leg, Passage, Refusal};
pub use outcome::{Answers, Outcome, Terms};
pub use pairs::{Left, Names, Outcomes, Pair, Pairs};
pub use point::Point;
pub use probe::{Fallback, Helper, Probe};
pub use probes::{Accusation, Observed, Probes, SAME};
pub use timing::Timing;
