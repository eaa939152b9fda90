//! What a member of a Serf cluster believes beside memberlist's view: who intends to leave, and how
//! long the way to another member takes.
//!
//! | module | subject |
//! |---|---|
//! | `intents` | the last intent to leave or to join that is believed of each name |
//! | `estimate` | how long the way to a member and back takes, by two coordinates |
//! | `laws` | what holds for intents, independent of any code |
#![tactic(auto)]

mod estimate;
mod intents;
pub mod laws;

pub use estimate::round_trip;
pub use intents::{Intent, Intents, Standing, left_time};
