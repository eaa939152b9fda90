//! Agents: a whole member of a memberlist cluster, told what came, and asked what to send.

pub mod fault;
pub mod giving;
pub mod handle;
pub mod held;
pub mod keys;
pub mod opening;
pub mod out;
pub mod place;
pub mod settings;
