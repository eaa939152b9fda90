//! How a table and a view of the same claims may differ, and how a view is memberlist's.
//!
//! What was heard, in order and with times, makes a view by memberlist's rules. The claims in it
//! make a table, which depends neither on their order nor on their times, and in which death is
//! final. This crate has no code: it says what holds between the two, and between a member's view
//! and memberlist's state.go.
//!
//! | module | subject |
//! |---|---|
//! | `laws` | what holds for every list of things heard |
#![tactic(auto)]

pub mod laws;
