//! Listening to captures, and showing what was asked for.
//!
//! | module | subject |
//! |---|---|
//! | `views` | the view of each capture, or one of all, and what they print |
//! | `printer` | what the views print |
//! | `detecting` | the probes of members, and why members were suspected |
//! | `seats` | which view hears which record |
//! | `seating` | which captures each view follows |
//! | `setting` | what all views have in common |
//! | `seat` | a view, and the captures that it hears |
//! | `filter` | which frames are heard |
//! | `parcel` | what a datagram and a segment have in common |
//! | `traffic` | packets and segments, from the frames of captures |
//! | `connections` | the open connections |
//! | `progress` | how far a connection was read |
//! | `watch` | what a view hears, and what it shows |

pub(crate) mod connections;
pub(crate) mod detecting;
pub(crate) mod filter;
pub(crate) mod parcel;
pub(crate) mod printer;
pub(crate) mod progress;
pub(crate) mod seat;
pub(crate) mod seating;
pub(crate) mod seats;
pub(crate) mod setting;
pub(crate) mod traffic;
pub(crate) mod views;
pub(crate) mod watch;
