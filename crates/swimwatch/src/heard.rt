//! What crossed the network, and what it says about members.
//!
//! | module | subject |
//! |---|---|
//! | `sent` | one packet, or one direction of a connection |
//! | `waiting` | connections, by their last segment |
//! | `recent` | packets that a capture has twice |
//! | `carriage` | what a datagram or a connection carries |
//! | `messages` | the messages of a datagram |
//! | `records` | the records of a stream |
//! | `versions` | streams that members refuse for their versions |
//! | `told` | what a message says about a member |
//! | `pings` | who a ping shows |
//! | `warnings` | suspicions that only warn |
//! | `serf` | what Serf's messages say |
//! | `noted` | what is noted for those who follow probes |
//! | `unread` | user messages that are not Serf's |
//! | `counts` | what was read, and what was left out and why |
//! | `serf_state` | Serf's state in a stream |

pub(crate) mod carriage;
pub(crate) mod counts;
pub(crate) mod messages;
pub(crate) mod noted;
pub(crate) mod pings;
pub(crate) mod recent;
pub(crate) mod records;
pub(crate) mod sent;
pub(crate) mod serf;
pub(crate) mod serf_state;
pub(crate) mod told;
pub(crate) mod unread;
pub(crate) mod versions;
pub(crate) mod waiting;
pub(crate) mod warnings;
