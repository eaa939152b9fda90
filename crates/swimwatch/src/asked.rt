//! Asking members for their tables.
//!
//! | module | subject |
//! |---|---|
//! | `pull` | the command |
//! | `ask` | asking several members at once |
//! | `inquiry` | asking one |
//! | `host` | a member's address and port |
//! | `ring` | keys, and which of them is used |
//! | `connection` | a connection that does not block |
//! | `request` | the bytes that ask |
//! | `answer` | the bytes that are the answer |
//! | `silence` | why a member has no table to show |
//! | `agreed` | what members answered, and whether they agree |
//! | `follow` | asking again and again |
//! | `metrics` | a page for Prometheus |
//! | `remembered` | the user events that members remember |
//! | `unlisted` | names that members know, and have no record of |

pub(crate) mod agreed;
pub(crate) mod answer;
pub(crate) mod ask;
pub(crate) mod connection;
pub(crate) mod follow;
pub(crate) mod host;
pub(crate) mod inquiry;
pub(crate) mod metrics;
pub(crate) mod pull;
pub(crate) mod remembered;
pub(crate) mod request;
pub(crate) mod ring;
pub(crate) mod silence;
pub(crate) mod unlisted;
