//! Reading several captures together, to their ends or for a time.
//!
//! | module | subject |
//! |---|---|
//! | `captures` | reading captures, and printing what they show |
//! | `origin` | where the bytes of a capture come from |
//! | `stream` | the push/pull stream in a file |
//! | `limit` | listening for a limited time |
//! | `turns` | whose turn it is |
//! | `sources` | the records of several captures, in the order of their times |

pub(crate) mod captures;
pub(crate) mod limit;
pub(crate) mod origin;
pub(crate) mod sources;
pub(crate) mod stream;
pub(crate) mod turns;
