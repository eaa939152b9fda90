//! Views: the members as memberlist shows them.

pub mod handle;
pub mod hearing;
pub mod held;
pub mod offering;
pub mod query;
pub mod shown;
