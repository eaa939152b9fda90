//! What is believed about members, and who believes it.
//!
//! | module | subject |
//! |---|---|
//! | `listener` | a listener that hears all of it |
//! | `directory` | which member is at an address |
//! | `places` | when an address of a member was last heard |
//! | `view_name` | the name of a view among several |
//! | `change` | what a message changed |
//! | `roster` | what somebody knows about members |
//! | `known` | what somebody knows about one |
//! | `agreement` | what several say about members, and whether they agree |

pub(crate) mod agreement;
pub(crate) mod change;
pub(crate) mod directory;
pub(crate) mod known;
pub(crate) mod listener;
pub(crate) mod places;
pub(crate) mod roster;
pub(crate) mod view_name;
