//! What a member of a cluster that hears these messages at these times shows for each name.
//!
//! | module | subject |
//! |---|---|
//! | `member_name` | the name of a member, as a key of a view |
//! | `heard` | what was heard, and when |
//! | `entry` | what a view shows for a name |
//! | `accusers` | who suspects a member |
//! | `rivals` | other agents of one name |
//! | `event` | what changed |
//! | `change` | the rules, one name at a time |
//! | `view` | the view of all names |
//! | `laws` | what holds for every view, independent of any code |
#![tactic(auto)]

mod accusers;
mod change;
mod entry;
mod event;
mod heard;
pub mod laws;
mod member_name;
mod prefix;
mod rivals;
mod view;

pub use accusers::Accusers;
pub use entry::{Entry, State};
pub use event::Event;
pub use heard::{Heard, Said};
pub use member_name::MemberName;
pub use rivals::Rivals;
pub use view::{Changed, View};
