//! Why members of a memberlist cluster were suspected, as captures of its packets tell it.
//!
//! | module | subject |
//! |---|---|
//! | `causes` | what is taken in, and what can be told |
//! | `chapter` | what is told at once: suspicions, and the trouble behind them |
//! | `trouble` | probes without an answer in time, and what explains them |
//! | `cause`, `evidence` | what is told, and what it stands on |
//! | `diagnosis` | what explains the failed probes of one scene |
//! | `groups` | several members in trouble at once |
//! | `rules`, `ways` | which cause is told of a member |
//! | `subject` | the member that failed probes touch, and what was captured of it meanwhile |
//! | `numbers` | what the numbers of a member's pings tell of a silence |
//! | `restarts` | members whose pings begin anew |
//! | `scene` | the time in which probes failed |
//! | `facts` | what the captures tell: `members`, `words`, `contacts`, `case`, `episodes` |
#![tactic(auto)]

mod case;
mod cause;
mod causes;
mod chapter;
mod contacts;
mod diagnosis;
mod episodes;
mod evidence;
mod facts;
mod groups;
mod members;
mod numbers;
mod restarts;
mod rules;
mod scene;
mod subject;
mod trouble;
mod ways;
mod words;

pub use case::{Asked, Case, Tried};
pub use cause::{Cause, Way};
pub use causes::Causes;
pub use chapter::{Accusation, Behind, Chapter, Suspicion};
pub use contacts::{Answer, Contact};
pub use episodes::{Accuser, Alive, Death, Episode, Kind, News};
pub use evidence::{Evidence, Numbers};
pub use members::{Member, Members};
pub use trouble::{Of, Trouble};
pub use words::{Saying, Word};
