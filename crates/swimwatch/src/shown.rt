//! What each command shows.
//!
//! | module | subject |
//! |---|---|
//! | `members` | `members` |
//! | `joint` | the members of several views |
//! | `deadline` | which members are shown, and for which moment |
//! | `suspicion` | until when a suspicion lasts |
//! | `timeline` | `timeline` |
//! | `claims` | `claims` |
//! | `talkers` | `talkers` |
//! | `probes` | `probes` |
//! | `health` | `health` |
//! | `why` | `why` |
//! | `agent_log` | the logs of agents beside it |
//! | `spread` | `spread` |
//! | `distances` | `distances` |
//! | `changes` | what changed between the two |
//! | `report` | `report` |
//! | `objects` | claims, changes and members as JSON objects |
//! | `serf_lines` | news of intents, events and queries as lines |
//! | `serf_objects` | the same as JSON objects |

pub(crate) mod agent_log;
pub(crate) mod changes;
pub(crate) mod claims;
pub(crate) mod deadline;
pub(crate) mod distances;
pub(crate) mod health;
pub(crate) mod joint;
pub(crate) mod members;
pub(crate) mod objects;
pub(crate) mod probes;
pub(crate) mod report;
pub(crate) mod serf_lines;
pub(crate) mod serf_objects;
pub(crate) mod spread;
pub(crate) mod suspicion;
pub(crate) mod talkers;
pub(crate) mod timeline;
pub(crate) mod why;
