//! How it is written.
//!
//! | module | subject |
//! |---|---|
//! | `moment` | times |
//! | `window` | the time that is shown |
//! | `written` | text that is written piece by piece |
//! | `names` | names of members |
//! | `tags` | tags of Serf and Consul |
//! | `endpoint` | addresses and ports |
//! | `texts` | words and parts of lines |
//! | `columns` | tables |
//! | `json` | objects |
//! | `escape` | what JSON and HTML escape |
//! | `said` | ending the program with a message of its own |
//! | `payload` | the payload of an event |

pub(crate) mod columns;
pub(crate) mod endpoint;
pub(crate) mod escape;
pub(crate) mod json;
pub(crate) mod moment;
pub(crate) mod names;
pub(crate) mod payload;
pub(crate) mod said;
pub(crate) mod tags;
pub(crate) mod texts;
pub(crate) mod window;
pub(crate) mod written;
