//! The table for programs in other languages: C functions over a member's node, and over what a
//! real cluster sends.
//!
//! | module | subject |
//! |---|---|
//! | `exports` | what C calls: open, close, packets, tables, exchanges, keyrings, wrappers |
//! | `agent` | agents: whole members of memberlist's clusters |
//! | `handle` | the handle by which a program in another language holds a node |
//! | `cluster_keys` | the keys of a cluster, and what becomes of what is in the clear |
//! | `keyring` | the same handle for these keys |
//! | `status` | the statuses that calls return |
//! | `fault` | the statuses of wrapped and encrypted bytes |
//! | `copy` | bytes that are written to a buffer of the caller |
//! | `keys` | the keys of a keyring, by index |
//! | `kept`, `kept_handle`, `buffer` | bytes in memory of the library |
//! | `opening` | a node from its parts |
//! | `watching` | a node, and the names in it that changed |
//! | `next_change` | these names, read one by one |
//! | `take` | taking in a packet or a compound packet |
//! | `refuting` | refuting what others say about a node's member |
//! | `own_packets` | what a member says, as packets |
//! | `compound` | several packets as one compound packet |
//! | `messages` | messages that make no claims |
//! | `parts` | the parts of a message, by index |
//! | `probe` | what they say, in the caller's memory |
//! | `query` | what a node reports: its listing, members and relations |
//! | `member` | a member as a table has it, in the caller's memory |
//! | `form` | the two forms of a dump |
//! | `answering` | answering a stream, wherever the reply goes |
//! | `exchanging` | the two halves of an exchange, over the caller's memory |
//! | `filling` | filling buffers of the library |
//! | `progress` | a stream that comes in pieces, and how far it has been read |
//! | `forgetting` | forgetting a name |
//! | `readmitting` | members that came back, believed |
//! | `updating` | a member's own details, replaced |
//! | `unwrapping` | unwrapping and decrypting packets and streams as a real cluster sends them |
//! | `sealing` | messages encrypted with a keyring, or labelled in the clear |
//! | `view` | views: the members as memberlist shows them |
//! | `laws` | facts about the definitions, independent of any code |
#![tactic(auto)]

mod agent;
mod answering;
mod buffer;
mod claims;
mod cluster_keys;
mod compound;
mod copy;
mod exchanging;
mod exports;
mod fault;
mod filling;
mod forgetting;
mod form;
mod handle;
mod kept;
mod kept_handle;
mod keyring;
mod keys;
mod laws;
mod member;
mod messages;
mod next_change;
mod opening;
mod own_packets;
mod parts;
mod probe;
mod progress;
mod query;
mod readmitting;
mod refuting;
mod sealing;
mod status;
mod take;
mod unwrapping;
mod updating;
mod view;
mod watching;
