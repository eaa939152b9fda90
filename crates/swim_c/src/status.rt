//! The statuses that calls return: 0, the number of a fault, or one of these.

/// Done.
pub const DONE: u32 = 0;
/// A number is above the maximum of its field.
pub const OUT_OF_RANGE: u32 = 3;
/// Text or bytes are too long.
pub const TOO_LONG: u32 = 6;
/// Out of memory.
pub const MEMORY: u32 = 10;
/// The bytes end too soon, or there are none.
pub const ENDED: u32 = 1;
/// A name has more than 1,024 bytes.
pub const NAME_TOO_LONG: u32 = 12;
/// An address has another length.
pub const BAD_ADDRESS: u32 = 13;
/// The metadata has more than 512 bytes.
pub const META_TOO_LONG: u32 = 14;
/// The message has another type, or none.
pub const WRONG_TYPE: u32 = 16;
/// The user state has more than 20,971,520 bytes.
pub const USER_TOO_LONG: u32 = 21;
/// A label, or what is encrypted, is too long.
pub const CIPHER_TOO_LONG: u32 = 51;
/// It is not encrypted, there are keys, and only what is encrypted is read.
pub const UNENCRYPTED: u32 = memberlist_transport::UNENCRYPTED;
/// The handle has no node.
pub const NO_NODE: u32 = 64;
/// The handle has a node already.
pub const NODE_THERE: u32 = 65;
/// The buffer is too small.
pub const TOO_SMALL: u32 = 66;
/// There is no member at this index, or of this name.
pub const NO_MEMBER: u32 = 67;
/// A member that declares itself dead has left.
pub const OWN_NAME: u32 = 68;
/// A compound packet has at most 255 packets.
pub const TOO_MANY_PACKETS: u32 = 69;
/// The form of a dump is 0 or 1, and only form 1 has user state.
pub const BAD_FORM: u32 = 70;
/// There is no key, part or accuser at this index.
pub const NO_ITEM: u32 = 71;
/// The first key encrypts, so it is not removed.
pub const KEY_IN_USE: u32 = 72;
/// The member has not come back.
pub const NOT_BACK: u32 = 73;
/// A multiplier of a configuration is too large.
pub const BAD_MULTIPLIER: u32 = 75;
/// The datagrams of a configuration are too short.
pub const SHORT_DATAGRAMS: u32 = 76;
/// The seed of a configuration was never drawn.
pub const NO_SEED: u32 = 77;
