//! What holds for messages, independent of any code.

ghost use Rattle.std.specs.Prelude.{◌≡◌, ℕ, ◌<◌, ◌^◌, List, Ok, length};
ghost use Rattle.memberlist_message.specs.Leaves.{AreLeaves};
ghost use Rattle.memberlist_message.specs.Messages.{PingValue, IndirectPingValue, AckValue, message_of};
ghost use Rattle.memberlist_message.specs.Messages.MessageValue.{ping, indirect_ping, ack, nack, user, error};
ghost use Rattle.memberlist_message.specs.Writing.{ping_bytes, indirect_ping_bytes, ack_bytes, nack_bytes, user_bytes, error_bytes};

/// Each message without claims that is written is read back, if its texts are short enough to be
/// written.
pub fn written_is_read()
    ensures ping { (p : PingValue) → p.seq_no < 2 ^ 32 → p.source_port < 2 ^ 16
        → length p.node < 2 ^ 16 → length p.source_addr < 2 ^ 16 → length p.source_node < 2 ^ 16
        → message_of (ping_bytes p) ≡ Ok (ping p) }
    ensures indirect_ping { (p : IndirectPingValue) → p.seq_no < 2 ^ 32 → p.port < 2 ^ 16
        → p.source_port < 2 ^ 16 → length p.target < 2 ^ 16 → length p.node < 2 ^ 16
        → length p.source_addr < 2 ^ 16 → length p.source_node < 2 ^ 16
        → message_of (indirect_ping_bytes p) ≡ Ok (indirect_ping p) }
    ensures ack { (a : AckValue) → a.seq_no < 2 ^ 32 → length a.payload < 2 ^ 16
        → message_of (ack_bytes a) ≡ Ok (ack a) }
    ensures nack { (seq_no : ℕ) → seq_no < 2 ^ 32
        → message_of (nack_bytes seq_no) ≡ Ok (nack seq_no) }
    ensures user { (bytes : List ℕ) → message_of (user_bytes bytes) ≡ Ok (user bytes) }
    ensures error { (text : List ℕ) → length text < 2 ^ 16
        → message_of (error_bytes text) ≡ Ok (error text) }
{}

/// Messages have one list of leaves, and one number of truncated parts.
pub fn one_list_of_leaves()
    ensures { (messages leaves others : List (List ℕ)) (n m : ℕ) → AreLeaves messages leaves n
        → AreLeaves messages others m → (leaves ≡ others) × (n ≡ m) }
{}
