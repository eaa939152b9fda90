//! What holds for the definitions, independent of any code.

ghost use Rattle.std.specs.Prelude.{◌≡◌, ◌≢◌, ℕ, List, []};
ghost use Rattle.memberlist_keyring.specs.Opening.{Opens, OpensStream};
ghost use Rattle.memberlist_wrap.specs.Wrapping.{Unwraps};
ghost use Rattle.memberlist_transport.specs.declared.in_the_clear.InTheClear.{InTheClear};
ghost use Rattle.memberlist_transport.specs.declared.message.Message.{Message};
ghost use Rattle.memberlist_transport.specs.InTheClear.{AcceptsClear};
ghost use Rattle.memberlist_transport.specs.Packet.{Holds, HoldsClear, max_message_len};
ghost use Rattle.memberlist_transport.specs.Stream.{IsClearStream, IsSealed, IsStreamIn};
ghost use Rattle.memberlist_transport.specs.Unwrapped.{IsInside, IsInsideStream};

/// With keys in one order bytes hold at most one stream, whatever the limit, and whether streams in
/// the clear are accepted or not.
pub fn one_stream()
    ensures { (m n : ℕ) (clear other : InTheClear) (keys : List (List ℕ)) (bytes a b : List ℕ)
        → IsStreamIn m clear keys bytes a → IsStreamIn n other keys bytes b → a ≡ b }
{}

/// If there are keys, and what is in the clear is refused, the message of a packet and the stream of
/// a connection were encrypted under one of the keys, as were the bytes in a packet or a connection,
/// whatever they are.
pub fn heard_was_encrypted()
    ensures packets { (keys : List (List ℕ)) (bytes : List ℕ) (message : Message) → keys ≢ []
        → Holds InTheClear.Refused keys bytes message
        → (inner : List ℕ) × Opens keys bytes inner × HoldsClear inner message }
    ensures streams { (limit : ℕ) (keys : List (List ℕ)) (bytes stream : List ℕ) → keys ≢ []
        → IsStreamIn limit InTheClear.Refused keys bytes stream
        → (inner : List ℕ) × OpensStream keys bytes inner × IsClearStream limit inner stream }
    ensures inside { (keys : List (List ℕ)) (bytes inner : List ℕ) → keys ≢ []
        → IsInside InTheClear.Refused keys bytes inner
        → (plain : List ℕ) × Opens keys bytes plain × Unwraps max_message_len plain inner }
    ensures inside_stream { (limit : ℕ) (keys : List (List ℕ)) (bytes inner : List ℕ) → keys ≢ []
        → IsInsideStream limit InTheClear.Refused keys bytes inner
        → (plain : List ℕ) × OpensStream keys bytes plain × Unwraps limit plain inner }
{}

/// If there are no keys, or what is in the clear is accepted, each message in the clear is read; of
/// a packet's bytes, those that no key decrypts, and of a connection's those that no key is tried
/// on.
pub fn clear_is_read()
    ensures packets { (policy : InTheClear) (keys : List (List ℕ)) (bytes : List ℕ)
        (message : Message) → AcceptsClear policy keys → HoldsClear bytes message
        → Holds policy keys bytes message }
    ensures streams { (limit : ℕ) (policy : InTheClear) (keys : List (List ℕ))
        (bytes stream : List ℕ) → AcceptsClear policy keys → IsClearStream limit bytes stream
        → IsStreamIn limit policy keys bytes stream }
    ensures inside { (policy : InTheClear) (keys : List (List ℕ)) (bytes inner : List ℕ)
        → AcceptsClear policy keys → ((plain : List ℕ) → ¬ Opens keys bytes plain)
        → Unwraps max_message_len bytes inner → IsInside policy keys bytes inner }
    ensures inside_stream { (limit : ℕ) (policy : InTheClear) (keys : List (List ℕ))
        (bytes inner : List ℕ) → AcceptsClear policy keys → (IsSealed limit bytes → keys ≡ [])
        → Unwraps limit bytes inner → IsInsideStream limit policy keys bytes inner }
{}
