//! What holds for the definitions, independent of any code. Each law is the contract of a function
//! that does nothing.

ghost use Rattle.std.specs.Prelude.{◌≡◌, ◌≢◌, ◌≤◌, ℕ, Bool, true, List, [], ◌∷◌, length, Ok};
ghost use Rattle.capture.specs.Pcap.{RecordText};
ghost use Rattle.memberlist_keyring.specs.Opening.{Opens, OpensStream};
ghost use Rattle.memberlist_message.specs.declared.message.Message.{Message};
ghost use Rattle.memberlist_message.specs.Messages.{MessageValue, makes_claim, message_of};
ghost use Rattle.memberlist_transport.specs.declared.in_the_clear.InTheClear.{InTheClear};
ghost use Rattle.memberlist_transport.specs.InTheClear.{AcceptsClear};
ghost use Rattle.memberlist_transport.specs.Packet.{max_message_len};
ghost use Rattle.memberlist_transport.specs.Stream.{IsClearStream};
ghost use Rattle.memberlist_view.specs.Told.{ViewValue, view_after};
ghost use Rattle.memberlist_wrap.specs.Wrapping.{Unwraps};
ghost use Rattle.swim_wire.specs.declared.state_record.StateRecord.{StateRecord};
ghost use Rattle.swim_wire.specs.Packet.{PacketValue};
ghost use Rattle.swimwatch.specs.Authentic.{HearsEncrypted, HearsEncryptedStream};
ghost use Rattle.swimwatch.specs.Datagrams.{IsOfCluster, IsReadAs, values};
ghost use Rattle.swimwatch.specs.Filtered.{Choice};
ghost use Rattle.swimwatch.specs.Records.{BeginsWithStream, claims_in};
ghost use Rattle.swimwatch.specs.Said.{AreSaidAtEnd};
ghost use Rattle.swimwatch.specs.Told.{heard_of, packet_told};
ghost use Rattle.swimwatch.specs.Versions.{is_understood};
ghost use Rattle.swimwatch.specs.declared.listening.seat.Seat.{Seat};
ghost use Rattle.swimwatch.specs.Viewed.{HasEnded};
ghost use Rattle.swimwatch.specs.Views.{HearsDatagram, HearsMessages, HearsRecords, HearsStream};

/// The members that a view shows are those of the fold of its rules over what it heard; and each thing
/// that it heard was said in a record of the captures, in their order: by a message of the datagram
/// in it, or in a stream that captured segments carried up to it, in the clear or under a key.
pub fn shown()
    ensures { (s : Choice) (first : ViewValue) (records : List RecordText) (seat : Seat)
        → HasEnded s first records seat
        → AreSaidAtEnd s first records seat.watch.listener.view }
{}

/// With keys, and unless what is in the clear is accepted, all that is heard was encrypted under one
/// of the keys: the messages of a datagram, and the claims of a stream. What no key decrypts changes
/// nothing of the view.
pub fn heard_is_authentic()
    ensures datagram { (keys : List (List ℕ)) (label bytes : List ℕ) (time : ℕ)
        (old new : ViewValue) → keys ≢ []
        → HearsDatagram InTheClear.Refused keys label bytes time old new
        → HearsEncrypted keys bytes time old new }
    ensures stream { (keys : List (List ℕ)) (bytes : List ℕ) (time : ℕ) (old new : ViewValue)
        → keys ≢ [] → HearsStream InTheClear.Refused keys bytes time true old new
        → HearsEncryptedStream keys bytes time old new }
    ensures forged { (keys : List (List ℕ)) (label bytes : List ℕ) (time : ℕ)
        (old new : ViewValue) → keys ≢ [] → ((plain : List ℕ) → ¬ Opens keys bytes plain)
        → HearsDatagram InTheClear.Refused keys label bytes time old new → new ≡ old }
    ensures forged_stream { (keys : List (List ℕ)) (bytes : List ℕ) (time : ℕ) (whole : Bool)
        (old new : ViewValue) → keys ≢ [] → ((plain : List ℕ) → ¬ OpensStream keys bytes plain)
        → HearsStream InTheClear.Refused keys bytes time whole old new → new ≡ old }
{}

/// Without keys, or if what is in the clear is accepted, that is heard too: the messages of a
/// datagram of the cluster that no key decrypts, and the claims of a stream.
pub fn clear_is_heard()
    ensures datagram { (policy : InTheClear) (keys : List (List ℕ)) (label bytes inner : List ℕ)
        (messages : List Message) (time : ℕ) (old new : ViewValue) → AcceptsClear policy keys
        → IsOfCluster label bytes → ((plain : List ℕ) → ¬ Opens keys bytes plain) → Unwraps max_message_len bytes inner
        → IsReadAs inner (values messages) → HearsMessages time messages messages old new
        → HearsDatagram policy keys label bytes time old new }
    ensures stream { (policy : InTheClear) (keys : List (List ℕ)) (bytes stream : List ℕ)
        (records : List StateRecord) (time : ℕ) (old new : ViewValue) → AcceptsClear policy keys
        → IsClearStream 33554432 bytes stream → BeginsWithStream stream (claims_in records)
        → is_understood records ≡ true → HearsRecords time (claims_in records) old new
        → HearsStream policy keys bytes time true old new }
{}

/// So it matters for a claim that is alone in a datagram and in the clear. It is heard without keys,
/// or if what is in the clear is accepted; otherwise it changes nothing.
pub fn a_claim_in_the_clear()
    ensures accepted { (policy : InTheClear) (keys : List (List ℕ)) (first : ℕ) (body : List ℕ)
        (packet : PacketValue) (time : ℕ) (old : ViewValue) → AcceptsClear policy keys
        → makes_claim first ≡ true → message_of (first ∷ body) ≡ Ok (MessageValue.claim packet)
        → length (first ∷ body) ≤ max_message_len
        → HearsDatagram policy keys [] (first ∷ body) time old
        (view_after old (heard_of time (packet_told packet))) }
    ensures refused { (keys : List (List ℕ)) (label : List ℕ) (first : ℕ) (body : List ℕ) (time : ℕ)
        (old new : ViewValue) → keys ≢ [] → makes_claim first ≡ true
        → HearsDatagram InTheClear.Refused keys label (first ∷ body) time old new → new ≡ old }
{}
