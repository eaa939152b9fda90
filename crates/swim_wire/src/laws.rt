//! Laws of the messages: each text has one value, and is not a proper prefix of another of its
//! kind.

ghost use Rattle.std.specs.Prelude.{◌≡◌, ℕ, List, ◌++◌};
ghost use Rattle.swim_claim.specs.declared.claim.Claim.{Claim};
ghost use Rattle.swim_wire.specs.declared.stream.Header.{Header};
ghost use Rattle.swim_wire.specs.Packet.{PacketValue};
ghost use Rattle.swim_wire.specs.Texts.{PacketText, HeaderText, StateText, DatagramText};

pub use crate::canonical_law::canonical;
pub use crate::stream_law::one_stream;

/// No message is a proper prefix of another of its kind, and each has one value: a packet, a
/// header, a state record, and a datagram, whose value is the list of its packets.
pub fn one_message()
    ensures packet { (a b x y : List ℕ) (p q : PacketValue) → PacketText a p → PacketText b q
        → a ++ x ≡ b ++ y → (a ≡ b) × (p ≡ q) }
    ensures header { (a b x y : List ℕ) (g h : Header) → HeaderText a g → HeaderText b h
        → a ++ x ≡ b ++ y → (a ≡ b) × (g ≡ h) }
    ensures state { (a b x y : List ℕ) (c d : Claim) → StateText a c → StateText b d
        → a ++ x ≡ b ++ y → (a ≡ b) × (c ≡ d) }
    ensures datagram { (a b x y : List ℕ) (packets others : List PacketValue)
        → DatagramText a packets → DatagramText b others → a ++ x ≡ b ++ y
        → (a ≡ b) × (packets ≡ others) }
{}
