//! What the canonical bytes of messages are, independent of any code.

ghost use Rattle.std.specs.Prelude.{◌≤◌, List, All, length};
ghost use Rattle.swim_claim.specs.declared.claim.Claim.{Claim};
ghost use Rattle.swim_claim.specs.Claim.{IsLegalClaim};
ghost use Rattle.swim_wire.specs.declared.stream.Header.{Header};
ghost use Rattle.swim_claim.specs.Details.{DetailsValue, IsLegalDetails};
ghost use Rattle.swim_wire.specs.Canonical.{packet_bytes, packets_bytes, header_bytes, state_bytes, state_bytes_with};
ghost use Rattle.swim_wire.specs.Limits.{max_nodes, max_user_state_len};
ghost use Rattle.swim_wire.specs.Packet.{PacketValue, IsLegalPacket};
ghost use Rattle.swim_wire.specs.Texts.{PacketText, HeaderText, StateText, DatagramText};

/// The canonical bytes of a message are one of its texts: for a packet, a header within its limits,
/// the state record of a claim, with or without added details, and a compound of at most 255
/// packets.
pub fn canonical()
    ensures packet { (p : PacketValue) → IsLegalClaim p.claim → IsLegalPacket p.claim p.from
        → PacketText (packet_bytes p) p }
    ensures header { (h : Header) → h.nodes ≤ max_nodes → h.user_len ≤ max_user_state_len
        → HeaderText (header_bytes h) h }
    ensures state { (c : Claim) → IsLegalClaim c → StateText (state_bytes c) c }
    ensures state_with { (c : Claim) (details : DetailsValue) → IsLegalClaim c
        → IsLegalDetails details → StateText (state_bytes_with details c) c }
    ensures compound { (packets : List PacketValue) → length packets ≤ 255
        → All (λ p. IsLegalClaim p.claim × IsLegalPacket p.claim p.from) packets
        → DatagramText (packets_bytes packets) packets }
{}
