//! Laws of captures, frames and flows: what the standards lay out is read back, and what is read of
//! a capture is laid out so; a flow has one text.

ghost use Rattle.std.specs.Prelude.{◌≡◌, ◌↔◌, ℕ, List, true};
ghost use Rattle.std.specs.Ordering.{is_eq};
ghost use Rattle.capture.specs.declared.ends.Ends.{Ends};
ghost use Rattle.capture.specs.Flows.{Placed, Assembled};
ghost use Rattle.capture.specs.OpenFlows.{ends_cmp};
ghost use Rattle.capture.specs.Pcap.{RecordText};
ghost use Rattle.capture.specs.CaptureText.{CaptureText};
ghost use Rattle.capture.specs.Whole.{ReadsWhole, AreBytes};
ghost use Rattle.capture.specs.Written.{DatagramReadBack, SegmentReadBack, FragmentRefused};

/// A datagram of UDP in a packet of IP that is not a fragment, in a frame with any padding, is what
/// the frame carries, whatever the other fields of the headers hold. If it is a tunnel, that is what
/// the frame in it carries.
pub fn datagram_read_back()
    ensures { DatagramReadBack }
{}

/// A segment of TCP with any options, in such a frame, is what the frame carries.
pub fn segment_read_back()
    ensures { SegmentReadBack }
{}

/// A frame with a part of a packet carries nothing, because it is a fragment.
pub fn fragment_refused()
    ensures { FragmentRefused }
{}

/// The segments of a flow, in the order in which they were captured, determine one text.
pub fn one_text()
    ensures { (segments : List Placed) (a b : List ℕ) → Assembled segments a
        → Assembled segments b → a ≡ b }
{}

/// Endpoints are at the same place in the order of open flows exactly if they are the same.
pub fn same_ends()
    ensures { (a b : Ends) → (is_eq (ends_cmp a b) ≡ true) ↔ (a ≡ b) }
{}

/// A capture with these records is read back, record by record, to its end.
pub fn capture_read_back()
    ensures { (bytes : List ℕ) (records : List RecordText) → CaptureText bytes records
        → ReadsWhole bytes records }
{}

/// What is read to its end is a capture with the records that were read.
pub fn capture_is_text()
    ensures { (bytes : List ℕ) (records : List RecordText) → AreBytes bytes
        → ReadsWhole bytes records → CaptureText bytes records }
{}

/// Bytes are read to their end in one way.
pub fn one_reading()
    ensures { (bytes : List ℕ) (a b : List RecordText) → ReadsWhole bytes a → ReadsWhole bytes b
        → a ≡ b }
{}
