//! What holds for messages, independent of any code.

ghost use Rattle.std.specs.Prelude.{◌≡◌, ◌<◌, ◌^◌, ℕ, List, Ok, length};
ghost use Rattle.std.specs.List.{AllByRecursion};
ghost use Rattle.serf_message.specs.Coordinates.{CoordinateValue, IsCoordinateInRange, coordinate_of, coordinate_bytes};
ghost use Rattle.serf_message.specs.KeyMessages.{KeyResponseValue, IsShortKeyResponse, key_request_of};
ghost use Rattle.serf_message.specs.KeyMessages.{key_request_bytes, key_response_of, key_response_bytes};
ghost use Rattle.serf_message.specs.Messages.{MessageValue, message_of};
ghost use Rattle.serf_message.specs.States.{StateValue, IsStateInRange, state_of, state_bytes};
ghost use Rattle.serf_message.specs.Tags.{TagValue, IsShortTag, tags_of, tags_bytes};
ghost use Rattle.serf_message.specs.Writing.{IsShort, IsInRange, message_bytes};

/// What is written is read back, if its texts and lists are short enough to be written.
pub fn written_is_read()
    ensures message { (m : MessageValue) → IsShort m → IsInRange m
        → message_of (message_bytes m) ≡ Ok m }
    ensures tags { (tags : List TagValue) → length tags < 2 ^ 16 → AllByRecursion IsShortTag tags
        → tags_of (tags_bytes tags) ≡ Ok tags }
    ensures coordinate { (c : CoordinateValue) → IsCoordinateInRange c
        → coordinate_of (coordinate_bytes c) ≡ Ok c }
    ensures state { (s : StateValue) → IsStateInRange s → state_of (state_bytes s) ≡ Ok s }
    ensures key_request { (key : List ℕ) → length key < 2 ^ 16
        → key_request_of (key_request_bytes key) ≡ Ok key }
    ensures key_response { (m : KeyResponseValue) → IsShortKeyResponse m
        → key_response_of (key_response_bytes m) ≡ Ok m }
{}
