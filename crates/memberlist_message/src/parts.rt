//! The parts of a compound message, one by one.

ghost use Rattle.std.specs.Prelude.{◌≡◌, ◌∷◌, ◌++◌, [], suc, length, None, Some, MatchOption, IfSome};
ghost use Rattle.memberlist_message.specs.Compounds.{compound_of, parts_in, truncated_in};

use std::marker::Model;
use swim_wire::COMPOUND_MESSAGE;

/// The parts of a compound message that are still to be handed out, in the order of the message
/// (memberlist's `decodeCompoundMessage`, util.go). A part may be any bytes: a message, a compound
/// message, one of an unknown type, or none.
#[derive(Drop)]
pub struct Parts<'a> {
    lens: &'a [u8],
    bytes: &'a [u8],
}

impl<'a> Model for Parts<'a> {
    ghost use Rattle.memberlist_message.specs.Compounds.{PartsValue, lengths_in};

    ghost Value = { PartsValue };

    ghost view = { λ p. record { lens = lengths_in p.lens.now; bytes = p.bytes.now } };
}

impl<'a> Parts<'a> {
    /// The parts of a message that starts with 7: a count byte, that many lengths of two bytes each,
    /// the high byte first, and then the parts. There are none of a message of another type, nor if
    /// the bytes end before the last length does.
    pub fn of(message: &'a [u8]) -> Option<Parts<'a>>
        ensures { MatchOption result (compound_of message.now ≡ None)
            (λ parts. compound_of message.now ≡ Some parts) }
    {
        let (first, rest) = message.split_first()?;
        if *first != COMPOUND_MESSAGE {
            return None;
        }
        let (count, rest) = rest.split_first()?;
        let (lens, bytes) = rest.split_at_checked(2 * usize::from(*count))?;
        Some(Parts { lens, bytes })
    }

    /// Takes the next part. There is none after the last one, nor once a part is longer than the
    /// bytes that are left: that part and those behind it are truncated.
    pub fn next_part(&mut self) -> Option<&'a [u8]>
        // Each part is the next one, and the truncated ones stay the same.
        ensures part { MatchOption result (parts_in self.old.lens self.old.bytes ≡ [])
            (λ part. parts_in self.old.lens self.old.bytes
            ≡ part.now ∷ parts_in self.new.lens self.new.bytes) }
        ensures truncated { truncated_in self.new.lens self.new.bytes
            ≡ truncated_in self.old.lens self.old.bytes }
        ensures kept { MatchOption result (self.new ≡ self.old) (λ part.
            length self.old.lens ≡ suc (length self.new.lens)) }
        ensures bytes { IfSome result (λ part. self.old.bytes ≡ part.now ++ self.new.bytes) }
    {
        let (len, lens) = self.lens.split_first_chunk::<2>()?;
        let (part, bytes) = self
            .bytes
            .split_at_checked(usize::from(u16::from_be_bytes(*len)))?;
        self.lens = lens;
        self.bytes = bytes;
        Some(part)
    }

    /// How many parts have not been taken. After `next_part` gave none, these are truncated.
    pub fn untaken(&self) -> usize
        ensures untaken { result ≡ length self.now.lens }
        ensures truncated { parts_in self.now.lens self.now.bytes ≡ []
            → result ≡ truncated_in self.now.lens self.now.bytes }
    {
        self.lens.len() / 2
    }
}
