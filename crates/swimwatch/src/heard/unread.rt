//! What is carried for programs above memberlist and is not read, by its type.

use crate::text::written::Text;

/// How many types are named.
const MAX_NAMED: usize = 8;

/// How many user messages and user states there are of each first byte that are not Serf's, or have
/// bytes behind what is.
#[derive(Clone, Copy)]
pub(crate) struct Unread {
    counts: [u64; 256],
    /// Those without bytes.
    empty: u64,
}

impl Default for Unread {
    fn default() -> Unread {
        Unread {
            counts: [0; 256],
            empty: 0,
        }
    }
}

impl Unread {
    /// Counts a message by its first byte.
    pub(crate) fn note(&mut self, bytes: &[u8]) {
        let count = match bytes.first() {
            Some(kind) => &mut self.counts[usize::from(*kind)],
            None => &mut self.empty,
        };
        *count = count.saturating_add(1);
    }

    /// Adds what another view counted.
    pub(crate) fn add(&mut self, other: &Unread) {
        for (count, more) in self.counts.iter_mut().zip(&other.counts) {
            *count = count.saturating_add(*more);
        }
        self.empty = self.empty.saturating_add(other.empty);
    }

    /// Adds what was not read, if there is something: `; 28 user messages not read as Serf's (26 of
    /// type 10, 2 of type 3)`. Of many types the first eight are named.
    pub(crate) fn write(&self, text: &mut Text) {
        let mut sum = self.empty;
        for count in &self.counts {
            sum = sum.saturating_add(*count);
        }
        if sum == 0 {
            return;
        }
        let noun = if sum == 1 { "message" } else { "messages" };
        write!(text, "; {sum} user {noun} not read as Serf's (");
        self.write_types(text);
        text.push(')');
    }

    /// Adds how many there are of each type.
    fn write_types(&self, text: &mut Text) {
        let mut between = "";
        let mut named = 0;
        for (kind, count) in self.counts.iter().enumerate() {
            if *count > 0 && named < MAX_NAMED {
                write!(text, "{between}{count} of type {kind}");
                between = ", ";
                named += 1;
            }
        }
        if self.empty > 0 {
            write!(text, "{between}{} empty", self.empty);
        }
        let types = self.counts.iter().filter(|count| **count > 0).count();
        if named < types {
            write!(text, ", and of {} other types", types.saturating_sub(named));
        }
    }
}
