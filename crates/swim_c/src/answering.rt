//! Answering a stream: one body, wherever the reply goes.

ghost use Rattle.std.specs.Prelude.{◌≡◌, ℕ, List, length, IfOk, IfErr, IsErrOf, OnErr, MatchBool};
ghost use Rattle.swim_c.specs.Exchanges.{AnswerCause, Replied};
ghost use Rattle.swim_c.specs.Forms.{Allows, bytes_in, wanted, HasTooManyIn};
ghost use Rattle.swim_c.specs.Watching.{Noted, TellsNews};

use crate::exchanging::Exchanged;
use crate::form::Form;
use crate::status::{DONE, TOO_SMALL};
use crate::watching::Watched;
use std::alloc::Global;
use swim_pack::SliceInlet;
use swim_sync::{SyncFault, room_for_both};
use swim_table::{EncodeFault, Table, read_news};

/// Where a dump is written to: the caller's memory, or a buffer that keeps new bytes.
pub trait Destination {
    /// A dump that is ready: its bytes, or only its length if writing it takes no memory.
    type Prepared: Drop;

    /// The dump has these bytes.
    ghost is_dump: { Self.Prepared → List ℕ → Type 0 };

    /// There is room for a dump of this length.
    ghost room_for: { ℕ → Self → Type 0 };

    /// A dump of these bytes was written.
    ghost wrote: { List ℕ → Self → Self → Type 0 };

    /// Makes the table's dump in this form, with this user state, ready to be written.
    ///
    /// # Errors
    ///
    /// - `TooManyRecords` if it has more than 131,072 records. This is checked first.
    /// - `Memory` if out of memory for the bytes.
    fn prepare(
        &self,
        alloc: Global,
        table: &Table,
        join: bool,
        form: Form,
        user: &[u8],
    ) -> Result<Self::Prepared, EncodeFault>
        requires { Allows form user.now }
        ensures dump { IfOk result
            (λ dump. is_dump dump (bytes_in (wanted form user.now) table.now join)) }
        ensures few { IfOk result (λ _. ¬ HasTooManyIn (wanted form user.now) table.now) }
        ensures too_many { IsErrOf result EncodeFault.TooManyRecords
            → HasTooManyIn (wanted form user.now) table.now };

    /// The length of a dump.
    fn len_of(&self, dump: &Self::Prepared) -> usize
        ensures { (bytes : List ℕ) → is_dump dump.now bytes → result ≡ length bytes };

    /// Whether there is room for a dump of this length.
    fn has_room(&self, len: usize) -> bool
        ensures { MatchBool result (room_for len self.now) (¬ room_for len self.now) };

    /// Writes the table's dump in this form, with this user state, for which there is room. Nothing
    /// is refused.
    fn write(
        &mut self,
        alloc: Global,
        table: &Table,
        join: bool,
        form: Form,
        user: &[u8],
        dump: Self::Prepared,
    )
        requires user { Allows form user.now }
        requires few { ¬ HasTooManyIn (wanted form user.now) table.now }
        requires dump { is_dump dump (bytes_in (wanted form user.now) table.now join) }
        requires room { room_for (length (bytes_in (wanted form user.now) table.now join)) self.old }
        ensures { wrote (bytes_in (wanted form user.now) table.now join) self.old self.new };
}

/// Reads a stream, writes the node's dump in this form, as the table was before, to the
/// destination, and takes the stream in. If the destination has no room, nothing is taken in, and
/// the length that the dump needs is returned.
///
/// # Errors
///
/// The node and the destination are then unchanged.
///
/// - `Wire` if the bytes do not begin with a stream.
/// - `TooManyRecords` if the dump has more than 131,072 records.
/// - `Memory` if out of memory, for the stream's claims, the dump, the names that change or the
///   join.
pub fn answer<D: Destination>(
    alloc: Global,
    held: &mut Watched,
    stream: &[u8],
    form: Form,
    user: &[u8],
    to: &mut D,
) -> Result<Exchanged, SyncFault>
    requires { Allows form user.now }
    ensures answers { IfOk result (λ made. Replied (wanted form user.now) stream.now
        (λ bytes. D.wrote bytes to.old to.new)
        (λ len. (¬ D.room_for len to.old) × (to.new ≡ to.old))
        made.status made.join made.used made.len held.old.node held.new.node) }
    ensures news { IfOk result (λ made.
        TellsNews made.status made.news held.old.node held.new.node) }
    ensures noted { IfOk result (λ made. Noted held.old.changes held.new.changes
        made.status held.old.node held.new.node) }
    ensures unchanged { OnErr result (held.new ≡ held.old) }
    ensures unwritten { OnErr result (to.new ≡ to.old) }
    ensures refused { IfErr result (AnswerCause (wanted form user.now) stream.now held.old.node.table) }
{
    let table = held.node.table();
    let mut inlet = SliceInlet::new(stream);
    let (offered, join) = read_news(alloc, &mut inlet, table)?;
    // opens the invariant: the table is legal
    let _ = offered.len();
    let used = stream.len() - inlet.rest().len();
    let reply = to.prepare(alloc, table, join, form, user)?;
    let len = to.len_of(&reply);
    if !to.has_room(len) {
        return Ok(Exchanged {
            status: TOO_SMALL,
            join,
            news: false,
            used,
            len,
        });
    }
    let news = held.news(alloc, &offered)?;
    let room = room_for_both(alloc, table, &offered)?;
    to.write(alloc, table, join, form, user, reply);
    let news = held.join_in(room, offered, news);
    Ok(Exchanged {
        status: DONE,
        join,
        news,
        used,
        len,
    })
}
