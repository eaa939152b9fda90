//! Filling buffers of the library with a dump, a reply or a listing.

ghost use Rattle.std.specs.Prelude.{◌≡◌, ⊤, IfOk, IsErrOf};
ghost use Rattle.swim_table.specs.Listing.{listing};
ghost use Rattle.swim_c.specs.Buffers.{IsNoMemory};
ghost use Rattle.swim_c.specs.Forms.{Allows, bytes_in, wanted, HasTooManyIn};
ghost use Rattle.swim_c.specs.NewBytes.{AnsweredNew, FilledOr, HasBytes, OfferedNew};
ghost use Rattle.swim_c.specs.Watching.{Noted, TellsNews};

use crate::answering::{Destination, answer};
use crate::buffer::Buffer;
use crate::exchanging::Exchanged;
use crate::form::Form;
use crate::kept::Kept;
use crate::status::{DONE, MEMORY};
use crate::watching::Watched;
use std::alloc::{AllocError, Global};
use swim_table::{EncodeFault, Node, Table, list};

/// Fills the buffer with the table's dump in the form with this number, with this user state. Returns
/// a status.
pub fn offer_new(
    alloc: Global,
    table: &Table,
    join: bool,
    form: u32,
    user: &[u8],
    buffer: &mut Buffer,
) -> u32
    ensures { OfferedNew form user.now table.now join buffer.old buffer.new result }
{
    let form = match Form::of(form, user) {
        Ok(form) => form,
        Err(status) => return status,
    };
    match kept_dump(alloc, table, join, form, user) {
        Ok(kept) => {
            buffer.fill(alloc, kept);
            DONE
        }
        Err(fault) => fault.number(),
    }
}

fn kept_dump(
    alloc: Global,
    table: &Table,
    join: bool,
    form: Form,
    user: &[u8],
) -> Result<Box<Kept>, EncodeFault>
    requires { Allows form user.now }
    ensures bytes { IfOk result (λ kept.
        kept.value.bytes ≡ bytes_in (wanted form user.now) table.now join) }
    ensures few { IfOk result (λ _. ¬ HasTooManyIn (wanted form user.now) table.now) }
    ensures too_many { IsErrOf result EncodeFault.TooManyRecords
        → HasTooManyIn (wanted form user.now) table.now }
{
    let dump = form.dump(alloc, table, join, user)?;
    let kept = Kept::boxed(alloc, dump)?;
    Ok(kept)
}

impl Destination for Buffer {
    type Prepared = Box<Kept>;

    ghost is_dump = { λ kept bytes. kept.value.bytes ≡ bytes };

    ghost room_for = { λ len to. ⊤ };

    ghost wrote = { λ bytes old new. HasBytes bytes new };

    fn prepare(
        &self,
        alloc: Global,
        table: &Table,
        join: bool,
        form: Form,
        user: &[u8],
    ) -> Result<Box<Kept>, EncodeFault> {
        kept_dump(alloc, table, join, form, user)
    }

    fn len_of(&self, dump: &Box<Kept>) -> usize {
        dump.len()
    }

    fn has_room(&self, _len: usize) -> bool {
        true
    }

    fn write(
        &mut self,
        alloc: Global,
        _table: &Table,
        _join: bool,
        _form: Form,
        _user: &[u8],
        dump: Box<Kept>,
    ) {
        self.fill(alloc, dump);
    }
}

/// Answers a stream in the form with this number, with this user state: fills the buffer with the
/// reply.
pub fn answer_new(
    alloc: Global,
    held: &mut Watched,
    stream: &[u8],
    form: u32,
    user: &[u8],
    buffer: &mut Buffer,
) -> Exchanged
    ensures answers { AnsweredNew form user.now stream.now buffer.old buffer.new
        result.status result.join result.used result.len held.old.node held.new.node }
    ensures news { TellsNews result.status result.news held.old.node held.new.node }
    ensures noted { Noted held.old.changes held.new.changes
        result.status held.old.node held.new.node }
{
    match Form::of(form, user) {
        Ok(form) => Exchanged::reported(answer(alloc, held, stream, form, user, buffer)),
        Err(status) => Exchanged::refused(status),
    }
}

/// Fills the buffer with the listing of the node's table. Returns a status.
pub fn list_new(alloc: Global, node: &Node, buffer: &mut Buffer) -> u32
    ensures { FilledOr (listing node.now.table) buffer.old buffer.new result IsNoMemory }
{
    match kept_listing(alloc, node) {
        Ok(kept) => {
            buffer.fill(alloc, kept);
            DONE
        }
        Err(_) => MEMORY,
    }
}

fn kept_listing(alloc: Global, node: &Node) -> Result<Box<Kept>, AllocError>
    ensures { IfOk result (λ kept. kept.value.bytes ≡ listing node.now.table) }
{
    let text = list(alloc, node.table())?;
    Kept::boxed(alloc, text)
}
