//! The two halves of an exchange, over the caller's memory.

ghost use Rattle.std.specs.Prelude.{◌≡◌, ◌≤◌, false, length, IfOk, IfErr, OnErr, MatchResult};
ghost use Rattle.swim_sync.specs.Fault.{sync_number};
ghost use Rattle.swim_c.specs.Buffers.{IsAtFront, WrittenOr};
ghost use Rattle.swim_c.specs.Exchanges.{LacksDump, FinishCause, FinishDone, OfferedInForm, AnsweredInForm};
ghost use Rattle.swim_c.specs.Forms.{Allows, bytes_in, wanted};
ghost use Rattle.swim_c.specs.Watching.{Noted, TellsNews};

use crate::answering::{Destination, answer};
use crate::copy::Written;
use crate::form::Form;
use crate::status::{DONE, TOO_SMALL};
use crate::watching::Watched;
use std::alloc::Global;
use swim_pack::SliceInlet;
use swim_sync::SyncFault;
use swim_table::{EncodeFault, Node, Table, read_news};

/// The result of reading a stream.
#[repr(C)]
#[derive(Clone, Copy)]
pub struct Exchanged {
    pub status: u32,
    /// The stream's join flag.
    pub join: bool,
    /// Whether the node's table changed.
    pub news: bool,
    /// The length of the stream in bytes.
    pub used: usize,
    /// The length of the reply.
    pub len: usize,
}

impl Exchanged {
    pub fn refused(status: u32) -> Exchanged
        ensures { result
            ≡ record { status = status; join = false; news = false; used = 0; len = 0 } }
    {
        Exchanged {
            status,
            join: false,
            news: false,
            used: 0,
            len: 0,
        }
    }

    /// What a call reports: what was exchanged, or the status of the fault.
    pub fn reported(outcome: Result<Exchanged, SyncFault>) -> Exchanged
        ensures { MatchResult outcome (λ made. result ≡ made) (λ fault. result
            ≡ record { status = sync_number fault; join = false; news = false; used = 0; len = 0 }) }
    {
        match outcome {
            Ok(exchanged) => exchanged,
            Err(fault) => Exchanged::refused(fault.number()),
        }
    }
}

/// Writes the node's dump to the buffer in the form with this number, with this user state.
pub fn offer_in_form(node: &Node, join: bool, form: u32, user: &[u8], out: &mut [u8]) -> Written
    ensures { OfferedInForm form user.now node.now.table join
        out.old out.new result.status result.len }
{
    match Form::of(form, user) {
        Ok(form) => offer_out(node, join, form, user, out),
        Err(status) => Written::refused(status),
    }
}

/// Writes the node's dump in this form to the buffer if it fits. It takes no memory.
fn offer_out(node: &Node, join: bool, form: Form, user: &[u8], out: &mut [u8]) -> Written
    requires { Allows form user.now }
    ensures { WrittenOr (bytes_in (wanted form user.now) node.now.table join) out.old out.new
        result.status result.len (LacksDump (wanted form user.now) node.now.table) }
{
    let len = match form.dump_len(node.table(), join, user) {
        Ok(len) => len,
        Err(fault) => return Written::refused(fault.number()),
    };
    if len > out.len() {
        return Written {
            status: TOO_SMALL,
            len,
        };
    }
    form.dump_front(node.table(), join, user, len, out);
    Written { status: DONE, len }
}

/// The caller's memory. Writing to it takes none.
#[derive(Drop)]
pub struct Given<'a> {
    pub out: &'a mut [u8],
}

impl<'a> Given<'a> {
    /// This memory.
    pub fn new(out: &'a mut [u8]) -> Given<'a>
        ensures same_reference { result.out.ghost_name ≡ out.entry.ghost_name }
        ensures same { result.out.now ≡ out.old }
    {
        Given { out }
    }
}

impl<'a> Destination for Given<'a> {
    type Prepared = usize;

    ghost is_dump = { λ len bytes. len ≡ length bytes };

    ghost room_for = { λ len to. len ≤ length to.out.now };

    ghost wrote = { IsAtFront };

    fn prepare(
        &self,
        _alloc: Global,
        table: &Table,
        join: bool,
        form: Form,
        user: &[u8],
    ) -> Result<usize, EncodeFault> {
        form.dump_len(table, join, user)
    }

    fn len_of(&self, dump: &usize) -> usize {
        *dump
    }

    fn has_room(&self, len: usize) -> bool {
        len <= self.out.len()
    }

    fn write(
        &mut self,
        _alloc: Global,
        table: &Table,
        join: bool,
        form: Form,
        user: &[u8],
        dump: usize,
    ) {
        form.dump_front(table, join, user, dump, self.out);
    }
}

/// Answers a stream in the form with this number, with this user state: writes the reply to the
/// caller's memory.
pub fn answer_in_form(
    alloc: Global,
    held: &mut Watched,
    stream: &[u8],
    form: u32,
    user: &[u8],
    out: &mut [u8],
) -> Exchanged
    ensures answers { AnsweredInForm form user.now stream.now out.old out.new
        result.status result.join result.used result.len held.old.node held.new.node }
    ensures news { TellsNews result.status result.news held.old.node held.new.node }
    ensures noted { Noted held.old.changes held.new.changes
        result.status held.old.node held.new.node }
{
    match Form::of(form, user) {
        Ok(form) => {
            let mut to = Given::new(out);
            Exchanged::reported(answer(alloc, held, stream, form, user, &mut to))
        }
        Err(status) => Exchanged::refused(status),
    }
}

/// Reads a stream and takes it in.
pub fn finish_stream(alloc: Global, held: &mut Watched, stream: &[u8]) -> Exchanged
    ensures finishes { FinishDone stream.now
        result.status result.join result.used result.len held.old.node held.new.node }
    ensures news { TellsNews result.status result.news held.old.node held.new.node }
    ensures noted { Noted held.old.changes held.new.changes
        result.status held.old.node held.new.node }
{
    Exchanged::reported(try_finish(alloc, held, stream))
}

fn try_finish(alloc: Global, held: &mut Watched, stream: &[u8]) -> Result<Exchanged, SyncFault>
    ensures finishes { IfOk result (λ made. FinishDone stream.now
        made.status made.join made.used made.len held.old.node held.new.node) }
    ensures news { IfOk result (λ made.
        TellsNews made.status made.news held.old.node held.new.node) }
    ensures noted { IfOk result (λ made. Noted held.old.changes held.new.changes
        made.status held.old.node held.new.node) }
    ensures unchanged { OnErr result (held.new ≡ held.old) }
    ensures refused { IfErr result (FinishCause stream.now) }
{
    let mut inlet = SliceInlet::new(stream);
    let (replied, join) = read_news(alloc, &mut inlet, held.node.table())?;
    // opens the invariant: the table is legal
    let _ = replied.len();
    let news = held.join(alloc, replied)?;
    Ok(Exchanged {
        status: DONE,
        join,
        news,
        used: stream.len() - inlet.rest().len(),
        len: 0,
    })
}
