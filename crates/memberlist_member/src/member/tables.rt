//! Tables that members exchange.

ghost use Rattle.std.specs.Prelude.{◌≡◌, ℕ, IfOk, List, false, true};
ghost use Rattle.memberlist_member.specs.Reading.{IsRead};
ghost use Rattle.std.specs.List.{All, Contains};
ghost use Rattle.memberlist_member.specs.Staying.{Adds, ShowsTheSame, Stays};
ghost use Rattle.memberlist_member.specs.Versions.{are_compatible};
ghost use Rattle.memberlist_member.specs.Showing.{GoesBy};
ghost use Rattle.memberlist_member.specs.Showing.{GoesByTable, GoesOn, KeepsLines};
ghost use Rattle.memberlist_member.specs.Saying.{said_in_table};
ghost use Rattle.memberlist_view.specs.declared.heard.Said.{Said};

use crate::claims;
use crate::connections::Purpose;
use crate::member::Member;
use crate::output::Output;
use crate::versions::are_compatible;
use memberlist_view::{Entry, Heard, MemberName, Said, State};
use rand_core::Rng;
use std::alloc::{AllocError, Global};
use swim_claim::{Claim, Facts, Kind};
use swim_pack::SliceInlet;
use swim_wire::{
    Header, WireFault, put_state_with_details, read_header, read_state, state_with_details_len,
    write_header,
};

/// What a stream says so far.
#[derive(Drop)]
enum Stream {
    /// A whole table, whether its sender joins, and the program's state behind it.
    Table {
        claims: Vec<Claim>,
        join: bool,
        state: Vec<u8>,
    },
    /// More bytes are needed.
    Ended,
    /// It is none.
    Refused,
}

impl Member {
    /// Takes in the table in a stream, once it is whole: answers with its own, if it was not asked
    /// for, and merges it (`handleConn`, `pushPullNode`), unless not all understand each other.
    pub(crate) fn take_table<R: Rng>(
        &mut self,
        conn: u64,
        purpose: Purpose,
        message: &[u8],
        rng: &mut R,
    ) -> Result<(), AllocError>
        ensures adds { Adds 0 0 1 self.old self.new }
        ensures stays { Stays self.old self.new }
        ensures goes { GoesByTable message.now self.old self.new }
        ensures lines { KeepsLines self.old self.new }
    {
        match read_stream(self.alloc, message)? {
            Stream::Ended => Ok(()),
            Stream::Refused => {
                self.refuse();
                self.hang_up(conn)
            }
            Stream::Table {
                claims,
                join,
                state,
            } => {
                if !are_compatible(&self.view, &claims) {
                    return self.turn_away(conn, &claims);
                }
                self.answer_table(conn, purpose, join, rng)?;
                self.hang_up(conn)?;
                self.merge_all(claims, rng)?;
                self.show_state(state, join)
            }
        }
    }

    /// Refuses a table with these records: of those that are alive in it, or shown, not all understand
    /// each other (`verifyProtocol`).
    fn turn_away(&mut self, conn: u64, _claims: &[Claim]) -> Result<(), AllocError>
        requires incompatible { are_compatible self.old.view _claims.now ≡ false }
        ensures adds { Adds 0 0 0 self.old self.new }
        ensures stays { Stays self.old self.new }
        ensures goes { GoesOn self.old self.new }
        ensures lines { KeepsLines self.old self.new }
        ensures shown { ShowsTheSame self.old self.new }
    {
        self.refuse();
        self.put(Output::Incompatible { conn })?;
        self.hang_up(conn)
    }

    /// Merges the records of another member's table, which are understood.
    fn merge_all<R: Rng>(&mut self, claims: Vec<Claim>, rng: &mut R) -> Result<(), AllocError>
        requires compatible { are_compatible self.old.view claims.items ≡ true }
        ensures adds { Adds 0 0 0 self.old self.new }
        ensures stays { Stays self.old self.new }
        ensures goes { (told : List Said)
            → All (λ each. Contains told (said_in_table self.old.own.name each)) claims.items
            → GoesBy told self.old self.new }
        ensures lines { KeepsLines self.old self.new }
    {
        for claim in claims {
            self.merge(claim, rng)?;
        }
        Ok(())
    }

    /// Merges a record of another member's table (`mergeState`): one that is dead there is only
    /// suspected, and its sender is not named, so it counts as this member's own suspicion.
    fn merge<R: Rng>(&mut self, claim: Claim, rng: &mut R) -> Result<(), AllocError>
        ensures adds { Adds 0 0 0 self.old self.new }
        ensures stays { Stays self.old self.new }
        ensures goes { (told : List Said) → Contains told (said_in_table self.old.own.name claim)
            → GoesBy told self.old self.new }
        ensures lines { KeepsLines self.old self.new }
    {
        let packet = claims::merged(self.alloc, claim, self.own.name.name())?;
        self.hear(&packet, false, rng)
    }

    /// Puts out another program's state, if there is one.
    fn show_state(&mut self, bytes: Vec<u8>, join: bool) -> Result<(), AllocError>
        ensures adds { Adds 0 0 0 self.old self.new }
        ensures stays { Stays self.old self.new }
        ensures goes { GoesOn self.old self.new }
        ensures lines { KeepsLines self.old self.new }
    {
        if bytes.is_empty() {
            return Ok(());
        }
        self.put(Output::UserState { bytes, join })
    }

    /// Answers a table with its own, unless it asked for that table.
    fn answer_table<R: Rng>(
        &mut self,
        conn: u64,
        purpose: Purpose,
        join: bool,
        rng: &mut R,
    ) -> Result<(), AllocError>
        ensures adds { Adds 0 0 1 self.old self.new }
        ensures stays { Stays self.old self.new }
        ensures goes { GoesOn self.old self.new }
        ensures lines { KeepsLines self.old self.new }
        ensures shown { ShowsTheSame self.old self.new }
    {
        if purpose != Purpose::Theirs {
            return Ok(());
        }
        let answer = self.table(join)?;
        self.answer(conn, answer, rng)
    }

    /// Knows the members of this table, which it had before it was stopped, say, without telling others
    /// of them (own). Returns whether it is a whole table.
    ///
    /// # Errors
    ///
    /// `AllocError` if out of memory: some of them are then known.
    pub fn recall<R: Rng>(&mut self, table: &[u8], rng: &mut R) -> Result<bool, AllocError>
        ensures adds { Adds 0 0 0 self.old self.new }
        ensures stays { Stays self.old self.new }
    {
        let Stream::Table { claims, .. } = read_stream(self.alloc, table)? else {
            return Ok(false);
        };
        for claim in claims {
            let is_own = *claim.name().bytes() == *self.own.name.name().bytes();
            if claim.kind() == Kind::Alive && !is_own {
                self.know(claim, rng)?;
            }
        }
        Ok(true)
    }

    /// Knows a member that is said to be alive, and tells nobody.
    fn know<R: Rng>(&mut self, claim: Claim, rng: &mut R) -> Result<(), AllocError>
        ensures adds { Adds 0 0 0 self.old self.new }
        ensures stays { Stays self.old self.new }
    {
        let heard = Heard {
            time: self.time,
            said: Said::of_record(claim, false),
        };
        self.know_heard(&heard, rng)
    }

    /// Knows the member of which it heard, and tells nobody.
    fn know_heard<R: Rng>(&mut self, heard: &Heard, rng: &mut R) -> Result<(), AllocError>
        requires now { heard.now.time ≡ self.old.time }
        ensures adds { Adds 0 0 0 self.old self.new }
        ensures stays { Stays self.old self.new }
    {
        match self.take_in(heard)? {
            Some(event) => self.follow(heard.said.name(), event, rng),
            None => Ok(()),
        }
    }

    /// Its table, as a stream.
    pub fn table(&self, join: bool) -> Result<Vec<u8>, AllocError> {
        let mut records = Vec::new(self.alloc);
        let mut nodes = 0u32;
        for each in self.view.iter() {
            if write_entry(&mut records, each.0, each.1)? {
                nodes = nodes.saturating_add(1);
            }
        }
        let header = Header {
            nodes,
            user_len: u32::try_from(self.state.len()).unwrap_or(u32::MAX),
            join,
        };
        let mut out = Vec::new(self.alloc);
        write_header(&mut out, &header)?;
        out.append(&mut records)?;
        out.extend_from_slice(&self.state)?;
        Ok(out)
    }
}

/// Appends the record of a member. Returns whether it has one: not if only its address is known.
fn write_entry(out: &mut Vec<u8>, name: &MemberName, entry: &Entry) -> Result<bool, AllocError> {
    let Some(details) = &entry.details else {
        return Ok(false);
    };
    let kind = match &entry.state {
        State::Noted | State::Seen => return Ok(false),
        State::Alive => Kind::Alive,
        State::Suspect { .. } => Kind::Suspect,
        State::Dead { .. } => Kind::Confirm,
        State::Left => Kind::Leave,
    };
    let facts = Facts {
        kind,
        inc: entry.inc,
        details: if kind == Kind::Alive {
            Some(details)
        } else {
            None
        },
    };
    let start = out.len();
    let len = state_with_details_len(name.name(), facts, details);
    out.resize(start + len, 0)?;
    let _ = put_state_with_details(out, start, name.name(), facts, details);
    Ok(true)
}

/// Reads a table.
fn read_stream(alloc: Global, bytes: &[u8]) -> Result<Stream, AllocError>
    ensures { IfOk result (λ stream. IsRead stream bytes.now) }
{
    let mut inlet = SliceInlet::new(bytes);
    let header = match read_header(&mut inlet) {
        Ok(header) => header,
        Err(fault) => return why(fault),
    };
    let mut claims = Vec::new(alloc);
    for _ in 0..header.nodes {
        match read_state(alloc, &mut inlet) {
            Ok(claim) => claims.push(claim)?,
            Err(fault) => return why(fault),
        }
    }
    match inlet.rest().get(..header.user_len as usize) {
        Some(state) => Ok(Stream::Table {
            claims,
            join: header.join,
            state: state.to_vec(alloc)?,
        }),
        None => Ok(Stream::Ended),
    }
}

/// What a fault says of a table.
fn why(fault: WireFault) -> Result<Stream, AllocError>
    ensures { (bytes : List ℕ) → IfOk result (λ stream. IsRead stream bytes) }
{
    match fault {
        WireFault::Memory => Err(AllocError),
        WireFault::Ended => Ok(Stream::Ended),
        _ => Ok(Stream::Refused),
    }
}
