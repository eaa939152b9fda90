//! A stream that comes in pieces, and how far it has been read.

ghost use Rattle.std.specs.Prelude.{◌≡◌, ◌≢◌, ◌+◌, ◌<◌, ◌≤◌, true, false, length, drop, OnOk, OnErr, IfOk, IfErr, MatchOption};
ghost use Rattle.swim_wire.specs.declared.fault.WireFault.TheVariants.{Memory};
ghost use Rattle.swim_c.specs.Exchanges.{HoldsNoStream};
ghost use Rattle.swim_c.specs.declared.progress.Progress.{Progress};
ghost use Rattle.swim_c.specs.Progressing.{HasBegun, IsProgressIn, StopsAt, TakesRecord, WholeDone};

use crate::status::DONE;
use std::alloc::Global;
use swim_claim::Claim;
use swim_pack::SliceInlet;
use swim_wire::{WireFault, read_header, read_state};

/// How far a stream has been read. If all numbers are zero, nothing was read.
#[repr(C)]
#[derive(Clone, Copy)]
pub struct Progress {
    /// The offset of the first byte that was not read.
    pub at: usize,
    /// How many records are still to come.
    pub left: u32,
    /// The length of the user state.
    pub user_len: u32,
    /// Whether the header was read.
    pub has_header: bool,
}

impl Progress {
    /// Reads on, up to the user state or the end of the last whole record. Returns a status.
    pub fn read_on(&mut self, alloc: Global, bytes: &[u8]) -> u32
        ensures progress { IsProgressIn bytes.now self.old → IsProgressIn bytes.now self.new }
        ensures done { IsProgressIn bytes.now self.old → WholeDone bytes.now self.new result }
    {
        match self.read_all(alloc, bytes) {
            Ok(()) => DONE,
            Err(fault) => fault.number(),
        }
    }

    /// Reads the next record, and the header before it if that was not read. None if no record is
    /// left.
    pub fn next_record(&mut self, alloc: Global, bytes: &[u8]) -> Result<Option<Claim>, WireFault>
        ensures progress { IsProgressIn bytes.now self.old → IsProgressIn bytes.now self.new }
        ensures read { IfOk result (λ read. MatchOption read
            (HasBegun bytes.now self.old self.new × (self.new.left ≡ 0))
            (λ claim. (begun : Progress) × HasBegun bytes.now self.old begun
            × TakesRecord bytes.now begun self.new claim)) }
        ensures stops { IfErr result (λ fault. StopsAt self.new fault bytes.now) }
    {
        self.begin(bytes)?;
        if self.left == 0 {
            return Ok(None);
        }
        match self.take_record(alloc, bytes) {
            Ok(claim) => Ok(Some(claim)),
            Err(fault) => Err(fault),
        }
    }

    fn read_all(&mut self, alloc: Global, bytes: &[u8]) -> Result<(), WireFault>
        ensures progress { IsProgressIn bytes.now self.old → IsProgressIn bytes.now self.new }
        ensures whole { OnOk result (IsProgressIn bytes.now self.old
            → WholeDone bytes.now self.new 0) }
        ensures lacks { IfErr result (λ fault. IsProgressIn bytes.now self.old → fault ≢ Memory
            → HoldsNoStream bytes.now fault) }
        ensures stops { IfErr result (λ fault. StopsAt self.new fault bytes.now) }
    {
        self.begin(bytes)?;
        while self.left > 0 {
            self.read_record(alloc, bytes)?;
        }
        self.check_user_state(bytes)
    }

    /// Reads the header if it was not read.
    fn begin(&mut self, bytes: &[u8]) -> Result<(), WireFault>
        ensures progress { OnOk result (IsProgressIn bytes.now self.old
            → IsProgressIn bytes.now self.new) }
        ensures read { OnOk result (self.new.has_header ≡ true) }
        ensures begun { OnOk result (HasBegun bytes.now self.old self.new) }
        ensures unchanged { OnErr result (self.new ≡ self.old) }
        ensures lacks { IfErr result (λ fault. IsProgressIn bytes.now self.old → fault ≢ Memory
            → HoldsNoStream bytes.now fault) }
        ensures stops { IfErr result (λ fault. StopsAt self.old fault bytes.now) }
    {
        if self.has_header {
            return Ok(());
        }
        self.read_header(bytes)
    }

    /// Reads the header.
    fn read_header(&mut self, bytes: &[u8]) -> Result<(), WireFault>
        requires { self.old.has_header ≡ false }
        ensures progress { OnOk result (IsProgressIn bytes.now self.old
            → IsProgressIn bytes.now self.new) }
        ensures read { OnOk result (self.new.has_header ≡ true) }
        ensures begun { OnOk result (HasBegun bytes.now self.old self.new) }
        ensures unchanged { OnErr result (self.new ≡ self.old) }
        ensures lacks { IfErr result (λ fault. IsProgressIn bytes.now self.old
            → HoldsNoStream bytes.now fault) }
        ensures stops { IfErr result (λ fault. StopsAt self.old fault bytes.now) }
    {
        let mut inlet = SliceInlet::new(self.unread(bytes));
        let header = read_header(&mut inlet)?;
        self.at = bytes.len() - inlet.rest().len();
        self.left = header.nodes;
        self.user_len = header.user_len;
        self.has_header = true;
        Ok(())
    }

    /// Reads the next record, and drops its claim.
    fn read_record(&mut self, alloc: Global, bytes: &[u8]) -> Result<(), WireFault>
        requires header { self.old.has_header ≡ true }
        requires left { 0 < self.old.left }
        ensures progress { OnOk result (IsProgressIn bytes.now self.old
            → IsProgressIn bytes.now self.new) }
        ensures read { OnOk result (self.old.left ≡ self.new.left + 1) }
        ensures header { self.new.has_header ≡ true }
        ensures unchanged { OnErr result (self.new ≡ self.old) }
        ensures lacks { IfErr result (λ fault. IsProgressIn bytes.now self.old → fault ≢ Memory
            → HoldsNoStream bytes.now fault) }
        ensures stops { IfErr result (λ fault. StopsAt self.old fault bytes.now) }
    {
        match self.take_record(alloc, bytes) {
            Ok(_) => Ok(()),
            Err(fault) => Err(fault),
        }
    }

    /// Reads the next record.
    fn take_record(&mut self, alloc: Global, bytes: &[u8]) -> Result<Claim, WireFault>
        requires header { self.old.has_header ≡ true }
        requires left { 0 < self.old.left }
        ensures progress { OnOk result (IsProgressIn bytes.now self.old
            → IsProgressIn bytes.now self.new) }
        ensures read { OnOk result (self.old.left ≡ self.new.left + 1) }
        ensures header { self.new.has_header ≡ true }
        ensures takes { IfOk result (λ claim. TakesRecord bytes.now self.old self.new claim) }
        ensures unchanged { OnErr result (self.new ≡ self.old) }
        ensures lacks { IfErr result (λ fault. IsProgressIn bytes.now self.old → fault ≢ Memory
            → HoldsNoStream bytes.now fault) }
        ensures stops { IfErr result (λ fault. StopsAt self.old fault bytes.now) }
    {
        let mut inlet = SliceInlet::new(self.unread(bytes));
        let claim = read_state(alloc, &mut inlet)?;
        self.at = bytes.len() - inlet.rest().len();
        self.left -= 1;
        Ok(claim)
    }

    /// Checks that the user state follows the records.
    fn check_user_state(&self, bytes: &[u8]) -> Result<(), WireFault>
        requires header { self.now.has_header ≡ true }
        requires left { self.now.left ≡ 0 }
        ensures whole { OnOk result (IsProgressIn bytes.now self.now
            → WholeDone bytes.now self.now 0) }
        ensures lacks { IfErr result (λ fault. IsProgressIn bytes.now self.now
            → HoldsNoStream bytes.now fault) }
        ensures stops { IfErr result (λ fault. StopsAt self.now fault bytes.now) }
    {
        if self.unread(bytes).len() < self.user_len as usize {
            return Err(WireFault::Ended);
        }
        Ok(())
    }

    /// The bytes that were not read.
    fn unread<'a>(&self, bytes: &'a [u8]) -> &'a [u8]
        ensures unread { result.now ≡ drop self.now.at bytes.now }
        ensures within { length result.now ≤ length bytes.now }
    {
        bytes.get(self.at..).unwrap_or_default()
    }
}
