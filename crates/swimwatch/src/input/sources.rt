//! Reading several captures together, in the order of their records' times.

ghost use Rattle.std.specs.Prelude.{◌≡◌, ℕ, [], true, None, IfNone, IfOk, IfSome, MatchBool, OnOk};
ghost use Rattle.capture.specs.Pcap.{RecordText};
ghost use Rattle.swimwatch.specs.Turns.{IsFirst};
ghost use Rattle.swimwatch.specs.Yielded.{AllWait, Begins, Finds, HasAlso, HasNoNext, ComesAfter};
ghost use Rattle.swimwatch.specs.Yielded.{IsLast, IsNext, IsOpenAt, IsOpened, ReadsOn, Open};
ghost use Rattle.swimwatch.specs.Yielded.{Opens, ReadsAt, time_in, turn_at};
ghost use Rattle.swimwatch.specs.declared.input.turns.Turn.{Turn};

use crate::NAME;
use crate::input::limit::Limit;
use crate::input::origin::{Counted, Input};
use crate::input::turns::{Turn, Turns};
use crate::text::said::said;
use capture::{CaptureFault, CaptureReader, Link, Record};
use std::alloc::Global;
use swim_pack::{FromRead, Inlet};
use swim_program::Failure;

/// A capture that is being read.
#[derive(Drop)]
struct Reading<I: Inlet> {
    inlet: Counted<I>,
    reader: CaptureReader,
    /// The next record.
    record: Record,
    /// Its bytes.
    bytes: Vec<u8>,
}

impl<I: Inlet + Drop> Reading<I> {
    /// Starts to read the capture that the word names. None if it has no records.
    fn begin(limit: Limit, word: &str, inlet: I) -> Result<Option<Reading<I>>, Failure>
        ensures { IfOk result (Begins I.seen (I.seen inlet)) }
    {
        let alloc = limit.rt.alloc();
        let mut inlet = Counted::new(inlet);
        let mut reader = match CaptureReader::begin(alloc, &mut inlet) {
            Ok(reader) => reader,
            Err(CaptureFault::Cut) if limit.is_over() => return Ok(None),
            Err(CaptureFault::Cut) => return Err(cut_header(alloc, word)),
            Err(fault) => return Err(refused(alloc, word, 0, fault)),
        };
        let mut bytes = Vec::new(alloc);
        let Some(record) = next_record(limit, word, &mut reader, &mut inlet, &mut bytes)? else {
            return Ok(None);
        };
        if Link::from_number(record.link).is_none() {
            return Err(unknown_link(alloc, word, record.link));
        }
        Ok(Some(Reading {
            inlet,
            reader,
            record,
            bytes,
        }))
    }

    /// Reads the next record, and returns whether there is one.
    fn read_on(&mut self, limit: Limit, word: &str) -> Result<bool, Failure>
        ensures { IfOk result (λ more. MatchBool more (ComesAfter I.seen self.old self.new)
            (IsLast I.seen self.old)) }
    {
        match next_record(
            limit,
            word,
            &mut self.reader,
            &mut self.inlet,
            &mut self.bytes,
        )? {
            Some(record) => {
                self.record = record;
                Ok(true)
            }
            None => Ok(false),
        }
    }
}

/// A capture with records left. A file is open only from its first record's turn to its end, since a
/// process may have some thousand files open at once. What cannot be opened again stays open.
#[derive(Drop)]
struct Source<'a> {
    word: String,
    reading: Option<Reading<FromRead<Input<'a>>>>,
    /// Whether it has no records left.
    is_done: bool,
}

impl<'a> Source<'a> {
    /// Opens the capture.
    // apart, since a function that has a buffer of a capture pays for it at each call
    #[inline(never)]
    fn open(&mut self, limit: Limit<'a>) -> Result<(), Failure>
        ensures { OnOk result (IsOpened self.old self.new) }
    {
        let input = open(limit, &self.word)?;
        self.reading = Reading::begin(limit, &self.word, FromRead::new(input))?;
        if self.reading.is_none() && !limit.is_over() {
            return Err(lost(limit.rt.alloc(), &self.word));
        }
        Ok(())
    }

    /// Closes the capture at its end.
    #[inline(never)]
    fn close(&mut self)
        ensures reading { self.new.reading ≡ None }
        ensures is_done { self.new.is_done ≡ true }
        ensures word { self.new.word ≡ self.old.word }
    {
        self.reading = None;
        self.is_done = true;
    }
}

/// The captures that are read together. Each that is open has one record in memory.
#[derive(Drop)]
pub(crate) struct Sources<'a> {
    limit: Limit<'a>,
    all: Vec<Source<'a>>,
    turns: Turns,
    /// Whether more may still come in one of them: it is no file.
    pub(crate) is_live: bool,
}

impl<'a> Sources<'a> {
    fn new(limit: Limit<'a>) -> Sources<'a>
        ensures { result.all.items ≡ [] }
    {
        Sources {
            limit,
            all: Vec::new(limit.rt.alloc()),
            turns: Turns::new(limit.rt.alloc()),
            is_live: false,
        }
    }

    /// Starts to read the captures that these words name.
    pub(crate) fn begin(limit: Limit<'a>, words: &[String]) -> Result<Sources<'a>, Failure>
        ensures { IfOk result AllWait }
    {
        let mut sources = Sources::new(limit);
        for word in words {
            let input = open(limit, word)?;
            let can_open_again = input.can_open_again();
            sources.add(word, input, can_open_again)?;
        }
        sources.open_first()?;
        Ok(sources)
    }

    /// Starts to read one capture, which is open.
    pub(crate) fn of(limit: Limit<'a>, word: &str, input: Input<'a>) -> Result<Sources<'a>, Failure>
        ensures { IfOk result AllWait }
    {
        let mut sources = Sources::new(limit);
        sources.add(word, input, false)?;
        Ok(sources)
    }

    /// Adds a capture, if it has records. It is closed until its turn if it can be opened again.
    fn add(&mut self, word: &str, input: Input<'a>, can_open_again: bool) -> Result<(), Failure>
        ensures { AllWait self.old → OnOk result (AllWait self.new) }
    {
        let Some(reading) = Reading::begin(self.limit, word, FromRead::new(input))? else {
            return Ok(());
        };
        let time = time_of(&reading);
        let place = self.all.len();
        self.is_live |= !can_open_again;
        let reading = if can_open_again { None } else { Some(reading) };
        let word = String::from_str(self.limit.rt.alloc(), word)?;
        if self
            .all
            .push(Source {
                word,
                reading,
                is_done: false,
            })
            .is_err()
        {
            return Err(Failure::Memory);
        }
        self.wait(time, place)
    }

    /// The capture at this index waits for its turn.
    fn wait(&mut self, time: u64, place: usize) -> Result<(), Failure>
        ensures waits { OnOk result (HasAlso (turn_at time place) self.old.turns.waiting.keys
            self.new.turns.waiting.keys) }
        ensures all { self.new.all ≡ self.old.all }
        ensures is_live { self.new.is_live ≡ self.old.is_live }
    {
        self.turns.wait(Turn { time, place })?;
        Ok(())
    }

    /// Opens the capture whose turn it is, if it is not open.
    fn open_first(&mut self) -> Result<(), Failure>
        ensures { OnOk result (Opens self.old self.new) }
    {
        let Some(turn) = self.turns.first() else {
            return Ok(());
        };
        let Some(source) = self.all.get_mut(turn.place) else {
            return Ok(());
        };
        if source.reading.is_none() {
            return source.open(self.limit);
        }
        Ok(())
    }

    /// The index of the capture with the earliest record, if there is one left.
    pub(crate) fn place(&self) -> Option<usize>
        ensures first { IfSome result (λ place. (turn : Turn) × (turn.place ≡ place)
            × IsFirst self.entry.now.turns.waiting.keys turn) }
        ensures none { IfNone result (self.entry.now.turns.waiting.keys ≡ []) }
    {
        match self.turns.first() {
            Some(turn) => Some(turn.place),
            None => None,
        }
    }

    /// The word that names the capture at this index.
    pub(crate) fn word(&self, place: usize) -> &str {
        match self.all.get(place) {
            Some(source) => &source.word,
            None => "",
        }
    }

    /// Whether the capture at this index has no records left.
    pub(crate) fn is_done(&self, place: usize) -> bool {
        match self.all.get(place) {
            Some(source) => source.is_done,
            None => true,
        }
    }

    /// The earliest record and its bytes, if there is one left.
    pub(crate) fn record(&self) -> Option<(Record, &[u8])>
        ensures next { IfSome result (λ r. (place : ℕ)
            × IsNext self.entry.now place (r.0, r.1.now)) }
        ensures none { IfNone result (HasNoNext self.entry.now) }
    {
        let turn = self.turns.first()?;
        let reading = self.all.get(turn.place)?.reading.as_ref()?;
        Some((reading.record, &reading.bytes))
    }

    /// When the first record was captured, in microseconds since the start of 1970; 0 if that is not
    /// known.
    pub(crate) fn begun(&self) -> u64 {
        match self.record() {
            Some((record, _)) => record.time.unwrap_or(0) / 1000,
            None => 0,
        }
    }

    /// Moves on to the record after the earliest one.
    pub(crate) fn read_on(&mut self) -> Result<(), Failure>
        ensures { (place : ℕ) (r : RecordText) → IsNext self.old place r
            → OnOk result (ReadsOn self.old self.new) }
    {
        let Some(turn) = self.turns.end() else {
            return Ok(());
        };
        if let Some(time) = self.next_time(turn.place)? {
            self.wait(time, turn.place)?;
        }
        self.open_first()
    }

    /// Reads the next record of the capture at this index, and returns its time. At its end it is
    /// closed.
    fn next_time(&mut self, place: usize) -> Result<Option<u64>, Failure>
        ensures reads { (reading : Open) → IsOpenAt self.old.all.items place reading
            → IfOk result (ReadsAt place self.old.all.items self.new.all.items) }
        ensures turns { self.new.turns ≡ self.old.turns }
        ensures is_live { self.new.is_live ≡ self.old.is_live }
    {
        let Some(source) = self.all.get_mut(place) else {
            return Ok(None);
        };
        if let Some(reading) = &mut source.reading {
            if reading.read_on(self.limit, &source.word)? {
                return Ok(Some(time_of(reading)));
            }
        }
        source.close();
        Ok(None)
    }
}

/// When the next record was captured.
fn time_of<I: Inlet>(reading: &Reading<I>) -> u64
    ensures { result ≡ time_in reading.now }
{
    reading.record.time.unwrap_or(0)
}

/// Opens what the word names.
fn open<'a>(limit: Limit<'a>, word: &str) -> Result<Input<'a>, Failure> {
    match Input::open(limit, word) {
        Ok(input) => Ok(input),
        Err(error) => Err(Failure::device(limit.rt.alloc(), NAME, word, &error)),
    }
}

/// The next record, if there is one. A capture that ends in the middle of a record ends after the
/// record before it, and a note is printed unless listening is over.
fn next_record<I: Inlet>(
    limit: Limit,
    word: &str,
    reader: &mut CaptureReader,
    inlet: &mut Counted<I>,
    bytes: &mut Vec<u8>,
) -> Result<Option<Record>, Failure>
    ensures { IfOk result (Finds reader.old (I.seen inlet.old.inlet) reader.new
        (I.seen inlet.new.inlet) bytes.new.items) }
{
    let start = inlet.count();
    match reader.next(inlet, bytes) {
        Ok(record) => Ok(record),
        Err(CaptureFault::Cut) if limit.is_over() => Ok(None),
        Err(CaptureFault::Cut) => {
            let _ = eprintln!(limit.rt;
                "{NAME}: {word}: byte {start}: the capture ends in the middle of this record, \
                 which is left out"
            );
            Ok(None)
        }
        Err(fault) => Err(refused(limit.rt.alloc(), word, start, fault)),
    }
}

/// The failure of a capture that is refused at the record beginning at this byte.
fn refused(alloc: Global, word: &str, start: u64, fault: CaptureFault) -> Failure {
    match fault {
        CaptureFault::Memory => Failure::Memory,
        CaptureFault::Device => said(format!(in alloc; "{NAME}: {word}: device fault"), 4),
        _ => said(
            format!(in alloc; "{NAME}: {word}: byte {start}: {fault}"),
            3,
        ),
    }
}

/// The failure of a capture that ends before its first record could begin.
fn cut_header(alloc: Global, word: &str) -> Failure {
    said(
        format!(in alloc; "{NAME}: {word}: byte 0: the header is cut short"),
        3,
    )
}

/// The failure of a capture that had records at the start, and has none at its turn.
fn lost(alloc: Global, word: &str) -> Failure {
    said(
        format!(in alloc;
            "{NAME}: {word}: byte 0: the file lost its records while others were read"
        ),
        3,
    )
}

/// The failure of a capture whose frames come from a link type that is not read.
fn unknown_link(alloc: Global, word: &str, link: u32) -> Failure {
    said(
        format!(in alloc;
            "{NAME}: {word}: link type {link} is not supported; \
             Ethernet, Linux cooked, raw IP and loopback are"
        ),
        3,
    )
}
