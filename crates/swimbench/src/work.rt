//! What is measured.

use crate::workload::Workload;
use std::fmt;

/// One thing that is measured.
#[derive(Clone, Copy, Debug, PartialEq, Eq)]
pub(crate) enum Work {
    /// `read_stream` over a slice.
    ReadSlice,
    /// `read_stream` over a reader.
    ReadReader,
    /// `take` of claims about new names.
    TakeNew,
    /// `take` of newer claims about known names.
    TakeKnown,
    /// `take_all` of this many claims at a time, into a table of many names.
    TakeAll(u32),
    /// `take` of the same claims one by one, into the same table.
    TakeEach,
    /// `join` of two tables with half of the names each.
    Join,
    /// `read_dump` and `join` of as many streams with one record as there are names.
    JoinEach,
    /// `relation` of two equal tables.
    Relation,
    /// `encode`.
    Encode,
    /// `offer` into memory.
    Offer,
    /// `read_stream` over a slice, and then `encode`, as `swimtab merge` does with one stream.
    Merge,
    /// `list`.
    List,
    /// `exchange` of two tables with half of the names each.
    Exchange,
    /// An exchange in a run, of two nodes whose tables are equal already.
    ExchangeEqual,
    /// `decode_packet` of an Alive.
    DecodeAlive,
    /// `decode_packet` of a Suspect.
    DecodeSuspect,
}

impl Work {
    /// All that is timed, as in the table.
    pub(crate) const ALL: [Work; 19] = [
        Work::ReadSlice,
        Work::ReadReader,
        Work::DecodeAlive,
        Work::DecodeSuspect,
        Work::TakeNew,
        Work::TakeKnown,
        Work::TakeEach,
        Work::TakeAll(1),
        Work::TakeAll(8),
        Work::TakeAll(60),
        Work::Join,
        Work::JoinEach,
        Work::Relation,
        Work::Encode,
        Work::Offer,
        Work::Merge,
        Work::List,
        Work::Exchange,
        Work::ExchangeEqual,
    ];

    /// How many records one run has, with a table of `size` names.
    pub(crate) fn records(self, size: u32) -> u32 {
        match self {
            Work::TakeEach | Work::TakeAll(_) => Workload::spread_over(size),
            _ => size,
        }
    }
}

impl fmt::Display for Work {
    fn fmt<W: fmt::Write>(&self, f: &mut fmt::Formatter<W>) -> fmt::Result {
        f.pad(match self {
            Work::ReadSlice => "read_stream, slice",
            Work::ReadReader => "read_stream, reader",
            Work::TakeNew => "take, new names",
            Work::TakeKnown => "take, known names",
            Work::TakeAll(1) => "take_all, 1 at a time",
            Work::TakeAll(8) => "take_all, 8 at a time",
            Work::TakeAll(_) => "take_all, 60 at a time",
            Work::TakeEach => "take, the same claims",
            Work::Join => "join",
            Work::JoinEach => "join, one at a time",
            Work::Relation => "relation",
            Work::Encode => "encode",
            Work::Offer => "offer",
            Work::Merge => "merge of one stream",
            Work::List => "list",
            Work::Exchange => "exchange",
            Work::ExchangeEqual => "exchange, equal tables",
            Work::DecodeAlive => "decode_packet, alive",
            Work::DecodeSuspect => "decode_packet, suspect",
        })
    }
}

/// A way to make a table whose bytes are measured.
#[derive(Clone, Copy, Debug, PartialEq, Eq)]
pub(crate) enum Making {
    /// By `read_stream`.
    Read,
    /// By `take`.
    Take,
}

impl Making {
    /// All ways, as in the table.
    pub(crate) const ALL: [Making; 2] = [Making::Read, Making::Take];
}

impl fmt::Display for Making {
    fn fmt<W: fmt::Write>(&self, f: &mut fmt::Formatter<W>) -> fmt::Result {
        f.pad(match self {
            Making::Read => "read_stream",
            Making::Take => "take",
        })
    }
}
