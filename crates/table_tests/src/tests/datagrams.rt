//! Datagrams that a table takes in.

use super::{assert_bytes, assert_lists};
use std::alloc::Global;
use std::process::Abort;
use std::test::Fail;
use swim_table::{Table, list};
use swim_wire::Datagram;

/// A Suspect of `b` at incarnation 1.
pub(crate) const PACKET: &[u8] = b"\x03\x83\xa4From\xa1x\xabIncarnation\x01\xa4Node\xa1b";

/// A compound packet of an Alive of `a` at incarnation 0 and the Suspect above.
const COMPOUND: &[u8] =
    b"\x07\x02\0\x33\0\x1d\x04\x86\xa4Addr\xa4\x7f\0\0\x01\xabIncarnation\0\xa4Meta\xa0\xa4Node\xa1a\xa4Port\xcd\x1f\x0a\xa3Vsn\xa0\x03\x83\xa4From\xa1x\xabIncarnation\x01\xa4Node\xa1b";

/// Takes a datagram in, at the second try if memory is refused. Until then the table must not
/// change.
fn take_in(rt: &impl Abort, alloc: Global, table: &mut Table, bytes: &[u8]) -> Result<(), Fail> {
    let before = list(alloc, table)?;
    let datagram = Datagram::decode(alloc, bytes)?;
    if table.take_datagram(datagram).is_err() {
        assert_bytes(rt, &list(alloc, table)?, &before, "a refused datagram");
        table.take_datagram(Datagram::decode(alloc, bytes)?)?;
    }
    Ok(())
}

#[test]
fn all_claims_of_a_datagram_are_taken_in_or_none(rt: HostRuntime) -> Result<(), Fail> {
    let mut table = Table::new(rt.alloc());
    for (bytes, listing) in [
        (PACKET, "b suspect 1 -\n"),
        (COMPOUND, "a alive 0 0/7f000001/7946//\nb suspect 1 -\n"),
        (b"\x07\0", "a alive 0 0/7f000001/7946//\nb suspect 1 -\n"),
    ] {
        take_in(&rt, rt.alloc(), &mut table, bytes)?;
        assert_lists(&rt, rt.alloc(), &table, listing)?;
    }
    Ok(())
}
