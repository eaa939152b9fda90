//! Messages that are at hand as a whole, with their keys in order: they are read in place.

ghost use Rattle.std.specs.Prelude.{Some};

use super::assert_claim;
use std::alloc::{AllocError, Global};
use std::process::Abort;
use swim_claim::Kind;
use swim_pack::{Inlet, PullFault, SliceInlet};
use swim_wire::{WireFault, decode_packet, read_header, read_state};

/// A header of two members and 300 bytes of user state.
const HEADER: &[u8] = b"\x06\x83\xa4Join\xc3\xa5Nodes\x02\xacUserStateLen\xcd\x01\x2c";

/// Records of `a`, alive at 127.0.0.1 and port 7946, of suspect `b`, and of `d`, which left.
const RECORDS: [&[u8]; 3] = [
    b"\x87\xa4Addr\xa4\x7f\0\0\x01\xabIncarnation\0\xa4Meta\xa1m\xa4Name\xa1a\xa4Port\xcd\x1f\x0a\xa5State\0\xa3Vsn\xa6\x01\x05\x02\0\0\0",
    b"\x87\xa4Addr\xa0\xabIncarnation\x01\xa4Meta\xa0\xa4Name\xa1b\xa4Port\0\xa5State\x01\xa3Vsn\xa0",
    b"\x87\xa4Addr\xa0\xabIncarnation\x03\xa4Meta\xa0\xa4Name\xa1d\xa4Port\0\xa5State\x03\xa3Vsn\xa0",
];

/// Bytes in memory, and how many pulls there were.
#[derive(Drop)]
struct Counted<'a> {
    inlet: SliceInlet<'a>,
    pulls: u64,
}

impl<'a> Counted<'a> {
    fn new(bytes: &'a [u8]) -> Counted<'a> {
        Counted {
            inlet: SliceInlet::new(bytes),
            pulls: 0,
        }
    }
}

impl Inlet for Counted<'_> {
    ghost seen = { λ counted. record { coming = Some counted.inlet; faults = 0 } };

    fn pull(&mut self, buf: &mut [u8]) -> Result<(), PullFault> {
        self.pulls = self.pulls.saturating_add(1);
        self.inlet.pull(buf)
    }

    fn at_hand(&self) -> &[u8] {
        self.inlet.at_hand()
    }

    fn pass(&mut self, count: usize) -> bool {
        self.inlet.pass(count)
    }
}

/// Asserts that all bytes were consumed, and none of them was pulled.
fn assert_passed(rt: &impl Abort, counted: &Counted<'_>) {
    assert!(rt; counted.inlet.rest().is_empty());
    assert_eq!(rt; counted.pulls, 0);
}

#[test]
fn a_header_in_order_is_read_where_it_stands(rt: HostRuntime) {
    let mut counted = Counted::new(HEADER);
    assert!(rt; read_header(&mut counted).is_ok());
    assert_passed(&rt, &counted);
}

/// Reads the record, and returns whether there was memory for it.
fn is_read(rt: &impl Abort, alloc: Global, bytes: &[u8]) -> bool {
    let mut counted = Counted::new(bytes);
    let is_read = read_state(alloc, &mut counted).is_ok();
    if is_read {
        assert_passed(rt, &counted);
    }
    is_read
}

#[test]
fn a_record_in_order_is_read_where_it_stands(rt: HostRuntime) -> Result<(), AllocError> {
    for bytes in RECORDS {
        if !is_read(&rt, rt.alloc(), bytes) {
            return Err(AllocError);
        }
    }
    Ok(())
}

/// An Alive at incarnation 0, with a name of 1,024 letters and metadata of 512.
fn greatest_alive() -> [u8; 1596] {
    let mut bytes = [b'a'; 1596];
    bytes[..33].copy_from_slice(
        b"\x04\x86\xa4Addr\xa4\x7f\0\0\x01\xabIncarnation\0\xa4Meta\xda\x02\0",
    );
    bytes[545..553].copy_from_slice(b"\xa4Node\xda\x04\0");
    bytes[1577..].copy_from_slice(b"\xa4Port\xcd\x1f\x0a\xa3Vsn\xa6\x01\x05\x02\0\0\0");
    bytes
}

/// A message of this type at incarnation 1, about a name of 1,024 letters. The name of the member
/// that makes the claim is the same, except for this first letter.
fn greatest_accusation(first: u8, letter: u8) -> [u8; 2079] {
    let mut bytes = [b'a'; 2079];
    bytes[0] = first;
    bytes[1..10].copy_from_slice(b"\x83\xa4From\xda\x04\0");
    bytes[10] = letter;
    bytes[1034..1055].copy_from_slice(b"\xabIncarnation\x01\xa4Node\xda\x04\0");
    bytes
}

/// Asserts that a packet with this claim about the greatest name is read.
fn assert_greatest(
    rt: &impl Abort,
    alloc: Global,
    bytes: &[u8],
    kind: Kind,
    inc: u32,
) -> Result<(), WireFault> {
    let packet = decode_packet(alloc, bytes)?;
    assert_claim(rt, packet.claim(), kind, &[b'a'; 1024], inc);
    Ok(())
}

/// A packet that is read in place takes memory for what its claim keeps, here 2,048 bytes at most.
/// Key by key, it would take as much again for the values of its map.
#[test]
fn a_packet_in_order_is_read_where_it_stands_and_holds_at_most_3_kib(
    rt: HostRuntime,
) -> Result<(), WireFault> {
    assert_greatest(&rt, rt.alloc(), &greatest_alive(), Kind::Alive, 0)?;
    for (first, letter, kind) in [
        (3, b'b', Kind::Suspect),
        (5, b'b', Kind::Confirm),
        (5, b'a', Kind::Leave),
    ] {
        let bytes = greatest_accusation(first, letter);
        assert_greatest(&rt, rt.alloc(), &bytes, kind, 1)?;
    }
    Ok(())
}
