//! Worked examples of names, details, claims and overriding.
//!
//! A helper returns plain values for the owned ones, and the tests compare those.
ghost use Rattle.std.specs.Prelude.{◌≡◌, IfOk};
ghost use Rattle.swim_claim.specs.Claim.{name_of};

use std::alloc::{AllocError, Global};
use std::cmp::Ordering;
use std::test::Fail;
use swim_claim::*;

const IPV4: [u8; 4] = [0x7f, 0, 0, 1];

const IPV6: [u8; 16] = [0x7f, 0, 0, 1, 0, 0, 0, 0, 0, 0, 0, 0, 0, 0, 0, 0];

/// The address, the port, the metadata and the versions of details.
type Parts<'a> = (&'a [u8], u16, &'a [u8], &'a [u8]);

fn details_of(alloc: Global, parts: Parts) -> Result<Details, Fail> {
    let (addr, port, meta, vsn) = parts;
    Ok(Details::new(
        addr.to_vec(alloc)?,
        port,
        meta.to_vec(alloc)?,
        vsn.to_vec(alloc)?,
    )?)
}

/// A claim of this kind; only an alive one keeps the details.
fn claim_of(alloc: Global, name: &[u8], kind: Kind, inc: u32, details: Parts) -> Result<Claim, Fail>
    ensures { IfOk result (λ claim. name_of claim ≡ name.now) }
{
    let name = Name::copied(alloc, name)??;
    Ok(match kind {
        Kind::Alive => Claim::Alive {
            name,
            inc,
            details: details_of(alloc, details)?,
        },
        Kind::Suspect => Claim::Suspect { name, inc },
        Kind::Confirm => Claim::Confirm { name, inc },
        Kind::Leave => Claim::Leave { name, inc },
    })
}

/// A copy of the name. If a growth is refused, the next call finds memory.
fn name_again(alloc: Global, name: &Name) -> Result<Name, AllocError> {
    match name.try_clone(alloc) {
        Ok(copy) => Ok(copy),
        Err(AllocError) => name.try_clone(alloc),
    }
}

/// The number of the fault with which the bytes are not a name. It is 0 if they are one, and it and
/// its copy return them.
fn name_fault(alloc: Global, bytes: &[u8]) -> Result<u32, AllocError> {
    match Name::new(bytes.to_vec(alloc)?) {
        Ok(name) => {
            let given = name.bytes() == bytes;
            let copied = name_again(alloc, &name)?.bytes() == bytes;
            Ok(if given && copied { 0 } else { u32::MAX })
        }
        Err(fault) => Ok(fault.number()),
    }
}

#[test]
fn a_name_has_1_to_1024_bytes_and_gives_them(rt: HostRuntime) -> Result<(), Fail> {
    let long = [b'n'; 1025];
    for (bytes, fault) in [
        (&long[..0], ClaimFault::NameEmpty.number()),
        (&long[..1], 0),
        (&long[..1024], 0),
        (&long, ClaimFault::NameTooLong.number()),
        (b"\x00a\xff", 0),
    ] {
        assert_eq!(rt; name_fault(rt.alloc(), bytes)?, fault, "{bytes:?}");
    }
    Ok(())
}

/// The number of the fault for parts of these lengths, or 0.
fn details_fault(
    alloc: Global,
    addr_len: usize,
    meta_len: usize,
    vsn_len: usize,
) -> Result<u32, AllocError> {
    let addr = vec![in alloc; 1; addr_len]?;
    let meta = vec![in alloc; 2; meta_len]?;
    let vsn = vec![in alloc; 3; vsn_len]?;
    Ok(match Details::new(addr, 7946, meta, vsn) {
        Ok(_) => 0,
        Err(fault) => fault.number(),
    })
}

#[test]
fn details_are_refused_at_the_first_part_past_its_limits(rt: HostRuntime) -> Result<(), Fail> {
    let address = ClaimFault::BadAddress.number();
    let meta = ClaimFault::MetaTooLong.number();
    let versions = ClaimFault::BadVersions.number();
    for (addr_len, meta_len, vsn_len, fault) in [
        (4, 0, 0, 0),
        (16, 512, 6, 0),
        (0, 513, 1, address),
        (3, 0, 0, address),
        (5, 0, 0, address),
        (15, 0, 0, address),
        (17, 0, 0, address),
        (4, 513, 0, meta),
        (4, 513, 7, meta),
        (4, 512, 1, versions),
        (16, 0, 5, versions),
        (16, 0, 7, versions),
    ] {
        let found = details_fault(rt.alloc(), addr_len, meta_len, vsn_len)?;
        assert_eq!(rt; found, fault, "{addr_len}, {meta_len} and {vsn_len} bytes");
    }
    Ok(())
}

fn text_of(alloc: Global, fault: ClaimFault) -> Result<String, Fail> {
    Ok(format!(in alloc; "{fault}")?)
}

#[test]
fn a_fault_has_its_number_and_its_text(rt: HostRuntime) -> Result<(), Fail> {
    for (fault, number, text) in [
        (ClaimFault::NameEmpty, 11, "the name is empty"),
        (
            ClaimFault::NameTooLong,
            12,
            "the name has more than 1,024 bytes",
        ),
        (
            ClaimFault::BadAddress,
            13,
            "the address has neither 4 nor 16 bytes",
        ),
        (
            ClaimFault::MetaTooLong,
            14,
            "the metadata has more than 512 bytes",
        ),
        (
            ClaimFault::BadVersions,
            15,
            "the versions have neither 0 nor 6 bytes",
        ),
    ] {
        let shown = text_of(rt.alloc(), fault)?.as_str() == text;
        assert!(rt; shown && fault.number() == number, "{number}: {text}");
    }
    Ok(())
}

/// Whether the claim overrides another one about its name, and its facts outrank the other's.
fn overrides_another(
    alloc: Global,
    claim: &Claim,
    other: (Kind, u32, Parts),
) -> Result<[bool; 2], Fail> {
    let other = claim_of(alloc, claim.name().bytes(), other.0, other.1, other.2)?;
    Ok([
        overrides(claim, &other),
        outranks(claim.facts(), other.facts()),
    ])
}

/// The result of `overrides_another` for two claims about `a`.
fn overriding(
    alloc: Global,
    first: (Kind, u32, Parts),
    second: (Kind, u32, Parts),
) -> Result<[bool; 2], Fail> {
    let first = claim_of(alloc, b"a", first.0, first.1, first.2)?;
    overrides_another(alloc, &first, second)
}

/// The results of `overriding` with the incarnation of the first claim below, at and above that of
/// the second.
fn overriding_around(alloc: Global, kind: Kind, other: Kind) -> Result<[[bool; 2]; 3], Fail> {
    let details = (IPV4.as_slice(), 7946, b"".as_slice(), b"".as_slice());
    let second = (other, 5, details);
    Ok([
        overriding(alloc, (kind, 4, details), second)?,
        overriding(alloc, (kind, 5, details), second)?,
        overriding(alloc, (kind, 6, details), second)?,
    ])
}

#[test]
fn overriding_follows_the_table_of_kinds(rt: HostRuntime) -> Result<(), Fail> {
    use Kind::{Alive, Confirm, Leave, Suspect};
    // whether the first overrides with its incarnation below, at and above that of the second
    for (kind, other, below, at, above) in [
        (Alive, Alive, false, false, true),
        (Alive, Suspect, false, false, true),
        (Alive, Confirm, false, false, false),
        (Alive, Leave, false, false, false),
        (Suspect, Alive, false, true, true),
        (Suspect, Suspect, false, false, true),
        (Suspect, Confirm, false, false, false),
        (Suspect, Leave, false, false, false),
        (Confirm, Alive, true, true, true),
        (Confirm, Suspect, true, true, true),
        (Confirm, Confirm, false, false, true),
        (Confirm, Leave, false, false, true),
        (Leave, Alive, true, true, true),
        (Leave, Suspect, true, true, true),
        (Leave, Confirm, false, true, true),
        (Leave, Leave, false, false, true),
    ] {
        let found = overriding_around(rt.alloc(), kind, other)?;
        let wanted = [[below; 2], [at; 2], [above; 2]];
        assert!(rt; found == wanted, "{kind:?} over {other:?}: {found:?}");
    }
    Ok(())
}

/// Whether the first details are the lesser ones, by each comparison of them.
fn are_less(lesser: &Details, greater: &Details) -> bool {
    lesser.cmp(greater) == Ordering::Less
        && greater > lesser
        && greater != lesser
        && greater == greater
}

fn less_than(alloc: Global, lesser: &Details, greater: Parts) -> Result<bool, Fail> {
    let greater = details_of(alloc, greater)?;
    Ok(are_less(lesser, &greater))
}

/// Whether details with the first parts are less than those with the second.
fn less(alloc: Global, lesser: Parts, greater: Parts) -> Result<bool, Fail> {
    let lesser = details_of(alloc, lesser)?;
    less_than(alloc, &lesser, greater)
}

#[test]
fn of_two_alives_of_one_incarnation_the_greater_details_override(
    rt: HostRuntime,
) -> Result<(), Fail> {
    let mapped = [0, 0, 0, 0, 0, 0, 0, 0, 0, 0, 0xff, 0xff, 0x0a, 0, 0, 1];
    let ten = [0x0a, 0, 0, 1];
    // the lesser details, then the greater
    let rows: [[Parts; 2]; 8] = [
        [(&IPV4, 255, b"", b""), (&IPV4, 256, b"", b"")],
        [(&IPV4, 7946, b"", b""), (&IPV6, 7946, b"", b"")],
        [(&mapped, 7946, b"", b""), (&ten, 7946, b"", b"")],
        [(&ten, 65535, b"z", b"zzzzzz"), (&IPV4, 0, b"", b"")],
        [(&IPV4, 1, b"z", b"zzzzzz"), (&IPV4, 2, b"", b"")],
        [(&IPV4, 1, b"a", b"zzzzzz"), (&IPV4, 1, b"aa", b"")],
        [
            (&IPV4, 1, b"a", b""),
            (&IPV4, 1, b"a", b"\x01\x05\x02\x02\x05\x04"),
        ],
        [
            (&IPV4, 1, b"a", b"\x01\x05\x02\x02\x05\x04"),
            (&IPV4, 1, b"a", b"\x01\x05\x02\x02\x05\x05"),
        ],
    ];
    for [lesser, greater] in rows {
        let first = (Kind::Alive, 1, lesser);
        let second = (Kind::Alive, 1, greater);
        assert!(rt; less(rt.alloc(), lesser, greater)?);
        assert_eq!(rt; overriding(rt.alloc(), second, first)?, [true; 2]);
        assert_eq!(rt; overriding(rt.alloc(), first, second)?, [false; 2]);
    }
    Ok(())
}

/// Which readers of details return these parts.
fn parts_given(details: &Details, parts: Parts) -> [bool; 4] {
    let (addr, port, meta, vsn) = parts;
    [
        details.addr() == addr,
        details.port() == port,
        details.meta() == meta,
        details.vsn() == vsn,
    ]
}

/// A copy of the details. If a growth is refused, the next call finds memory.
fn details_again(alloc: Global, details: &Details) -> Result<Details, AllocError> {
    match details.try_clone(alloc) {
        Ok(copy) => Ok(copy),
        Err(AllocError) => details.try_clone(alloc),
    }
}

/// Which readers of details, and of their copy, return their parts.
fn details_given(alloc: Global, parts: Parts) -> Result<[[bool; 4]; 2], Fail> {
    let details = details_of(alloc, parts)?;
    let copy = details_again(alloc, &details)?;
    Ok([parts_given(&details, parts), parts_given(&copy, parts)])
}

#[test]
fn details_give_their_parts_and_so_do_their_copies(rt: HostRuntime) -> Result<(), Fail> {
    let versions = b"\x01\x05\x02\x02\x05\x04".as_slice();
    let parts = (IPV6.as_slice(), 255, b"web".as_slice(), versions);
    assert_eq!(rt; details_given(rt.alloc(), parts)?, [[true; 4]; 2]);
    Ok(())
}

/// A copy of the claim. If a growth is refused, the next call finds memory.
fn claim_again(alloc: Global, claim: &Claim) -> Result<Claim, AllocError> {
    match claim.try_clone(alloc) {
        Ok(copy) => Ok(copy),
        Err(AllocError) => claim.try_clone(alloc),
    }
}

/// Whether the details have these parts, or there are none and none are expected.
fn are(details: Option<&Details>, parts: Option<Parts>) -> bool {
    match (details, parts) {
        (Some(details), Some(parts)) => parts_given(details, parts) == [true; 4],
        (None, None) => true,
        _ => false,
    }
}

/// Which readers of a claim about `a`, and of its facts, return its parts.
fn claim_parts_given(claim: &Claim, kind: Kind, inc: u32, details: Option<Parts>) -> [bool; 7] {
    let facts = claim.facts();
    [
        claim.name().bytes() == b"a".as_slice(),
        claim.inc() == inc,
        claim.kind() == kind,
        are(claim.details(), details),
        facts.kind == kind,
        facts.inc == inc,
        are(facts.details, details),
    ]
}

fn copy_given(
    alloc: Global,
    claim: &Claim,
    kind: Kind,
    inc: u32,
    details: Option<Parts>,
) -> Result<[bool; 7], AllocError> {
    let copy = claim_again(alloc, claim)?;
    Ok(claim_parts_given(&copy, kind, inc, details))
}

/// Which readers of a claim about `a`, and of its copy, return its parts.
fn claim_given(
    alloc: Global,
    kind: Kind,
    inc: u32,
    details: Parts,
) -> Result<[[bool; 7]; 2], Fail> {
    let wanted = (kind == Kind::Alive).then_some(details);
    let claim = claim_of(alloc, b"a", kind, inc, details)?;
    let given = claim_parts_given(&claim, kind, inc, wanted);
    Ok([given, copy_given(alloc, &claim, kind, inc, wanted)?])
}

#[test]
fn readers_give_the_parts_of_a_claim_and_of_its_copy(rt: HostRuntime) -> Result<(), Fail> {
    let versions = b"\x01\x05\x02\x02\x05\x04".as_slice();
    let plain = (IPV4.as_slice(), 7946, b"".as_slice(), b"".as_slice());
    let full = (IPV6.as_slice(), 65535, b"web".as_slice(), versions);
    for (kind, inc, details) in [
        (Kind::Alive, 0, plain),
        (Kind::Alive, 4294967295, full),
        (Kind::Suspect, 1, plain),
        (Kind::Confirm, 2, plain),
        (Kind::Leave, 3, plain),
    ] {
        let given = claim_given(rt.alloc(), kind, inc, details)?;
        assert_eq!(rt; given, [[true; 7]; 2], "{kind:?} of {inc}");
    }
    Ok(())
}
