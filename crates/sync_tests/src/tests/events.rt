//! Claims that a node takes in together.
use crate::tests::{assert_bytes, suspect};
use std::alloc::{AllocError, Global};
use std::process::Abort;
use swim_claim::{Claim, Kind};
use swim_sync::Claims;

/// The Suspects of these names and incarnations.
fn suspects(
    rt: &impl Abort,
    alloc: Global,
    given: &[(&'static [u8], u32)],
) -> Result<Claims, AllocError> {
    let mut list = Vec::new(alloc);
    for (name, inc) in given {
        list.push(suspect(rt, alloc, name, *inc)?)?;
    }
    Ok(Claims::new(list))
}

fn assert_suspect(rt: &impl Abort, claim: &Claim, name: &[u8], inc: u32) {
    assert_eq!(rt; claim.kind(), Kind::Suspect);
    assert_bytes(rt, claim.name().bytes(), name, "the name");
    assert_eq!(rt; claim.inc(), inc);
}

#[test]
fn claims_are_those_given_in_their_order(rt: HostRuntime) -> Result<(), AllocError> {
    let given = [
        (b"b".as_slice(), 1),
        (b"a".as_slice(), 5),
        (b"b".as_slice(), 1),
    ];
    let claims = suspects(&rt, rt.alloc(), &given)?;
    assert_eq!(rt; claims.claims().len(), 3);
    for (claim, (name, inc)) in claims.claims().iter().zip(given) {
        assert_suspect(&rt, claim, name, inc);
    }
    let nothing = suspects(&rt, rt.alloc(), &[])?;
    assert!(rt; nothing.claims().is_empty());
    Ok(())
}
