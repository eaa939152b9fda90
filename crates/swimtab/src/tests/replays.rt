//! What a replayed script shows, and why one is refused.

use crate::replay::script;
use crate::tests::{assert_bytes, assert_said};
use std::alloc::Global;
use std::test::Fail;
use swim_program::{Report, What};

/// Two nodes, and an exchange in which one never gets the reply.
const LOST_REPLY: &[u8] = b"node a 7f000001 7946 - - 0\nnode b 7f000002 7946 - - 0\nhalf 0 1\n";

/// What a script shows, or why it is refused; if memory is refused, at the second try.
fn replayed(alloc: Global, input: &[u8]) -> Result<Vec<u8>, Report> {
    match script(alloc, input) {
        Err(report) if report.what == What::Memory => script(alloc, input),
        answer => answer,
    }
}

#[test]
fn a_script_is_replayed_also_after_want_of_memory(rt: HostRuntime) -> Result<(), Fail> {
    let shown = replayed(rt.alloc(), LOST_REPLY)?;
    let wanted = b"node 0\na alive 0 0/7f000001/7946//\n\
        node 1\na alive 0 0/7f000001/7946//\nb alive 0 0/7f000002/7946//\n";
    assert_bytes(&rt, &shown, wanted, "a reply that is lost");
    Ok(())
}

#[test]
fn a_script_is_refused_by_a_line(rt: HostRuntime) -> Result<(), Fail> {
    let refused = script(
        rt.alloc(),
        b"node a 7f000001 7946 - - 0\n\nrefute 0\nhalf 1 1\n",
    );
    let report = refused.err().expect(&rt, "a refusal");
    let wanted = "swimtab: line 4: fault 26 NoSuchNode";
    assert_said(&rt, rt.alloc(), report, &[], wanted)
}
