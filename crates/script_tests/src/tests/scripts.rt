//! The plans that scripts are read as.

use crate::tests::wrong_scripts::REFUSED;
use std::alloc::Global;
use std::process::Abort;
use std::test::Fail;
use swim_claim::{Claim, Kind};
use swim_program::{What, report_text, status};
use swim_script::{Plan, read_script};
use swim_sync::Event;
use swim_table::{Node, list};

/// Two nodes, and an exchange whose reply is lost.
const HALF: &str = "node a 7f000001 7946 - - 0\nnode b 7f000002 7946 - - 0\nhalf 0 1";

/// Three nodes that are levelled.
const LEVELLED: &str =
    "node a 7f000001 7946 - - 0\nnode b 7f000002 7946 - - 0\nnode c 7f000003 7946 - - 0\nlevel\n";

/// The report about a script that is refused.
fn refusal(rt: &impl Abort, alloc: Global, input: &[u8]) -> Result<String, Fail> {
    match read_script(alloc, input) {
        Ok(_plan) => panic!(rt; "{input:?} is read"),
        Err(report) if report.what == What::Memory => Err(Fail::from(report)),
        Err(report) => {
            assert_eq!(rt; status(&report), 3);
            Ok(report_text(alloc, "swimtab", &report, &[])?)
        }
    }
}

/// The plan of a script that is not refused.
fn plan_of(alloc: Global, input: &str) -> Result<Plan, Fail> {
    Ok(read_script(alloc, input.as_bytes())?)
}

/// Asserts that a node has this name and this listing.
fn check_node(
    rt: &impl Abort,
    alloc: Global,
    node: &Node,
    name: &[u8],
    listing: &str,
) -> Result<(), Fail> {
    assert_eq!(rt; node.name().bytes(), name);
    assert_eq!(rt; list(alloc, node.table())?.as_slice(), listing.as_bytes());
    Ok(())
}

/// Asserts that a claim is a Suspect about `b` at incarnation 1.
fn check_suspect(rt: &impl Abort, claim: &Claim) {
    assert_eq!(rt; claim.kind(), Kind::Suspect);
    assert_eq!(rt; claim.name().bytes(), b"b".as_slice());
    assert_eq!(rt; claim.inc(), 1);
}

#[test]
fn a_wrong_line_is_refused_by_its_number(rt: HostRuntime) -> Result<(), Fail> {
    let alloc = rt.alloc();
    for (what, input, wanted) in REFUSED {
        let text = refusal(&rt, alloc, input.as_bytes())?;
        let wanted = format!(in alloc; "swimtab: {wanted}")?;
        assert_eq!(rt; text.as_str(), wanted.as_str(), "{what}");
    }
    Ok(())
}

#[test]
fn nodes_are_read_before_events(rt: HostRuntime) -> Result<(), Fail> {
    let alloc = rt.alloc();
    let plan = plan_of(alloc, HALF)?;
    match plan.nodes.as_slice() {
        [a, b] => {
            check_node(&rt, alloc, a, b"a", "a alive 0 0/7f000001/7946//\n")?;
            check_node(&rt, alloc, b, b"b", "b alive 0 0/7f000002/7946//\n")?;
        }
        nodes => panic!(rt; "{} nodes", nodes.len()),
    }
    match plan.events.as_slice() {
        [Event::Half(first, second)] => assert_eq!(rt; (*first, *second), (0, 1)),
        events => panic!(rt; "{} events", events.len()),
    }
    assert_eq!(rt; plan.lines.as_slice(), [3].as_slice());
    assert_eq!(rt; plan.level, None);
    Ok(())
}

#[test]
fn level_ends_a_script(rt: HostRuntime) -> Result<(), Fail> {
    let alloc = rt.alloc();
    for (input, nodes, level) in [
        (LEVELLED, 3, Some(4)),
        ("level", 0, Some(1)),
        ("\nlevel\r\n\n\r\n\r", 0, Some(2)),
        ("", 0, None),
        ("\r\n\n\r", 0, None),
    ] {
        let plan = plan_of(alloc, input)?;
        assert_eq!(rt; plan.nodes.len(), nodes, "{input:?}");
        assert_eq!(rt; plan.events.len(), 0, "{input:?}");
        assert_eq!(rt; plan.level, level, "{input:?}");
    }
    Ok(())
}

#[test]
fn events_keep_their_order_and_their_lines(rt: HostRuntime) -> Result<(), Fail> {
    let plan = plan_of(
        rt.alloc(),
        "exchange 00 01\r\n\nhalf 7 00000000000000000018\nrefute 18446744073709551615\nlevel\n",
    )?;
    match plan.events.as_slice() {
        [
            Event::Exchange(j, k),
            Event::Half(first, second),
            Event::Refute(node),
        ] => {
            assert_eq!(rt; (*j, *k), (0, 1));
            assert_eq!(rt; (*first, *second), (7, 18));
            assert_eq!(rt; *node, usize::MAX);
        }
        events => panic!(rt; "{} events", events.len()),
    }
    assert_eq!(rt; plan.lines.as_slice(), [1, 3, 4].as_slice());
    assert_eq!(rt; plan.level, Some(5));
    Ok(())
}

#[test]
fn a_packet_is_heard_alone_and_a_compound_packet_whole(rt: HostRuntime) -> Result<(), Fail> {
    let plan = plan_of(
        rt.alloc(),
        "hear 2 0383A446726f6da178ab496e6361726e6174696f6e01a44e6f6465a162\nhear 3 07020001001d000383a446726f6da178ab496e6361726e6174696f6e01a44e6f6465a162\nhear 4 0700",
    )?;
    match plan.events.as_slice() {
        [
            Event::Hear(one, claim),
            Event::HearAll(other, claims),
            Event::HearAll(last, none),
        ] => {
            assert_eq!(rt; (*one, *other, *last), (2, 3, 4));
            check_suspect(&rt, claim);
            match claims.claims() {
                [claim] => check_suspect(&rt, claim),
                claims => panic!(rt; "{} claims", claims.len()),
            }
            assert!(rt; none.claims().is_empty());
        }
        events => panic!(rt; "{} events", events.len()),
    }
    Ok(())
}

#[test]
fn a_node_is_read_with_all_its_parts(rt: HostRuntime) -> Result<(), Fail> {
    let alloc = rt.alloc();
    for (input, name, listing) in [
        (
            "node a%20%25%0a 7F000001 0065535 aB 010502000000 4294967295\r\n",
            b"a %\n".as_slice(),
            "a%20%25%0A alive 4294967295 4294967295/7f000001/65535/ab/010502000000\n",
        ),
        (
            "node %zz%6%- 7f000001000000000000000000000000 0 - - 00000000000000000000",
            b"%zz%6%-".as_slice(),
            "%25zz%256%25- alive 0 0/7f000001000000000000000000000000/0//\n",
        ),
    ] {
        let plan = plan_of(alloc, input)?;
        match plan.nodes.as_slice() {
            [node] => check_node(&rt, alloc, node, name, listing)?,
            nodes => panic!(rt; "{} nodes", nodes.len()),
        }
    }
    Ok(())
}

#[test]
fn a_name_is_counted_after_its_escapes(rt: HostRuntime) -> Result<(), Fail> {
    let alloc = rt.alloc();
    let mut name = String::new(alloc);
    for _ in 0..1024 {
        name.push_str("%6e")?;
    }
    let input = format!(in alloc; "node {name} 7f000001 7946 - - 0")?;
    assert_eq!(rt; plan_of(alloc, input.as_str())?.nodes.len(), 1);
    let input = format!(in alloc; "node {name}n 7f00 7946 - - 0")?;
    let text = refusal(&rt, alloc, input.as_bytes())?;
    assert_eq!(rt; text.as_str(), "swimtab: line 1: fault 12 NameTooLong");
    Ok(())
}

#[test]
fn metadata_of_513_bytes_is_too_long(rt: HostRuntime) -> Result<(), Fail> {
    let alloc = rt.alloc();
    let mut meta = String::new(alloc);
    for _ in 0..512 {
        meta.push_str("6d")?;
    }
    let input = format!(in alloc; "node a 7f000001 7946 {meta} - 0")?;
    assert_eq!(rt; plan_of(alloc, input.as_str())?.nodes.len(), 1);
    let input = format!(in alloc; "node a 7f000001 7946 {meta}6d 00 0")?;
    let text = refusal(&rt, alloc, input.as_bytes())?;
    assert_eq!(rt; text.as_str(), "swimtab: line 1: fault 14 MetaTooLong");
    Ok(())
}

#[test]
fn a_name_and_a_wrong_word_may_be_no_text(rt: HostRuntime) -> Result<(), Fail> {
    let alloc = rt.alloc();
    let plan = read_script(alloc, b"node \xff\x0d 7f000001 7946 - - 0")?;
    match plan.nodes.as_slice() {
        [node] => assert_eq!(rt; node.name().bytes(), b"\xff\x0d".as_slice()),
        nodes => panic!(rt; "{} nodes", nodes.len()),
    }
    let text = refusal(&rt, alloc, b"refute \xff")?;
    assert_eq!(rt; text.as_str(), "swimtab: line 1: fault 31 BadScript");
    Ok(())
}

#[test]
fn want_of_memory_is_no_wrong_script(rt: HostRuntime) -> Result<(), Fail> {
    let alloc = rt.alloc();
    let plan = match read_script(alloc, HALF.as_bytes()) {
        Ok(plan) => plan,
        Err(report) => {
            assert_eq!(rt; report.what, What::Memory);
            assert_eq!(rt; status(&report), 5);
            plan_of(alloc, HALF)?
        }
    };
    assert_eq!(rt; plan.nodes.len(), 2);
    assert_eq!(rt; plan.events.len(), 1);
    Ok(())
}
