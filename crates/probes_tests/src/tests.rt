//! Probes of one member by another, as two captures have them.

use memberlist_message::{Ack, IndirectPing, Message, Nack, Ping};
use memberlist_probes::*;
use std::alloc::{AllocError, Global};
use std::net::{IpAddr, SocketAddr};
use std::process::Abort;
use std::test::Fail;

/// The end of the member with this number.
fn end(number: u8) -> SocketAddr {
    SocketAddr::new(IpAddr::from([10, 0, 0, number]), 7946)
}

/// A packet that the capture with this number has, between these members, so many milliseconds on.
fn packet(capture: usize, millis: u64, from: u8, to: u8) -> Observed {
    Observed {
        seen: Sighting {
            capture,
            time: millis.saturating_mul(1000).saturating_add(1_000_000_000),
        },
        from: end(from),
        to: end(to),
    }
}

fn name(alloc: Global, number: u8) -> Result<Vec<u8>, AllocError> {
    [b'a' + number % 26].to_vec(alloc)
}

/// What a member sends.
#[derive(Clone, Copy)]
enum Word {
    /// A ping of another one, with this number.
    Ping(u32),
    Ack(u32),
    /// An indirect ping of the member with this number, for the ping with that one.
    Ask(u32, u8),
    Nack(u32),
    /// The first segment of a connection.
    Syn,
    /// The answer to it, or another segment of the other side.
    Reset,
    /// A refusal of a ping.
    Refuse,
    /// A suspicion of the member with this number.
    Suspect(u8),
}

/// Which capture has it, when, between which members, and what it is.
type Step = (usize, u64, u8, u8, Word);

/// The message that a word is, if it is one.
fn message(alloc: Global, from: u8, to: u8, word: Word) -> Result<Option<Message>, AllocError> {
    Ok(match word {
        Word::Ping(seq_no) => Some(Message::Ping(Ping {
            seq_no,
            node: name(alloc, to)?,
            source_addr: Vec::new(alloc),
            source_port: 0,
            source_node: name(alloc, from)?,
        })),
        Word::Ask(seq_no, target) => Some(Message::IndirectPing(IndirectPing {
            seq_no,
            target: Vec::new(alloc),
            port: 7946,
            node: name(alloc, target)?,
            nack: true,
            source_addr: Vec::new(alloc),
            source_port: 0,
            source_node: name(alloc, from)?,
        })),
        Word::Ack(seq_no) => Some(Message::Ack(Ack {
            seq_no,
            payload: Vec::new(alloc),
        })),
        Word::Nack(seq_no) => Some(Message::Nack(Nack { seq_no })),
        Word::Syn | Word::Reset | Word::Refuse | Word::Suspect(_) => None,
    })
}

fn take(alloc: Global, detector: &mut Detector, step: Step) -> Result<(), AllocError> {
    let (capture, millis, from, to, word) = step;
    let packet = packet(capture, millis, from, to);
    detector.packet(packet)?;
    if let Some(message) = message(alloc, from, to, word)? {
        return detector.message(packet, &message);
    }
    match word {
        Word::Syn | Word::Reset => detector.segment(
            packet,
            Segment {
                syn: matches!(word, Word::Syn),
                rst: matches!(word, Word::Reset),
                has_payload: false,
            },
        ),
        Word::Refuse => {
            detector.refusal(packet, end(to), end(from));
            Ok(())
        }
        Word::Suspect(suspect) => detector.accusation(
            packet.seen.time,
            &Accusation {
                accuser: &name(alloc, from)?,
                suspect: &name(alloc, suspect)?,
                inc: 1,
            },
        ),
        _ => Ok(()),
    }
}

/// Member 1 probes member 2, and captures 0 and 1 are theirs: one probe is answered, one is refused,
/// and one comes and is never answered. The round trips are those at the prober.
const STEPS: [Step; 24] = [
    (0, 0, 1, 2, Word::Ping(1)),
    (1, 1, 1, 2, Word::Ping(1)),
    (1, 2, 2, 1, Word::Ack(1)),
    (0, 4, 2, 1, Word::Ack(1)),
    (0, 10, 1, 3, Word::Syn),
    (1, 20, 3, 2, Word::Syn),
    (0, 1000, 1, 2, Word::Ping(2)),
    (1, 1001, 1, 2, Word::Ping(2)),
    (1, 1002, 2, 1, Word::Refuse),
    (0, 1003, 2, 1, Word::Refuse),
    (0, 1500, 1, 3, Word::Ask(2, 2)),
    (0, 1700, 3, 1, Word::Nack(2)),
    (0, 2000, 1, 3, Word::Suspect(2)),
    (0, 3000, 1, 2, Word::Ping(3)),
    (1, 3001, 1, 2, Word::Ping(3)),
    (0, 3500, 1, 3, Word::Ask(3, 2)),
    (0, 3505, 1, 2, Word::Syn),
    (1, 3506, 1, 2, Word::Syn),
    (0, 4000, 1, 2, Word::Ping(4)),
    (1, 4001, 1, 2, Word::Ping(4)),
    (1, 4002, 2, 1, Word::Ack(4)),
    (0, 4003, 2, 1, Word::Ack(4)),
    (0, 20000, 1, 3, Word::Syn),
    (1, 20000, 3, 2, Word::Syn),
];

/// A line for each pair, and one for each explanation that is left of its probes.
fn told(alloc: Global, detector: &Detector) -> Result<String, AllocError> {
    let mut text = String::new(alloc);
    for (_, pair) in detector.pairs.all() {
        let outcomes = pair.outcomes;
        writeln!(
            text,
            "{} probes: {} answered, {} failed, {} nacks, {:?} us",
            pair.probes,
            outcomes.answered,
            outcomes.failed,
            pair.nacks,
            pair.round_trips.greatest()
        )?;
        for (left, probes) in &pair.maybe {
            for (explanation, is_left) in Explanation::ALL.iter().zip(left) {
                if *is_left {
                    writeln!(text, "{probes} {}", explanation.words())?;
                }
            }
        }
    }
    for (_, health) in detector.healths.all() {
        let (least, greatest) = (health.awareness.least(), health.awareness.greatest());
        writeln!(
            text,
            "{} probes, {} answers: {least} to {greatest}",
            health.probes, health.answers
        )?;
    }
    Ok(text)
}

#[test]
fn probes_are_told_by_two_captures(rt: HostRuntime) -> Result<(), Fail> {
    let alloc = rt.alloc();
    let span = Span {
        from: 0,
        to: u64::MAX,
    };
    let mut detector = Detector::new(alloc, Timing::new(alloc, None, None), span);
    for step in STEPS {
        take(alloc, &mut detector, step)?;
    }
    for _ in 0..detector.len() {
        if let Some(probe) = detector.finish() {
            detector.note(&probe)?;
        }
    }
    let told = told(alloc, &detector)?;
    assert_eq!(rt;
        told.as_str(),
        "4 probes: 2 answered, 2 failed, 1 nacks, Some(4000) us\n\
         1 silent\n\
         1 refused\n\
         4 probes, 0 answers: 0 to 0\n\
         0 probes, 2 answers: 0 to 7\n"
    );
    Ok(())
}

#[test]
fn times_are_told_apart_to_a_64th(rt: HostRuntime) -> Result<(), Fail> {
    let alloc = rt.alloc();
    let mut delays = Delays::new(alloc);
    for delay in [127, 100_000, 300, u64::MAX] {
        delays.note(delay)?;
    }
    let mut text = String::new(alloc);
    for percent in [25, 50, 75, 100] {
        writeln!(text, "{:?}", delays.percentile(percent))?;
    }
    assert_eq!(rt;
        text.as_str(),
        "Some(127)\nSome(300)\nSome(99328)\nSome(18302628885633695744)\n"
    );
    Ok(())
}
