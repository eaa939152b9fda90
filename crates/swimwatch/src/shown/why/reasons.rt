//! What a cause stands on, in words.

use super::{CLOCK, Teller, write_seconds};
use crate::text::moment::write_as;
use crate::text::texts::Millis;
use crate::text::written::Text;
use memberlist_causes::{Evidence, Numbers};
use memberlist_probes::Explanation;

/// Adds a line without its end.
pub(crate) fn write_reason(text: &mut Text, teller: Teller, evidence: &Evidence) {
    match evidence {
        Evidence::ProbesOfIt {
            failed,
            all,
            by,
            timeout,
        } => {
            write!(text, "{failed} of {all} probes of it, by ");
            teller.names(text, by);
            write!(text, ", had no answer in {} ms", Millis(*timeout))
        }
        Evidence::OwnProbes { failed, all } => {
            write!(text, "{failed} of its own {all} probes had none")
        }
        Evidence::Explained { is_own, counts } => write_explained(text, *is_own, counts),
        Evidence::Numbers(numbers) => write_numbers(text, *numbers),
        Evidence::Votes { to_it, from_it } => {
            write_halves(text, *to_it);
            text.push_str(" failed probes speak for the way to it, ");
            write_halves(text, *from_it);
            text.push_str(" for the way from it")
        }
        Evidence::Refused { .. }
        | Evidence::NewProcess
        | Evidence::Accepted { .. }
        | Evidence::Handshake { .. }
        | Evidence::HalfOpen { .. }
        | Evidence::Unanswered { .. }
        | Evidence::OverTcp { .. } => write_host(text, evidence),
        Evidence::Hit { .. }
        | Evidence::Through { .. }
        | Evidence::Unseen { .. }
        | Evidence::Crossing { .. }
        | Evidence::NotHeardTogether { .. }
        | Evidence::Succeeded { .. }
        | Evidence::UnderWay { .. } => write_others(text, teller, evidence),
        _ => write_agent(text, teller, evidence),
    }
}

/// What its host did.
fn write_host(text: &mut Text, evidence: &Evidence) {
    match evidence {
        Evidence::Refused { times, first } => {
            write!(text, "its host refused {times} times (first ");
            write_as(text, *first, CLOCK);
            text.push_str("): no process at that port")
        }
        Evidence::NewProcess => text.push_str("a new process began there"),
        Evidence::Accepted { connections, mute } => {
            write!(text, "its host completed {connections} TCP connections");
            if *mute == 0 {
                return;
            }
            write!(
                text,
                ", its agent answered none of {mute} pings in them in time"
            )
        }
        Evidence::Handshake { took } => write!(text, "a handshake took {} ms", Millis(*took)),
        Evidence::HalfOpen { times } => write!(
            text,
            "{times} times its host answered a SYN, and the dialler did not go on"
        ),
        Evidence::Unanswered { connections } => write!(
            text,
            "{connections} TCP connections to it had no answer of any kind"
        ),
        Evidence::OverTcp { probes } => {
            write!(text, "{probes} probes were answered over TCP alone")
        }
        _ => {}
    }
}

/// What its agent did.
fn write_agent(text: &mut Text, teller: Teller, evidence: &Evidence) {
    match evidence {
        Evidence::Silence { longest } => {
            text.push_str("its agent was heard meanwhile, longest silence ");
            write_seconds(text, *longest)
        }
        Evidence::NotHeard { since } => {
            text.push_str("its agent was not heard from ");
            write_as(text, *since, CLOCK);
            text.push_str(" on")
        }
        Evidence::LateFromIt { answers, by, to } => {
            let by = Millis(*by);
            write!(
                text,
                "{answers} answers of it came late, after {by} ms in the middle, to "
            );
            teller.names(text, to)
        }
        Evidence::LateToIt { answers, by } => {
            let by = Millis(*by);
            write!(
                text,
                "{answers} answers to it came late, after {by} ms in the middle"
            )
        }
        Evidence::SilentUntil { from, to } => {
            text.push_str("silent from ");
            write_as(text, *from, CLOCK);
            text.push_str(" to ");
            write_as(text, *to, CLOCK);
            text.push_str(", then it answered what had waited")
        }
        Evidence::SilentFrom { from } => {
            text.push_str("silent from ");
            write_as(text, *from, CLOCK);
            text.push_str(" on")
        }
        Evidence::Unheeded => {
            text.push_str("answers had reached its host in time, and it went on as if not")
        }
        Evidence::NothingArrived { time } => {
            text.push_str("nothing arrived at it for ");
            write_seconds(text, *time)
        }
        Evidence::Unanswering { packets } => write!(
            text,
            "it hears all that it probes ({packets} packets), and none answers it"
        ),
        Evidence::AnswersNobody => text.push_str("it sends, and answers nobody"),
        Evidence::NobodyAnswersIt => {
            text.push_str("it sends, answers nobody, and nobody answers it")
        }
        _ => {}
    }
}

/// What others have to do with it.
fn write_others(text: &mut Text, teller: Teller, evidence: &Evidence) {
    match evidence {
        Evidence::Hit { hit, not } => {
            text.push_str("hit: ");
            teller.names(text, hit);
            text.push_str("; not hit: ");
            teller.names(text, not)
        }
        Evidence::Through { probes, by } => {
            write!(text, "{probes} of them were answered through ");
            teller.names(text, by)
        }
        Evidence::Unseen {
            is_own,
            probes,
            with,
        } => {
            let (first, second) = if *is_own {
                ("of its own", "of ")
            } else {
                ("of it", "by ")
            };
            write!(text, "{probes} more {first} had none, {second}");
            teller.names(text, with);
            text.push_str(", as indirect pings show")
        }
        Evidence::Crossing { probes } => write!(
            text,
            "{probes} failed probes all cross from one group to the other, no answered one does"
        ),
        Evidence::NotHeardTogether { members, by, heard } => {
            write!(
                text,
                "nothing was heard of these {members} at the same time by "
            );
            teller.names(text, by);
            if heard.is_empty() {
                return;
            }
            text.push_str(", who heard ");
            teller.names(text, heard)
        }
        Evidence::Succeeded { by, from } => {
            teller.name(text, *by);
            text.push_str(" is at its address and port from ");
            write_as(text, *from, CLOCK);
            text.push_str(" on")
        }
        Evidence::UnderWay { probes } => {
            write!(text, "{probes} probes of it were under way as it left")
        }
        _ => {}
    }
}

/// What happened to probes: `probes of it: 3 ping lost, 1 silent`.
fn write_explained(text: &mut Text, is_own: bool, counts: &[u64; 7]) {
    text.push_str(if is_own {
        "its own probes: "
    } else {
        "probes of it: "
    });
    let mut is_first = true;
    for (explanation, count) in Explanation::ALL.iter().zip(counts) {
        if *count > 0 {
            text.push_str(if is_first { "" } else { ", " });
            write!(text, "{count} {}", explanation.words());
            is_first = false;
        }
    }
}

/// What the numbers of its pings tell.
fn write_numbers(text: &mut Text, numbers: Numbers) {
    match numbers {
        Numbers::Anew { before, after } => {
            text.push_str("the numbers of its pings begin anew between ");
            write_as(text, before, CLOCK);
            text.push_str(" and ");
            write_as(text, after, CLOCK);
            text.push_str(": another process")
        }
        Numbers::AtWork { pings, silence } => {
            write!(
                text,
                "by the numbers of its pings it sent {pings} or more in a silence of "
            );
            write_seconds(text, silence);
            text.push_str(": it was at work")
        }
        Numbers::Still { silence } => {
            text.push_str("by the numbers of its pings it was not at work in a silence of ");
            write_seconds(text, silence)
        }
    }
}

/// Half of a number.
fn write_halves(text: &mut Text, twice: u64) {
    write!(text, "{}", twice / 2);
    if twice % 2 == 1 {
        text.push_str(".5");
    }
}
