//! What the numbers of a member's pings tell of a silence.

use crate::evidence::Numbers;
use crate::facts::Facts;
use crate::words::Saying;
use crate::{Member, Word};

/// By how much a number may be smaller than the one before it, of one process (own): its threads
/// number and send, so that neighbours change places.
const NEIGHBOURS: u32 = 8;

/// How much later such a neighbour may come at most (own), in microseconds.
const AT_ONCE: u64 = 1_000_000;

/// How many pings an agent may send for others in a second (own), beside its own.
const FOR_OTHERS: u64 = 3;

/// How many pings one agent sends in a second at most (own): more, and they are of two.
const MOST_SENT: u64 = 5;

/// How many intervals an agent at work waits at most from one ping to the next (memberlist's
/// `AwarenessMaxMultiplier`).
const MAX_SCALE: u64 = 8;

/// A silence of an agent: from one word to the next.
#[derive(Clone, Copy)]
pub(crate) struct Silence {
    pub(crate) from: u64,
    pub(crate) to: u64,
}

impl Silence {
    pub(crate) fn len(self) -> u64 {
        self.to.saturating_sub(self.from)
    }
}

/// A ping that was seen.
#[derive(Clone, Copy)]
pub(crate) struct Ping {
    pub(crate) time: u64,
    pub(crate) number: u32,
}

/// What the numbers of its pings tell of the longest silence of a member in this time.
pub(crate) fn numbers_of(facts: &Facts, member: Member, from: u64, to: u64) -> Option<Numbers> {
    let silence = longest_silence(facts, member, from, to)?;
    let (before, after) = shores(facts, member, silence)?;
    if after.number < before.number {
        return anew(before, after);
    }
    let steps = u64::from(after.number.saturating_sub(before.number));
    let unseen = steps.saturating_sub(1);
    let outside = silence
        .from
        .saturating_sub(before.time)
        .saturating_add(after.time.saturating_sub(silence.to));
    let most = sent_within(facts, outside);
    if silence.len() > facts.interval.saturating_mul(2) && unseen > most {
        return Some(Numbers::AtWork {
            pings: unseen.saturating_sub(most),
            silence: silence.len(),
        });
    }
    let longest = facts
        .interval
        .saturating_mul(MAX_SCALE)
        .saturating_mul(steps.saturating_add(1));
    if silence.len() > longest.saturating_add(longest / 20) {
        return Some(Numbers::Still {
            silence: silence.len(),
        });
    }
    None
}

/// The most pings that an agent sends in so many microseconds.
fn sent_within(facts: &Facts, time: u64) -> u64 {
    let own = time / facts.interval.max(1);
    own.saturating_add(time.saturating_mul(FOR_OTHERS) / 1_000_000)
}

/// Whether the numbers begin anew.
pub(crate) fn anew(before: Ping, after: Ping) -> Option<Numbers> {
    let is_later = before.time.saturating_add(AT_ONCE) < after.time;
    let is_far = before.number.saturating_sub(after.number) > NEIGHBOURS;
    if is_later || is_far {
        Some(Numbers::Anew {
            before: before.time,
            after: after.time,
        })
    } else {
        None
    }
}

/// The longest silence of an agent that reaches into this time.
fn longest_silence(facts: &Facts, member: Member, from: u64, to: u64) -> Option<Silence> {
    let mut last: Option<u64> = None;
    let mut longest: Option<Silence> = None;
    for word in facts.words.of(member)? {
        if let Some(before) = last {
            let silence = Silence {
                from: before,
                to: word.time,
            };
            let is_longer = match longest {
                Some(other) => other.len() < silence.len(),
                None => true,
            };
            if from < silence.to && silence.from < to && is_longer {
                longest = Some(silence);
            }
        }
        last = Some(word.time);
    }
    longest
}

/// The last ping before a silence, and the first one after it.
fn shores(facts: &Facts, member: Member, silence: Silence) -> Option<(Ping, Ping)> {
    let mut before = None;
    for word in facts.words.of(member)? {
        let Some(ping) = ping_of(word) else {
            continue;
        };
        if ping.time <= silence.from {
            before = Some(ping);
        } else if silence.to <= ping.time {
            return Some((before?, ping));
        }
    }
    None
}

fn ping_of(word: &Word) -> Option<Ping> {
    match word.saying {
        Saying::Ping(number) => Some(Ping {
            time: word.time,
            number,
        }),
        _ => None,
    }
}

/// Whether the numbers of the process before, of which this was the last, go on after its successor's
/// pings began: with a leap that one process cannot have sent since the ping before.
pub(crate) fn goes_on(old: Option<u32>, before: Ping, after: Ping) -> bool {
    let since = after.time.saturating_sub(before.time);
    let most = u64::from(NEIGHBOURS).saturating_add(since.saturating_mul(MOST_SENT) / 1_000_000);
    let leap = u64::from(after.number.saturating_sub(before.number));
    match old {
        Some(old) => old < after.number && most < leap,
        None => false,
    }
}

/// When the numbers of a member's pings began anew in this time, if they did, and those before do not
/// go on.
pub(crate) fn began_anew(facts: &Facts, member: Member, from: u64, to: u64) -> Option<Numbers> {
    let mut last: Option<Ping> = None;
    let mut old: Option<u32> = None;
    let mut found: Option<Numbers> = None;
    for word in facts.words.of(member)? {
        let Some(ping) = ping_of(word) else {
            continue;
        };
        if word.time < from {
            continue;
        }
        if let Some(before) = last {
            if goes_on(old, before, ping) {
                return None;
            }
            if found.is_none() && word.time <= to && ping.number < before.number {
                found = anew(before, ping);
                old = Some(before.number);
            }
        }
        last = Some(ping);
    }
    found
}
