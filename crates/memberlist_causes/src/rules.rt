//! Which cause is told of a member: a list of rules, of which the first that holds decides.

use crate::evidence::{Evidence, Numbers};
use crate::members::order;
use crate::subject::Subject;
use crate::ways::ways;
use crate::{Case, Cause, Member, Way};
use memberlist_probes::Explanation;
use std::alloc::AllocError;

/// The longest that handshakes may be said to take, against late answers (own), in microseconds.
const LONG_SHAKE: u64 = 2_000_000;

/// How long before the silence a probe may be sent that falls into it (own).
const BEFORE: u64 = 100_000;

/// How much later than its first failed probe arrivals count (own).
const AFTER: u64 = 50_000;

/// What is told of the member, with its evidence.
pub(crate) fn told(subject: &Subject, evidence: &mut Vec<Evidence>) -> Result<Cause, AllocError> {
    counts(subject, evidence)?;
    if subject.host.refusals > 0 {
        return process_gone(subject, evidence);
    }
    if let Some(heir) = subject.heir() {
        evidence.push(Evidence::Succeeded {
            by: heir.member,
            from: heir.time,
        })?;
        return Ok(Cause::Restarted);
    }
    contacts(subject, evidence)?;
    answers(subject, evidence)?;
    if let Some(cause) = at_work(subject, evidence)? {
        return Ok(cause);
    }
    if let Some(cause) = heard_alone(subject, evidence)? {
        return Ok(cause);
    }
    if is_unheard(subject) {
        return Ok(unheard(subject));
    }
    ways(subject, evidence)
}

/// Whether nothing was heard of it while probes of it failed, for longer than an agent at work is
/// silent.
fn is_unheard(subject: &Subject) -> bool {
    let agent = &subject.agent;
    let is_long = subject.facts.interval.saturating_mul(3) < agent.around.len();
    agent.meanwhile == 0 && is_long && subject.is_probed() && !subject.is_reached()
}

/// How many probes of it and by it had no answer.
fn counts(subject: &Subject, evidence: &mut Vec<Evidence>) -> Result<(), AllocError> {
    let alloc = subject.facts.alloc;
    let (to, from) = (subject.to.len() as u64, subject.from.len() as u64);
    if to > 0 {
        let mut by = Vec::new(alloc);
        for case in &subject.to {
            by.push(case.prober)?;
        }
        order(&mut by);
        evidence.push(Evidence::ProbesOfIt {
            failed: to,
            all: to.saturating_add(subject.good_to.len() as u64),
            by,
            timeout: subject.facts.timeout,
        })?;
    }
    if from > 0 {
        evidence.push(Evidence::OwnProbes {
            failed: from,
            all: from.saturating_add(subject.good_from.len() as u64),
        })?;
    }
    unseen(subject, evidence, false)?;
    unseen(subject, evidence, true)
}

/// How many more had none, of which only indirect pings tell.
fn unseen(subject: &Subject, evidence: &mut Vec<Evidence>, is_own: bool) -> Result<(), AllocError> {
    let mut probes = 0u64;
    let mut with = Vec::new(subject.facts.alloc);
    for case in &subject.unseen {
        if (case.prober == subject.member) == is_own {
            probes = probes.saturating_add(1);
            with.push(case.other(subject.member))?;
        }
    }
    order(&mut with);
    if probes > 0 {
        evidence.push(Evidence::Unseen {
            is_own,
            probes,
            with,
        })?;
    }
    Ok(())
}

/// Its host says that no process has the port.
fn process_gone(subject: &Subject, evidence: &mut Vec<Evidence>) -> Result<Cause, AllocError> {
    evidence.push(Evidence::Refused {
        times: subject.host.refusals,
        first: subject.host.first_refusal,
    })?;
    if subject.agent.is_new || matches!(subject.numbers, Some(Numbers::Anew { .. })) {
        evidence.push(Evidence::NewProcess)?;
    }
    Ok(Cause::ProcessGone)
}

/// What its host did, and how its agent was heard.
fn contacts(subject: &Subject, evidence: &mut Vec<Evidence>) -> Result<(), AllocError> {
    let host = &subject.host;
    if host.accepted > 0 {
        evidence.push(Evidence::Accepted {
            connections: host.accepted,
            mute: subject.mute(),
        })?;
    }
    if let Some(took) = host.handshakes.percentile(50) {
        evidence.push(Evidence::Handshake { took })?;
    }
    if host.half_open > 0 {
        evidence.push(Evidence::HalfOpen {
            times: host.half_open,
        })?;
    }
    let connections = subject.unanswered();
    if connections > 0 {
        evidence.push(Evidence::Unanswered { connections })?;
    }
    let heard = if subject.agent.words > 0 {
        Evidence::Silence {
            longest: subject.agent.silence.len(),
        }
    } else {
        Evidence::NotHeard {
            since: subject.agent.silence.from,
        }
    };
    evidence.push(heard).map_err(AllocError::from)
}

/// How late answers were, what happened to probes, and what its numbers tell.
fn answers(subject: &Subject, evidence: &mut Vec<Evidence>) -> Result<(), AllocError> {
    let alloc = subject.facts.alloc;
    let timeout = subject.facts.timeout;
    if let Some(by) = subject.late_from.percentile(50) {
        let mut to = Vec::new(alloc);
        for case in &subject.to {
            if case.is_later_than(timeout) {
                to.push(case.prober)?;
            }
        }
        order(&mut to);
        evidence.push(Evidence::LateFromIt {
            answers: subject.late_from.len(),
            by,
            to,
        })?;
    }
    if let Some(by) = subject.late_to.percentile(50) {
        evidence.push(Evidence::LateToIt {
            answers: subject.late_to.len(),
            by,
        })?;
    }
    for (is_own, counts) in [(false, subject.of_it), (true, subject.of_own)] {
        if counts.iter().any(|count| *count > 0) {
            evidence.push(Evidence::Explained { is_own, counts })?;
        }
    }
    if let Some(numbers) = subject.numbers {
        evidence.push(Evidence::Numbers(numbers))?;
    }
    Ok(())
}

/// How many probes of it show that the agent took the time, that the way did, and that something was
/// lost.
#[derive(Clone, Copy)]
struct Shares {
    own: u64,
    way: u64,
    lost: u64,
    late: u64,
    /// Whether handshakes are as slow as answers. None if there were none.
    is_way_slow: Option<bool>,
}

impl Shares {
    fn of(subject: &Subject) -> Shares {
        let of_it = |explanation| subject.of_it(explanation);
        Shares {
            own: of_it(Explanation::AnswerLate).saturating_add(of_it(Explanation::Silent)),
            way: of_it(Explanation::WaySlow),
            lost: of_it(Explanation::PingLost).saturating_add(of_it(Explanation::AnswerLost)),
            late: subject.late_from.len(),
            is_way_slow: is_way_slow(subject),
        }
    }
}

/// Whether handshakes take more than half of the timeout, and more than half of what late answers
/// take.
fn is_way_slow(subject: &Subject) -> Option<bool> {
    let took = subject.host.handshakes.percentile(50)?;
    let timeout = subject.facts.timeout;
    let from = subject.late_from.percentile(50);
    let to = subject.late_to.percentile(50);
    let late = match (from, to) {
        (Some(from), Some(to)) => from.min(to),
        (Some(late), None) | (None, Some(late)) => late,
        (None, None) => timeout.saturating_mul(2),
    };
    let twice = took.saturating_mul(2);
    Some(timeout < twice && late.min(LONG_SHAKE) < twice)
}

/// It, or the way to it, works and takes too long, or does nothing for a while.
fn at_work(subject: &Subject, evidence: &mut Vec<Evidence>) -> Result<Option<Cause>, AllocError> {
    let shares = Shares::of(subject);
    if is_stopped(subject, &shares) {
        let silence = subject.agent.silence;
        let (from, to) = (silence.from, silence.to);
        evidence.push(if shares.late > 0 && to < subject.end {
            Evidence::SilentUntil { from, to }
        } else {
            Evidence::SilentFrom { from }
        })?;
        return Ok(Some(Cause::Stopped));
    }
    let unread = subject.of_own(Explanation::Unread);
    let own = subject.from.len() as u64;
    if unread > 0 && own <= unread.saturating_mul(4) && shares.lost == 0 {
        evidence.push(Evidence::Unheeded)?;
        return Ok(Some(Cause::SlowMember));
    }
    if let Some(cause) = late(subject, &shares) {
        return Ok(Some(cause));
    }
    let (tried, answered) = subject.tried();
    let is_late = shares.late > 0 || !subject.late_to.is_empty();
    let is_most = tried <= answered.saturating_mul(2);
    if tried >= 3 && is_most && subject.answered() == 0 && !is_late {
        evidence.push(Evidence::OverTcp { probes: answered })?;
        return Ok(Some(Cause::UdpBlocked));
    }
    Ok(None)
}

/// Whether one silence of it holds the failed probes, its host or a late burst or its own capture
/// shows that they arrived, and nothing shows that it was at work.
fn is_stopped(subject: &Subject, shares: &Shares) -> bool {
    let silence = subject.agent.silence;
    let interval = subject.facts.interval;
    let is_long = interval.saturating_mul(22) < silence.len().saturating_mul(10);
    let from = silence.from.saturating_sub(BEFORE);
    let inside = subject.sent_within(from, silence.to);
    let all = subject.to.len() as u64;
    let holds_most = all > 0 && all.saturating_mul(4) <= inside.saturating_mul(5);
    let is_late = all <= shares.late.saturating_mul(2) && shares.is_way_slow != Some(true);
    let has_arrived = subject.mute() > 0 || shares.own > 0 || is_late;
    let was_at_work = was_at_work(subject);
    is_long && holds_most && has_arrived && shares.lost == 0 && !was_at_work
}

/// Whether the numbers of its pings show it at work for half of the silence.
fn was_at_work(subject: &Subject) -> bool {
    match subject.numbers {
        Some(Numbers::AtWork { pings, silence }) => {
            let time = pings.saturating_mul(subject.facts.interval);
            silence <= time.saturating_mul(2)
        }
        _ => false,
    }
}

/// Answers that are late, by its agent or by the way.
fn late(subject: &Subject, shares: &Shares) -> Option<Cause> {
    if shares.own >= 2 && shares.own >= shares.way && shares.own >= shares.lost {
        return Some(Cause::SlowMember);
    }
    let all_late = shares.late.saturating_add(subject.late_to.len());
    let acked = subject
        .to
        .iter()
        .filter(|case| case.acked.is_some())
        .count();
    let is_seen = shares.way >= 2 && shares.way >= shares.lost;
    if is_seen || shares.is_way_slow == Some(true) && (all_late >= 2 || acked >= 2) {
        return Some(Cause::WaySlow);
    }
    let all = subject.to.len() as u64;
    if shares.late < 2 || shares.late.saturating_mul(2) < all {
        return None;
    }
    Some(match shares.is_way_slow {
        None => Cause::SlowMemberOrWay,
        Some(_) => Cause::SlowMember,
    })
}

/// What its own capture alone tells: nothing arrives, or nothing that it sends.
fn heard_alone(
    subject: &Subject,
    evidence: &mut Vec<Evidence>,
) -> Result<Option<Cause>, AllocError> {
    let facts = subject.facts;
    let Some(first) = subject.from.iter().map(|case| case.time).min() else {
        return Ok(None);
    };
    let last = subject.from.iter().map(|case| case.time).max();
    let until = last.unwrap_or(first).saturating_add(facts.interval);
    let is_answered = subject.good_from.iter().any(|case| first < case.time);
    let failed = subject.unacked();
    let is_most = (subject.from.len() as u64).saturating_mul(4) <= failed.saturating_mul(5);
    if !facts.is_only_captured(subject.member) || is_answered || failed == 0 || !is_most {
        return Ok(None);
    }
    let arrived = facts.words_to(subject.member, first.saturating_add(AFTER), until);
    if arrived == 0 {
        let time = until.saturating_sub(first);
        evidence.push(Evidence::NothingArrived { time })?;
        return Ok(Some(Cause::HearsNobody));
    }
    let is_reached = subject.from.iter().any(|case| case.is_relayed_answer());
    if failed.saturating_mul(2) <= arrived && !is_reached && hears_all(subject, first, until) {
        evidence.push(Evidence::Unanswering { packets: arrived })?;
        return Ok(Some(Cause::OneWay {
            way: Way::FromIt,
            is_some: false,
        }));
    }
    Ok(None)
}

/// Whether the member heard each one whose answer did not come.
fn hears_all(subject: &Subject, from: u64, to: u64) -> bool {
    subject
        .from
        .iter()
        .filter(|case| case.acked.is_none())
        .all(|case| hears(subject, case, from, to))
}

fn hears(subject: &Subject, case: &Case, from: u64, to: u64) -> bool {
    let member: Member = case.target;
    match subject.facts.words.of(member) {
        Some(words) => words.iter().any(|word| {
            word.to == Some(subject.member) && from < word.time && word.time < to
        }),
        None => false,
    }
}

/// Nothing of it was heard: what else was captured tells more, or nothing does.
fn unheard(subject: &Subject) -> Cause {
    let host = &subject.host;
    if subject.of_it(Explanation::AnswerLost) > 0 || host.half_open > 0 && host.accepted == 0 {
        return Cause::OneWay {
            way: Way::FromIt,
            is_some: false,
        };
    }
    match subject.numbers {
        Some(Numbers::Still { .. }) => Cause::Stopped,
        Some(Numbers::AtWork { .. }) if was_at_work(subject) => Cause::CutOff,
        Some(Numbers::Anew { .. }) => Cause::Restarted,
        _ => Cause::GoneOrCutOff,
    }
}
