//! Which way between a member and others is in trouble.

use crate::evidence::Evidence;
use crate::members::{has, order};
use crate::subject::Subject;
use crate::{Case, Cause, Member, Way};
use memberlist_probes::Explanation;
use std::alloc::AllocError;

/// How much sooner than the timeout an ack may be seen that was in time (own), in microseconds.
const SLACK: u64 = 20_000;

/// How many failed probes speak for each way, each twice.
#[derive(Clone, Copy)]
struct Votes {
    to_it: u64,
    from_it: u64,
}

impl Votes {
    /// Whether fewer than a fifth of so many failed probes speak for one way (own): a few may be
    /// mistaken.
    fn are_few(self, failed: u64) -> bool {
        let most = self.to_it.max(self.from_it);
        most == 0 || most.saturating_mul(5) < failed.saturating_mul(2)
    }
}

/// Which way is in trouble, by what each failed probe tells.
pub(crate) fn ways(subject: &Subject, evidence: &mut Vec<Evidence>) -> Result<Cause, AllocError> {
    let some = hit_and_not(subject, evidence)?;
    if let Some(cause) = answers_nobody(subject, evidence)? {
        return Ok(cause);
    }
    if subject.failed().saturating_add(subject.unseen.len() as u64) < 3 {
        return Ok(few(subject));
    }
    let votes = counted(subject);
    if votes.are_few(subject.failed()) {
        return Ok(match (some, subject.answered()) {
            (true, _) => Cause::Some,
            (false, 0) => Cause::Unknown,
            (false, _) => Cause::LossOfSome,
        });
    }
    evidence.push(Evidence::Votes {
        to_it: votes.to_it,
        from_it: votes.from_it,
    })?;
    Ok(cause_of(subject, votes, some))
}

/// The cause that votes tell. `is_some` says whether only some of the others are in trouble.
fn cause_of(subject: &Subject, votes: Votes, is_some: bool) -> Cause {
    let (least, most) = (
        votes.to_it.min(votes.from_it),
        votes.to_it.max(votes.from_it),
    );
    let answered = subject.answered();
    let all = answered.saturating_add(subject.failed());
    if most.saturating_mul(35) <= least.saturating_mul(100) {
        return if answered.saturating_mul(100) < all.saturating_mul(15) {
            Cause::CutOff
        } else {
            Cause::LossBothWays
        };
    }
    let way = if votes.from_it < votes.to_it {
        Way::ToIt
    } else {
        Way::FromIt
    };
    if is_some || answered.saturating_mul(5) < all {
        Cause::OneWay { way, is_some }
    } else {
        Cause::Loss(way)
    }
}

/// Too few probes to tell a way.
fn few(subject: &Subject) -> Cause {
    let episodes = &subject.facts.episodes;
    let is_suspected = episodes.ended.iter().chain(episodes.open().values()).any(
        |episode| episode.of == subject.member && episode.begin <= subject.end,
    );
    if is_suspected {
        Cause::Unknown
    } else {
        Cause::SingleLosses
    }
}

/// Whether some of the others are in trouble and some are not, with the evidence for it.
fn hit_and_not(subject: &Subject, evidence: &mut Vec<Evidence>) -> Result<bool, AllocError> {
    let alloc = subject.facts.alloc;
    let member = subject.member;
    let mut hit = Vec::new(alloc);
    for case in subject.to.iter().chain(subject.from.iter()) {
        hit.push(case.other(member))?;
    }
    order(&mut hit);
    let mut answered = Vec::new(alloc);
    for case in subject.good_to.iter().chain(subject.good_from.iter()) {
        answered.push(case.other(member))?;
    }
    order(&mut answered);
    let through = helpers(subject)?;
    let only_hit = without(subject, &hit, &answered)?;
    let mut not = without(subject, &answered, &hit)?;
    for helper in &through {
        if !has(&hit, *helper) {
            not.push(*helper)?;
        }
    }
    order(&mut not);
    let is_some = !only_hit.is_empty() && !not.is_empty() && subject.failed() >= 4;
    if is_some {
        evidence.push(Evidence::Hit { hit: only_hit, not })?;
    }
    let reached = subject
        .to
        .iter()
        .filter(|case| case.is_relayed_answer())
        .count();
    if reached > 0 {
        evidence.push(Evidence::Through {
            probes: reached as u64,
            by: through,
        })?;
    }
    Ok(is_some)
}

/// Those through which probes of it were answered.
fn helpers(subject: &Subject) -> Result<Vec<Member>, AllocError> {
    let mut through = Vec::new(subject.facts.alloc);
    for case in &subject.to {
        for asked in &case.asked {
            if asked.has_reached {
                through.push(asked.member)?;
            }
        }
    }
    order(&mut through);
    Ok(through)
}

/// The members of one list that are not in another. Both are in their order.
fn without(
    subject: &Subject,
    members: &[Member],
    others: &[Member],
) -> Result<Vec<Member>, AllocError> {
    let mut left = Vec::new(subject.facts.alloc);
    for member in members {
        if !has(others, *member) {
            left.push(*member)?;
        }
    }
    Ok(left)
}

/// It sends, and answers nobody: nothing arrives at it, or nothing passes either way.
fn answers_nobody(
    subject: &Subject,
    evidence: &mut Vec<Evidence>,
) -> Result<Option<Cause>, AllocError> {
    let agent = subject.agent;
    let is_reached = subject.to.iter().any(|case| case.is_relayed_answer());
    let is_sending = agent.acks == 0 && agent.meanwhile > 0;
    if !is_sending || !subject.good_to.is_empty() || subject.to.len() < 2 || is_reached {
        return Ok(None);
    }
    let is_unanswered = subject.from.len() >= 2
        && subject
            .from
            .iter()
            .all(|case| case.acked.is_none() && !case.is_seen_at_target);
    if is_unanswered {
        evidence.push(Evidence::NobodyAnswersIt)?;
        return Ok(Some(Cause::CutOff));
    }
    evidence.push(Evidence::AnswersNobody)?;
    Ok(Some(Cause::OneWay {
        way: Way::ToIt,
        is_some: false,
    }))
}

/// What each failed probe says of the way, where what was captured tells it.
fn counted(subject: &Subject) -> Votes {
    let mut votes = Votes {
        to_it: 0,
        from_it: 0,
    };
    let timeout = subject.facts.timeout;
    let is_between = subject.facts.is_between;
    for case in &subject.to {
        let is_lost = case.only() == Some(Explanation::AnswerLost);
        let is_late = case.is_later_than(timeout);
        if case.only() == Some(Explanation::PingLost) {
            votes.to_it = votes.to_it.saturating_add(2);
        } else if is_lost || !is_late && is_acked_before(subject, case) {
            votes.from_it = votes.from_it.saturating_add(2);
        } else if case.acked.is_none() && is_between {
            votes.to_it = votes.to_it.saturating_add(1);
        }
    }
    for case in &subject.from {
        if case.only() == Some(Explanation::PingLost) {
            votes.from_it = votes.from_it.saturating_add(2);
        } else if case.only() == Some(Explanation::AnswerLost)
            || is_acked_on_the_way(subject, case)
        {
            votes.to_it = votes.to_it.saturating_add(2);
        } else if case.acked.is_none() && is_between && !case.is_target_captured {
            votes.from_it = votes.from_it.saturating_add(1);
        }
    }
    votes
}

/// Whether an ack was seen in time, and nothing was captured at the prober.
fn is_acked_before(subject: &Subject, case: &Case) -> bool {
    let timeout = subject.facts.timeout.saturating_sub(SLACK);
    case.was_acked_within(timeout) && !case.is_prober_captured
}

/// Whether an ack was seen in time, and nothing says that the target's agent was slow.
fn is_acked_on_the_way(subject: &Subject, case: &Case) -> bool {
    let timeout = subject.facts.timeout.saturating_sub(SLACK);
    let among = [
        Explanation::AnswerLost,
        Explanation::Unread,
        Explanation::WaySlow,
    ];
    let is_of_them = Explanation::ALL.iter().zip(&case.left).all(|(explanation, is_left)| !*is_left
        || among.contains(explanation));
    case.was_acked_within(timeout) && is_of_them
}
