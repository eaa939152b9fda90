//! What explains the probes without an answer in one scene: first whether groups of members are in
//! trouble, then the members that most of the probes touch, one after another.

use crate::evidence::{Evidence, Numbers};
use crate::facts::Facts;
use crate::groups::{cut_off_together, partition};
use crate::members::order;
use crate::numbers::began_anew;
use crate::rules::told;
use crate::scene::Scene;
use crate::subject::{Subject, span_of};
use crate::trouble::{Of, Trouble};
use crate::{Case, Cause, Member};
use std::alloc::AllocError;
use std::collections::{BTreeMap, BTreeSet};

/// How many members are told of one scene that nobody need suspect (own).
const MOST: usize = 3;

/// How many more suspects are looked at (own). For each, all probes of the scene are.
const MOST_SUSPECTS: usize = 64;

/// How long before and after trouble numbers that begin anew explain it (own).
const ANEW_BEFORE: u64 = 12_000_000;

const ANEW_AFTER: u64 = 8_000_000;

/// How much the failed probes tell of a member that they touch: what counts most comes first.
#[derive(Clone, Copy, PartialEq, Eq, PartialOrd, Ord)]
struct Rank {
    touched: u64,
    others: u64,
    /// The more probes of it were answered, the less this is.
    unanswered: u64,
    probed: u64,
}

/// What explains the probes without an answer that were sent between these times.
pub(crate) fn diagnose(facts: &Facts, begin: u64, last: u64) -> Result<Vec<Trouble>, AllocError> {
    let scene = Scene::of(facts, begin, last)?;
    let mut troubles = Vec::new(facts.alloc);
    if scene.bad.is_empty() {
        troubles.push(leaving(&scene)?)?;
    } else if let Some(trouble) = partition(&scene)? {
        troubles.push(trouble)?;
    } else if let Some(trouble) = cut_off_together(&scene)? {
        troubles.push(trouble)?;
    } else {
        one_by_one(&scene, &mut troubles)?;
    }
    Ok(troubles)
}

/// All failed probes are of members that left, or by them.
fn leaving(scene: &Scene) -> Result<Trouble, AllocError> {
    let alloc = scene.facts.alloc;
    let of = Of::Several(scene.left.clone()?);
    let span = (scene.begin, scene.end);
    let mut trouble = Trouble::new(alloc, span, of, Cause::Left, &scene.leaving)?;
    trouble.evidence.push(Evidence::UnderWay {
        probes: scene.leaving.len() as u64,
    })?;
    Ok(trouble)
}

/// Tells of the member that most of the failed probes touch, then of the next of those that are left,
/// and at last of the suspects among their targets.
fn one_by_one(scene: &Scene, troubles: &mut Vec<Trouble>) -> Result<(), AllocError> {
    let mut rest = scene.bad.to_vec(scene.facts.alloc)?;
    for _ in 0..MOST {
        let Some(member) = most_touched(scene, &rest)? else {
            return Ok(());
        };
        let (mine, others) = parted(scene, &rest, member)?;
        troubles.push(trouble_of(scene, member, &mine)?)?;
        rest = others;
    }
    suspects_too(scene, rest, troubles)
}

/// Tells of the suspects among the targets of the probes, if more than loss explains these.
fn suspects_too<'a>(
    scene: &Scene<'a>,
    mut rest: Vec<&'a Case>,
    troubles: &mut Vec<Trouble>,
) -> Result<(), AllocError> {
    for member in scene.suspects(&rest)?.iter().take(MOST_SUSPECTS) {
        let (mine, others) = parted(scene, &rest, *member)?;
        if mine.is_empty() {
            continue;
        }
        let trouble = trouble_of(scene, *member, &mine)?;
        if !trouble.cause.is_by_loss() {
            troubles.push(trouble)?;
            rest = others;
        }
    }
    Ok(())
}

/// Probes that touch a member, and others.
type Parted<'a> = (Vec<&'a Case>, Vec<&'a Case>);

/// Those of the probes that touch the member, and the others.
fn parted<'a>(
    scene: &Scene<'a>,
    cases: &[&'a Case],
    member: Member,
) -> Result<Parted<'a>, AllocError> {
    let mut mine = Vec::new(scene.facts.alloc);
    let mut others = Vec::new(scene.facts.alloc);
    for case in cases {
        if case.touches(member) {
            mine.push(*case)?;
        } else {
            others.push(*case)?;
        }
    }
    Ok((mine, others))
}

/// The member that most of the probes touch: of several the one with more others, then the one that
/// answered fewer, then the one that was probed more.
fn most_touched(scene: &Scene, cases: &[&Case]) -> Result<Option<Member>, AllocError> {
    let mut best = None;
    for (member, rank) in &ranks(scene, cases)? {
        let is_better = match best {
            Some((other, _)) => other < *rank,
            None => true,
        };
        if is_better {
            best = Some((*rank, *member));
        }
    }
    Ok(best.map(|(_, member)| member))
}

/// The rank of each member that one of the probes touches.
fn ranks(scene: &Scene, cases: &[&Case]) -> Result<BTreeMap<Member, Rank>, AllocError> {
    let mut ranks = BTreeMap::new(scene.facts.alloc);
    for (member, touched) in &scene.touched(cases)? {
        ranks.insert(
            *member,
            Rank {
                touched: *touched,
                others: 0,
                unanswered: u64::MAX,
                probed: 0,
            },
        )?;
    }
    for (member, _) in &pairs(scene, cases)? {
        if let Some(rank) = ranks.get_mut(member) {
            rank.others = rank.others.saturating_add(1);
        }
    }
    for case in &scene.good {
        if let Some(rank) = ranks.get_mut(&case.target) {
            rank.unanswered = rank.unanswered.saturating_sub(1);
        }
    }
    for case in cases {
        if let Some(rank) = ranks.get_mut(&case.target) {
            rank.probed = rank.probed.saturating_add(1);
        }
    }
    Ok(ranks)
}

/// Each member that one of the probes touches, with each other end of these.
fn pairs(scene: &Scene, cases: &[&Case]) -> Result<Vec<(Member, Member)>, AllocError> {
    let mut pairs = Vec::new(scene.facts.alloc);
    for case in cases {
        for member in [case.prober, case.target] {
            if case.touches(member) {
                pairs.push((member, case.other(member)))?;
            }
        }
    }
    pairs.sort_unstable();
    pairs.dedup();
    Ok(pairs)
}

/// The other ends of probes that touch the member.
fn others_of(scene: &Scene, cases: &[&Case], member: Member) -> Result<Vec<Member>, AllocError> {
    let mut others = Vec::new(scene.facts.alloc);
    for case in cases {
        others.push(case.other(member))?;
    }
    order(&mut others);
    Ok(others)
}

/// What is told of the member by the probes that touch it.
fn trouble_of<'a>(
    scene: &Scene<'a>,
    member: Member,
    mine: &[&'a Case],
) -> Result<Trouble, AllocError> {
    let alloc = scene.facts.alloc;
    let (first, _) = span_of(mine);
    let others = others_of(scene, mine, member)?;
    let subject = Subject::of(scene, member, mine)?;
    let until = subject.end;
    let mut evidence = Vec::new(alloc);
    let mut cause = told(&subject, &mut evidence)?;
    let mut of = Of::One(member);
    if others.len() == 1 && cause.is_of_ways() {
        cause = Cause::LossBetween;
        let mut pair = others;
        pair.push(member)?;
        order(&mut pair);
        of = Of::Several(pair);
    }
    let mut trouble = Trouble::new(alloc, (first, until), of, cause, mine)?;
    trouble.evidence = evidence;
    look_for_restart(scene.facts, &mut trouble)?;
    Ok(trouble)
}

/// When the numbers of a member's pings began anew about this time, the last of the old ones before
/// its end.
fn restarted(facts: &Facts, member: Member, (begin, end): (u64, u64)) -> Option<Numbers> {
    let from = begin.saturating_sub(ANEW_BEFORE);
    let numbers = began_anew(facts, member, from, end.saturating_add(ANEW_AFTER))?;
    match numbers {
        Numbers::Anew { before, .. } if before <= end => Some(numbers),
        _ => None,
    }
}

/// If little is known of trouble, and the numbers of a member's pings begin anew, that is told.
fn look_for_restart(facts: &Facts, trouble: &mut Trouble) -> Result<(), AllocError> {
    if !trouble.cause.is_weak() {
        return Ok(());
    }
    let span = (trouble.begin, trouble.until);
    let mut seen = BTreeSet::new(facts.alloc);
    for (prober, target) in &trouble.legs {
        for member in [*prober, *target] {
            if !seen.insert(member)? {
                continue;
            }
            if let Some(numbers) = restarted(facts, member, span) {
                trouble.cause = Cause::Restarted;
                trouble.of = Of::One(member);
                trouble.evidence.push(Evidence::Numbers(numbers))?;
                return Ok(());
            }
        }
    }
    Ok(())
}

/// A restart that explains a suspicion which nothing else explains.
pub(crate) fn restart(
    facts: &Facts,
    member: Member,
    begin: u64,
    end: u64,
) -> Result<Option<Trouble>, AllocError> {
    let Some(numbers) = restarted(facts, member, (begin, end)) else {
        return Ok(None);
    };
    let of = Of::One(member);
    let mut trouble = Trouble::new(facts.alloc, (begin, end), of, Cause::Restarted, &[])?;
    trouble.evidence.push(Evidence::Numbers(numbers))?;
    Ok(Some(trouble))
}
