//! What is measured.

use crate::spread::Spread;

/// What a run measured; times are in microseconds after the start of the scenario.
#[derive(Clone, Copy, Debug)]
pub(crate) struct Measured {
    /// Datagrams, their bytes, and the bytes of streams.
    pub(crate) packets: u64,
    pub(crate) bytes: u64,
    pub(crate) streamed: u64,
    /// The longest datagram.
    pub(crate) longest: usize,
    /// The first suspicion of the last member.
    pub(crate) suspected: Option<u64>,
    /// Who shows the last member as dead or gone, and who has the change of the first one.
    pub(crate) ended: Spread,
    pub(crate) told: Spread,
    /// Probes without an answer, and deaths, though both members are well.
    pub(crate) false_suspicions: u64,
    pub(crate) false_deaths: u64,
    /// How many of these deaths the last member declared.
    pub(crate) carried: u64,
    pub(crate) refutations: u64,
    /// At the end: pairs where one shows a running member as gone, or one that is gone as alive; and
    /// pairs where one suspects a running member.
    pub(crate) wrong: u64,
    pub(crate) suspects: u64,
    /// Since when, to a second, no pair was wrong and nobody was suspected, after the trouble ended.
    pub(crate) healed: Option<u64>,
}

impl Measured {
    pub(crate) fn new(members: u32) -> Measured {
        let others = members.saturating_sub(1);
        Measured {
            packets: 0,
            bytes: 0,
            streamed: 0,
            longest: 0,
            suspected: None,
            ended: Spread::among(others),
            told: Spread::among(others),
            false_suspicions: 0,
            false_deaths: 0,
            carried: 0,
            refutations: 0,
            wrong: 0,
            suspects: 0,
            healed: None,
        }
    }
}

/// One more.
pub(crate) fn count(number: &mut u64) {
    *number = number.saturating_add(1);
}
