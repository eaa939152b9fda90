//! Random runs of small clusters, compared with lists of the claims that each node heard.
use crate::tests::clusters::{assert_runs, cluster};
use crate::tests::{assert_stays, details_of, name_of, take};
use std::alloc::{AllocError, Global};
use std::process::Abort;
use swim_claim::{Claim, Name};
use swim_sync::{Claims, Cluster, Event};
use swim_table::{Table, list};

/// A source of pseudo-random numbers.
#[derive(Drop)]
struct Dice {
    state: u64,
}

impl Dice {
    /// A number below the number of sides.
    fn roll(&mut self, sides: u8) -> u8 {
        self.state = self.state.wrapping_mul(6_364_136_223_846_793_005);
        self.state = self.state.wrapping_add(1_442_695_040_888_963_407);
        self.state.to_be_bytes()[0] % sides.max(1)
    }

    fn name(&mut self, rt: &impl Abort, alloc: Global) -> Result<Name, AllocError> {
        let letter = b'a' + self.roll(4).min(3);
        name_of(rt, alloc, &[letter])
    }

    /// An Alive or a Suspect more often than a Confirm or a Leave.
    fn claim(&mut self, rt: &impl Abort, alloc: Global) -> Result<Claim, AllocError> {
        let name = self.name(rt, alloc)?;
        let inc = u32::from(self.roll(4));
        Ok(match self.roll(12) {
            0 => Claim::Confirm { name, inc },
            1 => Claim::Leave { name, inc },
            2..=5 => Claim::Suspect { name, inc },
            _ => {
                let details = details_of(rt, alloc, 1, u16::from(self.roll(3)))?;
                Claim::Alive { name, inc, details }
            }
        })
    }

    /// An event of three nodes, other than a refutation.
    fn event(&mut self, rt: &impl Abort, alloc: Global) -> Result<Event, AllocError> {
        let first = usize::from(self.roll(3));
        let second = if self.roll(2) == 0 {
            (first + 1) % 3
        } else {
            (first + 2) % 3
        };
        Ok(match self.roll(5) {
            0 | 1 => Event::Hear(first, self.claim(rt, alloc)?),
            2 => {
                let mut claims = Vec::new(alloc);
                claims.push(self.claim(rt, alloc)?)?;
                claims.push(self.claim(rt, alloc)?)?;
                Event::HearAll(first, Claims::new(claims))
            }
            3 => Event::Exchange(first, second),
            _ => Event::Half(first, second),
        })
    }
}

/// What each node heard, each claim once.
#[derive(Drop)]
struct Told {
    lists: Vec<Vec<Claim>>,
}

impl Told {
    fn start(alloc: Global, cluster: &Cluster) -> Result<Told, AllocError> {
        let mut lists = Vec::new(alloc);
        for k in 0..cluster.len() {
            let mut claims = Vec::new(alloc);
            if let Some(node) = cluster.node(k) {
                let name = node.name().try_clone(alloc)?;
                let details = node.details().try_clone(alloc)?;
                claims.push(Claim::Alive {
                    name,
                    inc: 0,
                    details,
                })?;
            }
            lists.push(claims)?;
        }
        Ok(Told { lists })
    }

    fn tell(&mut self, alloc: Global, k: usize, claims: &[Claim]) -> Result<(), AllocError> {
        if let Some(told) = self.lists.get_mut(k) {
            for claim in claims {
                if !told.iter().any(|known| is_same(known, claim)) {
                    told.push(claim.try_clone(alloc)?)?;
                }
            }
        }
        Ok(())
    }

    fn copies(&self, alloc: Global, k: usize) -> Result<Vec<Claim>, AllocError> {
        let mut copies = Vec::new(alloc);
        if let Some(told) = self.lists.get(k) {
            for claim in told {
                copies.push(claim.try_clone(alloc)?)?;
            }
        }
        Ok(copies)
    }

    fn happen(&mut self, alloc: Global, event: &Event) -> Result<(), AllocError> {
        match event {
            Event::Hear(k, claim) => self.tell(alloc, *k, &[claim.try_clone(alloc)?]),
            Event::HearAll(k, claims) => self.tell(alloc, *k, claims.claims()),
            Event::Exchange(first, second) => {
                let offered = self.copies(alloc, *first)?;
                let replied = self.copies(alloc, *second)?;
                self.tell(alloc, *first, &replied)?;
                self.tell(alloc, *second, &offered)
            }
            Event::Half(first, second) => {
                let offered = self.copies(alloc, *first)?;
                self.tell(alloc, *second, &offered)
            }
            Event::Refute(_) => Ok(()),
        }
    }

    /// The listing of the table of what the node heard.
    fn listing(&self, alloc: Global, k: usize) -> Result<Vec<u8>, AllocError> {
        let mut table = Table::new(alloc);
        for claim in self.copies(alloc, k)? {
            take(&mut table, claim)?;
        }
        list(alloc, &table)
    }

    /// Asserts that each node's table is that of what it heard.
    fn assert_shown(
        &self,
        rt: &impl Abort,
        alloc: Global,
        cluster: &Cluster,
    ) -> Result<(), AllocError> {
        for k in 0..self.lists.len() {
            let told = self.listing(alloc, k)?;
            let node = cluster.node(k).expect(rt, "a node");
            assert_stays(rt, alloc, node.table(), &told)?;
        }
        Ok(())
    }
}

fn is_same(claim: &Claim, other: &Claim) -> bool {
    claim.kind() == other.kind()
        && claim.name().bytes() == other.name().bytes()
        && claim.inc() == other.inc()
        && claim.details() == other.details()
}

fn run_at_random(rt: &impl Abort, alloc: Global, seed: u64) -> Result<(), AllocError> {
    let mut dice = Dice { state: seed };
    let mut cluster = cluster(rt, alloc, 3)?;
    let mut told = Told::start(alloc, &cluster)?;
    for _ in 0..40 {
        let event = dice.event(rt, alloc)?;
        told.happen(alloc, &event)?;
        assert_runs(rt, &mut cluster, &[event]);
        told.assert_shown(rt, alloc, &cluster)?;
    }
    Ok(())
}

#[test]
fn nodes_show_the_tables_of_what_they_were_told(rt: HostRuntime) -> Result<(), AllocError> {
    for seed in 1..=12 {
        run_at_random(&rt, rt.alloc(), seed)?;
    }
    Ok(())
}
