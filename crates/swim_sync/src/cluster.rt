//! A cluster of nodes, and the events that happen in it.

ghost use Rattle.std.specs.Option.{option_copied};
ghost use Rattle.std.specs.Prelude.{◌≡◌, ◌<◌, ◌∷◌, [], length, slice_get, IsTrue, OnOk, OnErr, IfErr};
ghost use Rattle.swim_sync.specs.declared.event.Event.TheVariants as event;
ghost use Rattle.swim_sync.specs.Cluster.{BothExchange, DumpsTooMany, Ran, Stopped, StopsBy};
ghost use Rattle.swim_sync.specs.Alike.{HaveOneTable};
ghost use Rattle.swim_sync.specs.OverMemory.{Hinders};
ghost use Rattle.swim_sync.specs.Paths.{AreTwoNodes};

use crate::alike::Alike;
use crate::event::{Claims, Event};
use crate::over_memory::{answered, exchanged, offered};
use crate::stop::{Stop, Why};
use std::alloc::Global;
use std::marker::Model;
use swim_claim::Claim;
use swim_table::{Node, RefuteFault};

/// The nodes of a cluster, numbered from 0.
#[derive(Drop)]
pub struct Cluster {
    alloc: Global,
    nodes: Vec<Node>,
    // which of the nodes are known to have one table
    alike: Alike,
}

impl Model for Cluster {
    ghost use Rattle.std.specs.Prelude.{List};
    ghost use Rattle.swim_table.specs.Node.{NodeValue};

    ghost Value = { List NodeValue };

    ghost use Rattle.swim_sync.specs.Alike.{AreAlike};

    ghost view = { λ c. c.nodes.items };

    ghost invariant = { λ c. AreAlike c.nodes.items c.alike };
}

impl Cluster {
    /// The cluster of these nodes, in this order. It takes no memory; later growth takes it from
    /// this allocator.
    pub fn new(alloc: Global, nodes: Vec<Node>) -> Cluster
        ensures { result ≡ nodes.items }
    {
        Cluster {
            alloc,
            nodes,
            alike: Alike::new(alloc),
        }
    }

    /// The number of nodes.
    pub fn len(&self) -> usize
        ensures { result ≡ length self.now }
    {
        self.nodes.len()
    }

    /// Node k, or none if there are no more than k nodes.
    pub fn node(&self, k: usize) -> Option<&Node>
        ensures { option_copied result ≡ slice_get self.now k }
    {
        self.nodes.get(k)
    }

    /// Runs the events, one after the other.
    ///
    /// # Errors
    ///
    /// The run stops at the first event that cannot happen. That event changed nothing; what the
    /// events before it did remains.
    ///
    /// - `NoSuchNode` if a number in the event is not that of a node.
    /// - `SameNode` if it is an exchange, whole or half, of a node with itself.
    /// - `TooManyRecords` if it is an exchange, whole or half, and one of the two tables keeps more
    ///   than 131,072 records.
    /// - `Memory` if memory runs out. A refutation requests memory only if one is due.
    pub fn run(&mut self, events: &[Event]) -> Result<(), Stop>
        ensures ok { OnOk result (Ran self.old self.new events.now) }
        ensures stopped { IfErr result (Stopped self.old self.new events.now) }
    {
        for (done, event) in events.iter().enumerate() {
            if let Err(why) = self.happen(event) {
                return Err(Stop { done, why });
            }
        }
        Ok(())
    }

    /// Runs one event. If it cannot happen, nothing changes.
    fn happen(&mut self, event: &Event) -> Result<(), Why>
        ensures ok { OnOk result (Ran self.old self.new (event.now ∷ [])) }
        ensures unchanged { OnErr result (self.new ≡ self.old) }
        ensures refused { IfErr result (StopsBy self.old event.now) }
    {
        match event {
            Event::Hear(k, claim) => self.hear(*k, claim),
            Event::HearAll(k, claims) => self.hear_all(*k, claims),
            Event::Exchange(first, second) => self.exchange(*first, *second),
            Event::Half(first, second) => self.half(*first, *second),
            Event::Refute(k) => self.refute(*k),
        }
    }

    fn hear(&mut self, k: usize, claim: &Claim) -> Result<(), Why>
        ensures ok { OnOk result (Ran self.old self.new (event.Hear k claim.now ∷ [])) }
        ensures unchanged { OnErr result (self.new ≡ self.old) }
        ensures refused { IfErr result (StopsBy self.old (event.Hear k claim.now)) }
    {
        if k >= self.len() {
            return Err(Why::NoSuchNode);
        }
        let claim = claim.try_clone(self.alloc)?;
        self.alike.forget(k);
        match self.nodes[k].take(claim) {
            Ok(_) => Ok(()),
            Err(_) => Err(Why::Memory),
        }
    }

    fn hear_all(&mut self, k: usize, claims: &Claims) -> Result<(), Why>
        ensures ok { OnOk result (Ran self.old self.new (event.HearAll k claims.now ∷ [])) }
        ensures unchanged { OnErr result (self.new ≡ self.old) }
        ensures refused { IfErr result (StopsBy self.old (event.HearAll k claims.now)) }
    {
        if k >= self.len() {
            return Err(Why::NoSuchNode);
        }
        let claims = claims.copies(self.alloc)?;
        self.alike.forget(k);
        self.nodes[k].take_all(claims)?;
        Ok(())
    }

    fn refute(&mut self, k: usize) -> Result<(), Why>
        ensures ok { OnOk result (Ran self.old self.new (event.Refute k ∷ [])) }
        ensures unchanged { OnErr result (self.new ≡ self.old) }
        ensures refused { IfErr result (StopsBy self.old (event.Refute k)) }
    {
        if k >= self.len() {
            return Err(Why::NoSuchNode);
        }
        self.alike.forget(k);
        if self.nodes[k].refute() == Err(RefuteFault::Memory) {
            return Err(Why::Memory);
        }
        Ok(())
    }

    pub(crate) fn exchange(&mut self, first: usize, second: usize) -> Result<(), Why>
        ensures ok { OnOk result (Ran self.old self.new (event.Exchange first second ∷ [])) }
        ensures unchanged { OnErr result (self.new ≡ self.old) }
        ensures refused { IfErr result (StopsBy self.old (event.Exchange first second)) }
    {
        self.check_two(first, second)?;
        let (low, high) = (first.min(second), first.max(second));
        let alike = self.alike.are(low, high);
        exchange_nodes(self.alloc, &mut self.nodes, low, high, alike)?;
        self.alike.pair(self.nodes.len(), low, high);
        Ok(())
    }

    fn half(&mut self, first: usize, second: usize) -> Result<(), Why>
        ensures ok { OnOk result (Ran self.old self.new (event.Half first second ∷ [])) }
        ensures unchanged { OnErr result (self.new ≡ self.old) }
        ensures refused { IfErr result (StopsBy self.old (event.Half first second)) }
    {
        self.check_two(first, second)?;
        let offer = offered(self.alloc, self.nodes[first].table())?;
        self.alike.forget(second);
        answered(self.alloc, offer.bytes(), self.nodes[second].table_mut())
    }

    /// Checks that these are the numbers of two different nodes.
    fn check_two(&self, first: usize, second: usize) -> Result<(), Why>
        ensures ok { OnOk result (AreTwoNodes (length self.now) first second) }
        ensures refused { IfErr result (λ why. StopsBy self.now (event.Exchange first second) why
            × StopsBy self.now (event.Half first second) why) }
    {
        if first.max(second) >= self.len() {
            return Err(Why::NoSuchNode);
        }
        if first == second {
            return Err(Why::SameNode);
        }
        Ok(())
    }
}

/// Exchanges the tables of two nodes, which may be known to be alike.
fn exchange_nodes(
    alloc: Global,
    nodes: &mut [Node],
    low: usize,
    high: usize,
    alike: bool,
) -> Result<(), Why>
    requires order { low < high }
    requires nodes { high < length nodes.old }
    requires alike { IsTrue alike → HaveOneTable nodes.old low high }
    ensures exchanges { OnOk result (BothExchange nodes.old nodes.new low high) }
    ensures same { OnOk result (HaveOneTable nodes.new low high) }
    ensures unchanged { OnErr result (nodes.new ≡ nodes.old) }
    ensures refused { IfErr result (Hinders (DumpsTooMany nodes.old (event.Exchange low high))) }
{
    let (front, back) = nodes.split_at_mut(high);
    exchanged(alloc, front[low].table_mut(), back[0].table_mut(), alike)
}
