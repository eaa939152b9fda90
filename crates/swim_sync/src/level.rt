//! Levelling: exchanges after which all nodes of a cluster have one table.

ghost use Rattle.std.specs.Prelude.{◌≡◌, ◌≤◌, ◌<◌, ◌+◌, ◌-◌, ℕ, length, take, IsOk, IfErr, OnOk};
ghost use Rattle.swim_sync.specs.declared.event.Event.TheVariants as event;
ghost use Rattle.swim_sync.specs.Cluster.{AreLevel, LevelStopped, Ran, StopsBy};
ghost use Rattle.swim_sync.specs.Levels.{level_list, meet_each};

use crate::cluster::Cluster;
use crate::stop::Stop;

impl Cluster {
    /// Levels the cluster of n nodes: node 0 exchanges its table with each other node, from node 1
    /// on, and again with each of them except the last (own). For two or more nodes these are
    /// 2n - 3 exchanges. Each node then has the table of all claims that any node had. With fewer
    /// than two nodes nothing changes. There must be at most 2,147,483,648 nodes.
    ///
    /// # Errors
    ///
    /// Levelling stops at the first exchange that cannot happen. That exchange changed nothing;
    /// what those before it did remains.
    ///
    /// - `TooManyRecords` if one of the two tables keeps more than 131,072 records.
    /// - `Memory` if memory runs out.
    pub fn level(&mut self) -> Result<(), Stop>
        requires { length self.old ≤ 2147483648 }
        ensures ok { OnOk result (Ran self.old self.new (level_list (length self.old))) }
        ensures level { OnOk result (AreLevel self.old self.new) }
        ensures idle { length self.old ≤ 1 → IsOk result × (self.new ≡ self.old) }

        ensures stopped { IfErr result (LevelStopped self.old self.new) }
    {
        let others = self.len().saturating_sub(1);
        self.meet_each(others, 0)?;
        self.meet_each(others.saturating_sub(1), others)
    }

    /// Node 0 exchanges with each of `count` nodes, from node 1 on, after `done` earlier exchanges.
    fn meet_each(&mut self, count: usize, done: usize) -> Result<(), Stop>
        requires nodes { count ≤ length self.old - 1 }
        requires range { count + done ≤ 4294967296 }
        ensures ok { OnOk result (Ran self.old self.new (meet_each count)) }
        ensures idle { count ≡ 0 → IsOk result × (self.new ≡ self.old) }
        ensures stopped { IfErr result (λ stop. (i : ℕ) × (i < count) × (stop.done ≡ done + i)
            × Ran self.old self.new (take i (meet_each count))
            × StopsBy self.new (event.Exchange 0 (i + 1)) stop.why) }
    {
        for met in 0..count {
            if let Err(why) = self.exchange(0, met + 1) {
                let done = done + met;
                return Err(Stop { done, why });
            }
        }
        Ok(())
    }
}
