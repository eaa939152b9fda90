//! What views print.

ghost use Rattle.std.specs.Prelude.{◌≡◌};

use crate::arguments::chosen::Chosen;
use crate::heard::serf::queries::{Queries, Tally};
use crate::listening::detecting::{Detected, Detecting};
use crate::listening::setting::Setting;
use crate::listening::watch::{News, Occurrence, Watch};
use crate::shown::agent_log::AgentLog;
use crate::text::written::Text;
use std::alloc::{AllocError, Global};
use std::collections::BTreeMap;
use std::mem::replace;

/// What the views print, each event once.
#[derive(Drop)]
pub(crate) struct Printer {
    alloc: Global,
    /// The queries that any view saw.
    queries: Queries,
    /// What follows the probes of members.
    detecting: Detecting,
    /// How often each event was printed.
    printed: BTreeMap<String, u64>,
    /// The output that was not printed yet.
    pub(crate) out: Text,
}

impl Printer {
    /// Nothing to print. The logs of agents are held against what is heard.
    pub(crate) fn new(alloc: Global, setting: Setting, logs: Vec<AgentLog>) -> Printer {
        Printer {
            alloc,
            queries: Queries::new(alloc),
            detecting: Detecting::new(alloc, setting, logs),
            printed: BTreeMap::new(alloc),
            out: Text::new(alloc),
        }
    }

    /// Takes over what a view has to print.
    pub(crate) fn collect(&mut self, watch: &mut Watch, chosen: &Chosen) -> Result<(), AllocError>
        ensures { watch.new.listener ≡ watch.old.listener }
    {
        for sighting in replace(&mut watch.sightings, Vec::new(self.alloc)) {
            self.queries.note(sighting)?;
        }
        self.out.push_text(&watch.out);
        watch.out.clear();
        for news in &watch.news {
            self.print(news)?;
        }
        watch.news.clear();
        self.detecting.take(&mut watch.notes, chosen)?;
        self.print_detected(chosen);
        Ok(())
    }

    /// Prints what was told of suspicions, unless it is gathered.
    fn print_detected(&mut self, chosen: &Chosen) {
        if !chosen.verb.gathers() {
            self.out.push_text(&self.detecting.out);
            self.detecting.out.clear();
        }
    }

    /// Shows what is shown of probes at the end, and returns what a report shows of them.
    pub(crate) fn finish(&mut self, chosen: &Chosen) -> Result<Detected, AllocError> {
        self.detecting.finish(chosen)?;
        self.print_detected(chosen);
        self.detecting.detected(chosen)
    }

    /// Prints an event, unless another view printed it.
    fn print(&mut self, news: &News) -> Result<(), AllocError> {
        let is_new = match &news.occurrence {
            Some(occurrence) => is_first(&mut self.printed, occurrence)?,
            None => true,
        };
        if is_new {
            self.out.push_str(&news.line);
        }
        Ok(())
    }

    /// How many queries there are.
    pub(crate) fn queries(&self) -> usize {
        self.queries.len()
    }

    /// What came of a query whose time is over at this moment, or of one that is left, if there is
    /// one.
    pub(crate) fn tally(&mut self, now: u64, is_end: bool) -> Option<Tally> {
        if is_end {
            self.queries.left(now)
        } else {
            self.queries.over(now)
        }
    }
}

/// Whether no view printed this event yet. It is noted as printed.
fn is_first(
    printed: &mut BTreeMap<String, u64>,
    occurrence: &Occurrence,
) -> Result<bool, AllocError> {
    if let Some(times) = printed.get_mut(&occurrence.key) {
        let is_new = *times < occurrence.nth;
        *times = occurrence.nth.max(*times);
        return Ok(is_new);
    }
    printed.insert(occurrence.key.clone()?, occurrence.nth)?;
    Ok(true)
}
