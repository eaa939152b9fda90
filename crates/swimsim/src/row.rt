//! What is printed.

use crate::arguments::Run;
use crate::measured::Measured;
use crate::spread::Spread;
use std::fmt;

/// The head of the table. Times are in milliseconds.
pub(crate) const HEAD: &str =
    "| scenario | members | loss % | seed | datagrams/s | bytes/s | stream bytes/s | longest | first suspicion | first dead | last dead | show it | told half | told 99 % | told all | know | false suspicions | false deaths | by the last | refutations | wrong | suspect | right again |
|---|---|---|---|---|---|---|---|---|---|---|---|---|---|---|---|---|---|---|---|---|---|---|";

/// A row of the table.
#[derive(Clone, Copy, Debug)]
pub(crate) struct Row {
    pub(crate) run: Run,
    pub(crate) measured: Measured,
}

/// Milliseconds, or a dash.
#[derive(Clone, Copy, Debug)]
struct Millis(Option<u64>);

impl fmt::Display for Millis {
    fn fmt<W: fmt::Write>(&self, f: &mut fmt::Formatter<W>) -> fmt::Result {
        match self.0 {
            Some(time) => write!(f, "{}", time / 1000),
            None => write!(f, "-"),
        }
    }
}

/// Who shows a member as gone.
#[derive(Clone, Copy, Debug)]
struct Ended(Spread);

impl fmt::Display for Ended {
    fn fmt<W: fmt::Write>(&self, f: &mut fmt::Formatter<W>) -> fmt::Result {
        write!(
            f,
            "{} | {} | {}",
            Millis(self.0.first),
            Millis(self.0.last),
            self.0.count
        )
    }
}

/// Who has heard of the change.
#[derive(Clone, Copy, Debug)]
struct Told(Spread);

impl fmt::Display for Told {
    fn fmt<W: fmt::Write>(&self, f: &mut fmt::Formatter<W>) -> fmt::Result {
        let Told(spread) = self;
        write!(
            f,
            "{} | {} | {} | {}",
            Millis(spread.half),
            Millis(spread.most),
            Millis(spread.all),
            spread.count
        )
    }
}

/// What was sent, for each member and second.
#[derive(Clone, Copy, Debug)]
struct Load(Row);

impl fmt::Display for Load {
    fn fmt<W: fmt::Write>(&self, f: &mut fmt::Formatter<W>) -> fmt::Result {
        let Row { run, measured } = &self.0;
        let each = u64::from(run.members).saturating_mul(run.seconds).max(1);
        let packets = measured.packets.saturating_mul(10) / each;
        write!(
            f,
            "{}.{} | {} | {} | {}",
            packets / 10,
            packets % 10,
            measured.bytes / each,
            measured.streamed / each,
            measured.longest
        )
    }
}

impl fmt::Display for Row {
    fn fmt<W: fmt::Write>(&self, f: &mut fmt::Formatter<W>) -> fmt::Result {
        let Row { run, measured } = self;
        write!(
            f,
            "| {} | {} | {} | {} | ",
            run.scenario, run.members, run.loss, run.seed
        )?;
        write!(f, "{} | {} | ", Load(*self), Millis(measured.suspected))?;
        write!(f, "{} | {} | ", Ended(measured.ended), Told(measured.told))?;
        write!(
            f,
            "{} | {} | {} | {} | {} | {} | {} |",
            measured.false_suspicions,
            measured.false_deaths,
            measured.carried,
            measured.refutations,
            measured.wrong,
            measured.suspects,
            Millis(measured.healed)
        )
    }
}
