//! Scripts: the nodes of a cluster, and what happens in it.

ghost use Rattle.std.specs.Prelude.{◌≡◌, ◌≢◌, ◌↔◌, ◌<◌, ◌≤◌, [], List, length, None, IfOk, IfErr, OnOk};
ghost use Rattle.swim_program.specs.Limits.{max_input_len};
ghost use Rattle.swim_program.specs.Lines.{input_lines};
ghost use Rattle.swim_program.specs.Report.{IsAmong};
ghost use Rattle.swim_script.specs.Refusals.{IsFirstWrongLine, IsOfReading};
ghost use Rattle.swim_script.specs.Script.{Script, Start, AreStarted};
ghost use Rattle.swim_script.specs.ScriptReading.{Adds, AreNumbered, TakesLine, IsOutOfPlace, RefusesNext, plan_events};

use crate::script_line::{Line, read_line};
use std::alloc::{AllocError, Global};
use swim_program::{MAX_INPUT_LEN, Place, Report, What, lines_of, without_return};
use swim_sync::Event;
use swim_table::Node;

/// What a script describes.
#[derive(Drop)]
pub struct Plan {
    /// The nodes, each with only its start claim.
    pub nodes: Vec<Node>,
    /// The events of the lines before `level`.
    pub events: Vec<Event>,
    /// The number of each event's line, counted from 1.
    pub lines: Vec<u64>,
    /// The number of the line `level`, if the script ends with it.
    pub level: Option<u64>,
}

impl Plan {
    fn new(alloc: Global) -> Plan
        ensures nodes { result.nodes.items ≡ [] }
        ensures events { result.events.items ≡ [] }
        ensures lines { result.lines.items ≡ [] }
        ensures level { result.level ≡ None }
    {
        Plan {
            nodes: Vec::new(alloc),
            events: Vec::new(alloc),
            lines: Vec::new(alloc),
            level: None,
        }
    }

    /// Adds the line with this number, unless it is empty.
    fn take_line(&mut self, alloc: Global, line: &[u8], number: u64) -> Result<(), What>
        ensures takes { OnOk result (TakesLine line.now number self.old self.new) }
        ensures refuses { IfErr result (λ what. what ≢ What.Memory
            → IsOutOfPlace line.now self.old) }
        ensures tells { IfErr result (λ what. what ≢ What.Memory
            → RefusesNext self.old line.now what) }
        ensures kind { IfErr result IsOfReading }
    {
        if line.is_empty() {
            return Ok(());
        }
        if self.level.is_some() {
            return Err(What::bad_script());
        }
        let nodes_may_come = self.events.is_empty();
        self.add(read_line(alloc, line, nodes_may_come)?, number)?;
        Ok(())
    }

    /// Adds what the line with this number says.
    fn add(&mut self, line: Line, number: u64) -> Result<(), AllocError>
        ensures { OnOk result (Adds number self.old line self.new) }
    {
        match line {
            Line::Node(node) => self.nodes.push(node)?,
            Line::Event(event) => {
                self.events.push(event)?;
                self.lines.push(number)?;
            }
            Line::Level => self.level = Some(number),
        }
        Ok(())
    }
}

/// The nodes and events that a script describes.
///
/// Lines end like those of packets, and empty ones are skipped. The lines of nodes come first, then
/// those of events; the last line may be `level`. A refusal names the first wrong line by its
/// number, counted from 1. An input of more than 268,435,456 bytes is refused as a whole
/// (InputTooLong).
pub fn read_script(alloc: Global, input: &[u8]) -> Result<Plan, Report>
    // The lines describe the nodes of the plan and its events, and each event comes with the line
    // that has its number.
    ensures reads { IfOk result (λ plan. (starts : List Start) × AreStarted plan.nodes.items starts
        × Script input.now starts
        (plan_events plan.events.items (length plan.nodes.items) plan.level)
        × AreNumbered (input_lines input.now) starts
        (plan_events plan.events.items (length plan.nodes.items) plan.level)
        plan.lines.items plan.level) }

    // There are no more nodes than an input can have lines, and there is a line number for each
    // event.
    ensures few { IfOk result (λ plan. length plan.nodes.items ≤ 268435457) }
    ensures lines { IfOk result (λ plan. length plan.lines.items ≡ length plan.events.items) }

    // If the input is refused, and not because of memory or its length, the report names the first
    // line with which it is not a script, and the fault of that line.
    ensures line { IfErr result
        (λ report. report.what ≢ What.Memory → length input.now ≤ max_input_len
        → IsFirstWrongLine input.now report.place report.what) }
    ensures long { (max_input_len < length input.now)
        ↔ (result ≡ Err (record { place = Place.Input; what = What.Refused 32 None })) }
    ensures kind { IfErr result (λ report. IsOfReading report.what) }
    ensures place { IfErr result (λ report. IsAmong report.place 0) }
{
    if input.len() > MAX_INPUT_LEN {
        return Err(What::input_too_long().at(Place::Input));
    }
    let mut plan = Plan::new(alloc);
    for (index, line) in lines_of(input).enumerate() {
        let number = index as u64 + 1;
        if let Err(what) = plan.take_line(alloc, without_return(line), number) {
            return Err(what.at(Place::Line(number)));
        }
    }
    Ok(plan)
}
