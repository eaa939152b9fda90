//! Replaying scripts: what the nodes of a cluster list after all events.

ghost use Rattle.std.specs.Prelude.{◌≡◌, ◌≢◌, ◌↔◌, ◌<◌, ◌≤◌, ◌++◌, [], List, length, map, Some, None, IfOk, IfErr, OnOk};
ghost use Rattle.swim_program.specs.Limits.{max_input_len};
ghost use Rattle.swim_sync.specs.declared.event.Event.{Event};
ghost use Rattle.swim_sync.specs.Cluster.{Ran};
ghost use Rattle.swim_sync.specs.Levels.{level_list};
ghost use Rattle.swimtab.specs.Replay.{IsOfEvent, RefusedEvent, Replays, StopsSo, node_line, shown_from};
ghost use Rattle.swim_program.specs.Report.{IsAmong};
ghost use Rattle.swim_script.specs.Refusals.{IsFirstWrongLine};
ghost use Rattle.swim_script.specs.Script.{Script, Start};
ghost use Rattle.swim_script.specs.ScriptReading.{plan_events};

use crate::fault::what_of_why;
use itoa::Buffer;
use std::alloc::{AllocError, Global};
use swim_program::{Place, Report, What};
use swim_script::{Plan, read_script};
use swim_sync::Cluster;
use swim_table::list;

/// What the nodes of a script list at its end: for each node, from 0, the line `node K` and its
/// listing.
///
/// The whole script is read first: the first line that cannot be read is reported by its number,
/// from 1, and an input of more than 268,435,456 bytes as a whole (InputTooLong). Then all its
/// events happen in turn. An event that cannot happen is reported by its line, and one of the
/// levelling by the line `level`: NoSuchNode, SameNode or TooManyRecords.
pub fn script(alloc: Global, input: &[u8]) -> Result<Vec<u8>, Report>
    // The input is a script, and the text shows what its nodes have heard.
    ensures replays { IfOk result (λ text. Replays input.now text.items) }

    // If refused for the fault of an event, the input is a script, and its first such event is on
    // the reported line. Otherwise the input is not a script, because of the fault on the reported
    // line.
    ensures events { IfErr result (λ report. IsOfEvent report.what
        → RefusedEvent input.now report) }
    ensures refuses { IfErr result (λ report. report.what ≢ What.Memory
        → length input.now ≤ max_input_len → ¬ IsOfEvent report.what
        → (starts : List Start) → (events : List Event) → ¬ Script input.now starts events) }
    ensures line { IfErr result
        (λ report. report.what ≢ What.Memory → length input.now ≤ max_input_len
        → ¬ IsOfEvent report.what → IsFirstWrongLine input.now report.place report.what) }
    ensures long { (max_input_len < length input.now)
        ↔ (result ≡ Err (record { place = Place.Input; what = What.Refused 32 None })) }
    ensures no_device { IfErr result (λ report. report.what ≢ What.Device) }
    ensures place { IfErr result (λ report. IsAmong report.place 0) }
{
    let plan = read_script(alloc, input)?;
    let cluster = played(alloc, plan)?;
    match list_nodes(alloc, &cluster) {
        Ok(text) => Ok(text),
        Err(AllocError) => Err(What::Memory.at(Place::Output)),
    }
}

/// The cluster of a plan, after all its events.
fn played(alloc: Global, plan: Plan) -> Result<Cluster, Report>
    requires lines { length plan.lines.items ≡ length plan.events.items }
    requires few { length plan.nodes.items ≤ 268435457 }
    ensures runs { IfOk result (λ cluster. Ran plan.nodes.items cluster
        (plan_events plan.events.items (length plan.nodes.items) plan.level)) }
    ensures stops { IfErr result (λ report. StopsSo plan.nodes.items
        (plan_events plan.events.items (length plan.nodes.items) plan.level)
        plan.lines.items plan.level report) }
    ensures place { IfErr result (λ report. IsAmong report.place 0) }
{
    let Plan {
        nodes,
        events,
        lines,
        level,
    } = plan;
    let mut cluster = Cluster::new(alloc, nodes);
    if let Err(stop) = cluster.run(&events) {
        return Err(what_of_why(stop.why).at(Place::Line(lines[stop.done])));
    }
    match level {
        Some(line) => levelled(cluster, line),
        None => Ok(cluster),
    }
}

/// The cluster after the levelling on this line.
fn levelled(mut cluster: Cluster, line: u64) -> Result<Cluster, Report>
    requires { length cluster ≤ 2147483648 }
    ensures runs { IfOk result (λ new. Ran cluster new (level_list (length cluster))) }
    ensures stops { IfErr result (λ report.
        StopsSo cluster (level_list (length cluster)) [] (Some line) report) }
    ensures place { IfErr result (λ report. IsAmong report.place 0) }
{
    match cluster.level() {
        Ok(()) => Ok(cluster),
        Err(stop) => Err(what_of_why(stop.why).at(Place::Line(line))),
    }
}

/// For each node the line `node K` and its listing.
fn list_nodes(alloc: Global, cluster: &Cluster) -> Result<Vec<u8>, AllocError>
    ensures { IfOk result (λ text.
        text.items ≡ shown_from 0 (map (λ node. node.table) cluster.now)) }
{
    let mut text = Vec::new(alloc);
    for k in 0..cluster.len() {
        let Some(node) = cluster.node(k) else {
            unreachable!();
        };
        write_node_line(&mut text, k)?;
        text.extend_from_slice(&list(alloc, node.table())?)?;
    }
    Ok(text)
}

fn write_node_line(text: &mut Vec<u8>, k: usize) -> Result<(), AllocError>
    ensures { OnOk result (text.new.items ≡ text.old.items ++ node_line k) }
{
    text.extend_from_slice(b"node ")?;
    text.extend_from_slice(Buffer::new().format(k).as_bytes())?;
    text.push(b'\n')?;
    Ok(())
}
