//! A line of a script: a node, an event, or the levelling of all nodes.

ghost use Rattle.std.specs.Prelude.{◌≡◌, ◌≢◌, ◌∷◌, ℕ, List, map, codes, IfOk, IfErr};
ghost use Rattle.swim_claim.specs.Details.{IsLegalDetails};
ghost use Rattle.swim_claim.specs.Name.{IsLegalName};
ghost use Rattle.swim_sync.specs.declared.event.Event.{Event};
ghost use Rattle.swim_program.specs.Report.{TellsDatagram};
ghost use Rattle.swim_script.specs.Refusals.{IsOfReading, NoNumber, RefusesNode, RefusesHear, RefusesEvent, RefusesWords};
ghost use Rattle.swim_script.specs.Script.{Start, IsStarted, NodeWords, EventWords, HearsBytes, NodeNumber, words};
ghost use Rattle.swim_script.specs.ScriptReading.{OneNumber, RefusesStart, SpellsLine, SpellsNode, SpellsNothing, TwoNumbers, word_of};

use crate::keyword::Keyword;
use crate::script_word::{bytes_of, name_of, number_of, split_words};
use std::alloc::Global;
use std::marker::Model;
use swim_claim::{Details, Name};
use swim_program::What;
use swim_sync::{Claims, Event};
use swim_table::Node;
use swim_wire::Datagram;

/// The greatest port.
const MAX_PORT: u64 = 65_535;

/// The greatest incarnation.
const MAX_INC: u64 = 4_294_967_295;

/// The greatest number of a node. The node need not exist.
const MAX_NODE: u64 = 18_446_744_073_709_551_615;

/// What a line of a script says.
#[derive(Drop)]
pub(crate) enum Line {
    /// There is this node. Its table has only its start claim.
    Node(Node),
    /// This happens.
    Event(Event),
    /// All nodes are levelled.
    Level,
}

/// Reads a line of a script that is not empty. It may be that of a node only if `nodes_may_come`.
///
/// # Errors
///
/// The first of these that holds: `BadScript` if no line begins with the first word, if a node
/// comes after a line of another kind, or if the number of words is wrong; in the fields, from left
/// to right, `BadScript` for a number and `BadHex` for bytes; then for a node `NameEmpty` or
/// `NameTooLong`, `BadAddress`, `MetaTooLong` and `BadVersions`, and for what a node hears the
/// fault of the packet.
pub(crate) fn read_line(alloc: Global, line: &[u8], nodes_may_come: bool) -> Result<Line, What>
    ensures reads { IfOk result (SpellsLine nodes_may_come (words line.now)) }
    ensures refuses { IfErr result (λ what. what ≢ What.Memory
        → SpellsNothing nodes_may_come (words line.now)) }
    ensures tells { IfErr result (λ what. what ≢ What.Memory
        → RefusesWords nodes_may_come (words line.now) what) }
    ensures kind { IfErr result IsOfReading }
{
    let words = split_words(alloc, line)?;
    let Some((first, fields)) = words.split_first() else {
        return Err(What::bad_script());
    };
    let Some(keyword) = Keyword::named(first) else {
        return Err(What::bad_script());
    };
    match keyword {
        Keyword::Node if nodes_may_come => Ok(Line::Node(read_node(alloc, fields)?)),
        Keyword::Level if fields.is_empty() => Ok(Line::Level),
        _ => Ok(Line::Event(read_event(alloc, keyword, fields)?)),
    }
}

/// What the words after `node` say. The name and the details may be invalid.
#[derive(Drop)]
struct NodeParts {
    name: Vec<u8>,
    addr: Vec<u8>,
    port: u16,
    meta: Vec<u8>,
    vsn: Vec<u8>,
    inc: u32,
}

impl Model for NodeParts {
    ghost use Rattle.swim_script.specs.Script.{Start};

    ghost Value = { Start };

    ghost view = { λ parts. record {
      name = parts.name.items;
      details = record {
        addr = parts.addr.items;
        port = parts.port;
        meta = parts.meta.items;
        vsn = parts.vsn.items;
      };
      inc = parts.inc;
    } };
}

impl NodeParts {
    /// Reads the words after `node`, from left to right.
    fn read(alloc: Global, fields: &[&[u8]]) -> Result<NodeParts, What>
        ensures reads { IfOk result (SpellsNode (map (λ word. word.now) fields.now)) }
        ensures tells { IfErr result (λ what. what ≢ What.Memory
            → RefusesNode (map (λ word. word.now) fields.now) what) }
    {
        let [name, addr, port, meta, vsn, inc] = fields else {
            return Err(What::bad_script());
        };
        let name = name_of(alloc, name)?;
        let addr = bytes_of(alloc, addr)?;
        let port = number_of(port, MAX_PORT)? as u16;
        let meta = bytes_of(alloc, meta)?;
        let vsn = bytes_of(alloc, vsn)?;
        let inc = number_of(inc, MAX_INC)? as u32;
        Ok(NodeParts {
            name,
            addr,
            port,
            meta,
            vsn,
            inc,
        })
    }

    /// The node with these parts, if its name and then its details are valid.
    fn into_node(self, alloc: Global) -> Result<Node, What>
        ensures reads { IfOk result (λ node. IsLegalName self.name × IsLegalDetails self.details
            × IsStarted node self) }
        ensures tells { IfErr result (λ what. what ≢ What.Memory → RefusesStart self what) }
    {
        let NodeParts {
            name,
            addr,
            port,
            meta,
            vsn,
            inc,
        } = self;
        let name = Name::new(name)?;
        let details = Details::new(addr, port, meta, vsn)?;
        Ok(Node::new(alloc, name, details, inc)?)
    }
}

/// The node that the words after `node` describe.
fn read_node(alloc: Global, fields: &[&[u8]]) -> Result<Node, What>
    ensures reads { IfOk result (λ node. (start : Start)
        × NodeWords (codes "node" ∷ map (λ word. word.now) fields.now) start
        × IsStarted node start) }
    ensures refuses { IfErr result (λ what. what ≢ What.Memory
        → (start : Start) → ¬ NodeWords (codes "node" ∷ map (λ word. word.now) fields.now) start) }
    ensures tells { IfErr result (λ what. what ≢ What.Memory
        → RefusesNode (map (λ word. word.now) fields.now) what) }
    ensures kind { IfErr result IsOfReading }
{
    NodeParts::read(alloc, fields)?.into_node(alloc)
}

/// The event that the words after the first one describe.
fn read_event(alloc: Global, keyword: Keyword, fields: &[&[u8]]) -> Result<Event, What>
    ensures reads { IfOk result (EventWords (word_of keyword ∷ map (λ word. word.now) fields.now)) }
    ensures refuses { IfErr result (λ what. what ≢ What.Memory → (event : Event)
        → ¬ EventWords (word_of keyword ∷ map (λ word. word.now) fields.now) event) }
    ensures tells { IfErr result (λ what. what ≢ What.Memory
        → RefusesEvent keyword (map (λ word. word.now) fields.now) what) }
    ensures kind { IfErr result IsOfReading }
{
    match keyword {
        Keyword::Hear => read_hear(alloc, fields),
        Keyword::Exchange => {
            let (first, second) = two_numbers(fields)?;
            Ok(Event::Exchange(first, second))
        }
        Keyword::Half => {
            let (first, second) = two_numbers(fields)?;
            Ok(Event::Half(first, second))
        }
        Keyword::Refute => Ok(Event::Refute(one_number(fields)?)),
        Keyword::Node | Keyword::Level => Err(What::bad_script()),
    }
}

/// What a node hears, from the words after `hear`.
fn read_hear(alloc: Global, fields: &[&[u8]]) -> Result<Event, What>
    ensures reads { IfOk result (EventWords (codes "hear" ∷ map (λ word. word.now) fields.now)) }
    ensures refuses { IfErr result (λ what. what ≢ What.Memory
        → (event : Event) → ¬ EventWords (codes "hear" ∷ map (λ word. word.now) fields.now) event) }
    ensures tells { IfErr result (λ what. what ≢ What.Memory
        → RefusesHear (map (λ word. word.now) fields.now) what) }
    ensures kind { IfErr result IsOfReading }
{
    let [node, datagram] = fields else {
        return Err(What::bad_script());
    };
    let node = node_number(node)?;
    let datagram = bytes_of(alloc, datagram)?;
    event_of_datagram(alloc, node, &datagram)
}

/// The event that a node hears the claim of a packet, or all claims of a compound packet.
fn event_of_datagram(alloc: Global, node: usize, datagram: &[u8]) -> Result<Event, What>
    ensures reads { IfOk result (HearsBytes node datagram.now) }
    ensures refuses { IfErr result (λ what. what ≢ What.Memory
        → (event : Event) → ¬ HearsBytes node datagram.now event) }
    ensures tells { IfErr result (λ what. what ≢ What.Memory
        → TellsDatagram datagram.now what) }
    ensures kind { IfErr result IsOfReading }
{
    match Datagram::decode(alloc, datagram)? {
        Datagram::Packet(packet) => Ok(Event::Hear(node, packet.into_claim())),
        compound => {
            let claims = compound.into_claims(alloc)?;
            Ok(Event::HearAll(node, Claims::new(claims)))
        }
    }
}

/// The numbers of two nodes. There are no other fields.
fn two_numbers(fields: &[&[u8]]) -> Result<(usize, usize), What>
    ensures reads { IfOk result (λ nodes.
        TwoNumbers (map (λ word. word.now) fields.now) nodes.0 nodes.1) }
    ensures refuses { IfErr result (λ what.
        (j k : ℕ) → ¬ TwoNumbers (map (λ word. word.now) fields.now) j k) }
    ensures fault { IfErr result (λ what. what ≡ What.Refused 31 None) }
{
    let [first, second] = fields else {
        return Err(What::bad_script());
    };
    Ok((node_number(first)?, node_number(second)?))
}

/// The number of one node. There are no other fields.
fn one_number(fields: &[&[u8]]) -> Result<usize, What>
    ensures reads { IfOk result (OneNumber (map (λ word. word.now) fields.now)) }
    ensures refuses { IfErr result (λ what.
        (k : ℕ) → ¬ OneNumber (map (λ word. word.now) fields.now) k) }
    ensures fault { IfErr result (λ what. what ≡ What.Refused 31 None) }
{
    let [node] = fields else {
        return Err(What::bad_script());
    };
    node_number(node)
}

/// The number of a node. The node need not exist.
fn node_number(word: &[u8]) -> Result<usize, What>
    ensures reads { IfOk result (NodeNumber word.now) }
    ensures tells { IfErr result (NoNumber 18446744073709551615 word.now) }
{
    Ok(number_of(word, MAX_NODE)? as usize)
}
