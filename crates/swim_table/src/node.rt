//! A member's own node: who it is, and its table.

ghost use Rattle.std.specs.Borrow.{sem};
ghost use Rattle.std.specs.Option.{option_and_then};
ghost use Rattle.std.specs.Prelude.{◌≡◌, ◌≢◌, ◌↔◌, ◌+◌, ◌≤◌, ◌++◌, ◌∷◌, [], ℕ, List, length, IsTrue, MatchBool, Some};
ghost use Rattle.std.specs.Prelude.{None, Ok, Err, IsSome, IsOk, IfSome, IfOk, IfErr, OnOk, OnErr};
ghost use Rattle.swim_claim.specs.declared.claim.Claim.{Claim};
ghost use Rattle.swim_claim.specs.declared.claim.Claim.TheVariants.{Alive};
ghost use Rattle.swim_claim.specs.Claim.{name_of, details_of};
ghost use Rattle.swim_claim.specs.Details.{IsLegalDetails};
ghost use Rattle.swim_claim.specs.Name.{IsLegalName};
ghost use Rattle.swim_table.specs.declared.fault.RefuteFault.TheVariants as fault;
ghost use Rattle.swim_table.specs.Join.{Join};
ghost use Rattle.swim_table.specs.Lending.{LendsTable};
ghost use Rattle.swim_table.specs.Node.{SameMember};
ghost use Rattle.swim_table.specs.Refuting.{IsAtRest, IsDueInRange, IsExhausted, IsGone, IsRefutedBy, IsWordOf};
ghost use Rattle.swim_table.specs.Table.{get, TableOf, Reduced, IsLegalTable, about_others};
ghost use Rattle.swim_wire.specs.Packet.{PacketValue};
ghost use Rattle.swim_wire.specs.PacketList.{claims_in};
ghost use Rattle.swim_wire.specs.declared.datagram.Datagram.TheVariants.{Packet};

use crate::entry::Entry;
use crate::fault::RefuteFault;
use crate::room::Room;
use crate::table::{Table, Taken};
use std::alloc::{AllocError, Global};
use std::marker::Model;
use std::mem;
use swim_claim::{Claim, Details, Kind, Name};
use swim_wire::Datagram;

/// A member: its name and details, and the table that it keeps.
#[derive(Drop)]
pub struct Node {
    alloc: Global,
    name: Name,
    details: Details,
    table: Table,
}

impl Model for Node {
    ghost use Rattle.swim_table.specs.Node.{NodeValue};

    ghost Value = { NodeValue };

    ghost view = { λ n. record { name = n.name; details = n.details; table = n.table } };
}

/// What the member's own table says about it.
enum Word {
    /// Nothing, or an Alive with the member's own details.
    Own,
    /// A Suspect, or an Alive with other details, at this incarnation.
    Disputed { inc: u32 },
    /// A Confirm or a Leave, at this incarnation.
    Gone { inc: u32 },
}

impl Node {
    /// The member with this name and these details. Its table holds only its start claim: its Alive
    /// at the incarnation `inc`, 0 to 4,294,967,295 (own). Whatever grows later takes memory from
    /// the same allocator.
    ///
    /// # Errors
    ///
    /// If out of memory for the start claim. The name and the details are dropped.
    pub fn new(alloc: Global, name: Name, details: Details, inc: u32) -> Result<Node, AllocError>
        ensures name { IfOk result (λ node. node.name ≡ name) }
        ensures details { IfOk result (λ node. node.details ≡ details) }
        ensures table { IfOk result (λ node. TableOf node.table (Alive name inc details ∷ [])) }
    {
        let start = alive(alloc, &name, &details, inc)?;
        let mut table = Table::new(alloc);
        match table.take(start) {
            Ok(_) => Ok(Node {
                alloc,
                name,
                details,
                table,
            }),
            Err((_, error)) => Err(error),
        }
    }

    /// The member's name.
    pub fn name(&self) -> &Name
        ensures name { result.now ≡ self.now.name }
        ensures legal { IsLegalName self.now.name }
    {
        // opens the invariant: the name is legal
        let _ = self.name.bytes();
        &self.name
    }

    /// What the member says about itself, except its name.
    pub fn details(&self) -> &Details
        ensures details { result.now ≡ self.now.details }
        ensures legal { IsLegalDetails self.now.details }
    {
        // opens the invariant: the details are legal
        let _ = self.details.meta();
        &self.details
    }

    /// Gives the member other details, and returns those that it had. Its table does not change: it
    /// still has the Alive with the old ones, which [`refute`](Node::refute) answers.
    pub fn replace_details(&mut self, details: Details) -> Details
        ensures new { self.new ≡ record self.old { details = details } }
        ensures old { result ≡ self.old.details }
    {
        mem::replace(&mut self.details, details)
    }

    /// What the member has heard, including its own claims.
    pub fn table(&self) -> &Table
        ensures table { result.now ≡ self.now.table }
        ensures legal { IsLegalTable self.now.table }
    {
        // opens the invariant: the table is legal
        let _ = self.table.len();
        &self.table
    }

    /// The member's table, for writing. The name and the details do not change.
    pub fn table_mut(&mut self) -> &mut Table
        ensures* writes_back { sem 𝓛 (LendsTable self.entry result) }
        ensures table { result.now ≡ self.old.table }
    {
        &mut self.table
    }

    /// Takes a claim into the member's table, and returns what changed. It takes no memory for a
    /// name that has an entry.
    ///
    /// # Errors
    ///
    /// If out of memory for the entry of a new name. The claim is returned, and the table is
    /// unchanged.
    pub fn take(&mut self, claim: Claim) -> Result<Taken, (Claim, AllocError)>
        ensures ok { OnOk result (TableOf self.new.table (Reduced self.old.table ++ claim ∷ [])) }
        ensures all { OnOk result ((claims : List Claim) → TableOf self.old.table claims
            → TableOf self.new.table (claims ++ claim ∷ [])) }

        ensures new { IfOk result (λ taken. (taken ≡ Taken.New)
            ↔ (get self.old.table (name_of claim) ≡ None)) }
        ensures raised { IfOk result (λ taken. (taken ≡ Taken.Raised)
            ↔ (IsSome (get self.old.table (name_of claim)) × (self.new.table ≢ self.old.table))) }
        ensures stood { IfOk result (λ taken. (taken ≡ Taken.Stood)
            ↔ (self.new.table ≡ self.old.table)) }

        ensures known { IsSome (get self.old.table (name_of claim)) → IsOk result }
        ensures refused { IfErr result (λ refused. refused.0 ≡ claim) }
        ensures err { OnErr result (self.new.table ≡ self.old.table) }

        ensures member { SameMember self.old self.new }
    {
        self.table.take(claim)
    }

    /// Takes all claims into the member's table, or none.
    ///
    /// # Errors
    ///
    /// If out of memory for the claims. They are dropped, and the table is unchanged.
    pub fn take_all(&mut self, claims: Vec<Claim>) -> Result<(), AllocError>
        ensures ok { OnOk result (TableOf self.new.table (Reduced self.old.table ++ claims.items)) }
        ensures all { OnOk result ((taken : List Claim) → TableOf self.old.table taken
            → TableOf self.new.table (taken ++ claims.items)) }

        ensures err { OnErr result (self.new.table ≡ self.old.table) }

        ensures member { SameMember self.old self.new }
    {
        self.table.take_all(claims)
    }

    /// Takes all claims of a datagram into the member's table, or none. It takes no memory for a
    /// single packet about a name that has an entry.
    ///
    /// # Errors
    ///
    /// If out of memory for the claims. The datagram is dropped, and the table is unchanged.
    pub fn take_datagram(&mut self, datagram: Datagram) -> Result<(), AllocError>
        ensures ok { OnOk result (TableOf self.new.table
            (Reduced self.old.table ++ claims_in datagram)) }
        ensures all { OnOk result ((claims : List Claim) → TableOf self.old.table claims
            → TableOf self.new.table (claims ++ claims_in datagram)) }

        ensures known { (packet : PacketValue) → datagram ≡ Packet packet
            → IsSome (get self.old.table (name_of packet.claim)) → IsOk result }
        ensures err { OnErr result (self.new.table ≡ self.old.table) }

        ensures member { SameMember self.old self.new }
    {
        self.table.take_datagram(datagram)
    }

    /// Joins another table into the member's own, which is then the table of all claims that either
    /// took in (own). The room must suffice for the entries of both, and no memory is taken.
    pub fn join_in(&mut self, room: Room, other: Table)
        requires { length self.old.table + length other ≤ room }
        ensures join { self.new.table ≡ Join self.old.table other }
        ensures all { (claims others : List Claim) → TableOf self.old.table claims
            → TableOf other others → TableOf self.new.table (claims ++ others) }

        ensures member { SameMember self.old self.new }
    {
        self.table.join_in(room, other);
    }

    /// Forgets a name, and returns whether the member's table had an entry for it. The table is
    /// then that of the claims taken in about other names. It takes no memory.
    ///
    /// If the name is the member's own, its own claims go too. Then no refutation is due until the
    /// table takes in a claim about the member again.
    pub fn forget(&mut self, name: &[u8]) -> bool
        ensures kept { TableOf self.new.table (about_others name.now (Reduced self.old.table)) }
        ensures all { (claims : List Claim) → TableOf self.old.table claims
            → TableOf self.new.table (about_others name.now claims) }

        ensures had { IsTrue result ↔ IsSome (get self.old.table name.now) }
        ensures absent { get self.old.table name.now ≡ None → self.new.table ≡ self.old.table }
        ensures fewer { length self.new.table ≤ length self.old.table }

        ensures member { SameMember self.old self.new }
    {
        self.table.forget(name)
    }

    /// Refutes what others say about the member (SWIM paper, section 4.2: a suspected member
    /// replies with an Alive at an incremented incarnation; the rest is own).
    ///
    /// This is due if the member's top is a Suspect, or an Alive with details other than its own.
    /// The table then takes in an Alive with the member's own details and the incarnation after the
    /// top's, which is returned. If nothing is due, the result is `None`, and nothing changes.
    ///
    /// # Errors
    ///
    /// The table is then unchanged.
    ///
    /// - `Gone` if the member's top is a Confirm or a Leave, with its incarnation.
    /// - `Exhausted` if a refutation is due, and the top's incarnation is 4,294,967,295.
    /// - `Memory` if a refutation is due, and memory runs out for its claim.
    pub fn refute(&mut self) -> Result<Option<u32>, RefuteFault>
        ensures refuted { IfOk result (λ answer. IfSome answer (IsRefutedBy self.old self.new)) }
        ensures range { IfOk result (λ answer. IfSome answer (λ inc. inc ≤ 4294967295)) }
        ensures rest { (result ≡ Ok None) → IsAtRest self.old × (self.new ≡ self.old) }
        ensures exhausted { (result ≡ Err fault.Exhausted) → IsExhausted self.old }
        ensures gone { (inc : ℕ) → result ≡ Err (fault.Gone inc) → IsGone self.old inc }
        ensures memory { (result ≡ Err fault.Memory) → IsDueInRange self.old }
        ensures err { OnErr result (self.new ≡ self.old) }

        ensures member { SameMember self.old self.new }
    {
        let inc = match self.word() {
            Word::Own => return Ok(None),
            Word::Gone { inc } => return Err(RefuteFault::Gone { inc }),
            Word::Disputed { inc } => inc,
        };
        let Some(next) = inc.checked_add(1) else {
            return Err(RefuteFault::Exhausted);
        };
        let refutation = alive(self.alloc, &self.name, &self.details, next)?;
        match self.table.take(refutation) {
            Ok(_) => Ok(Some(next)),
            Err(_) => unreachable!(),
        }
    }

    /// Whether [`refute`](Node::refute) would take an Alive in: a refutation is due, and there is
    /// an incarnation for it.
    pub fn can_refute(&self) -> bool
        ensures { MatchBool result (IsDueInRange self.now) (¬ IsDueInRange self.now) }
    {
        match self.word() {
            Word::Disputed { inc } => inc < u32::MAX,
            Word::Own => false,
            Word::Gone { inc: _ } => false,
        }
    }

    /// What the table says about the member.
    fn word(&self) -> Word
        ensures word { IsWordOf self.now result }
        ensures legal { IsLegalTable self.now.table }
    {
        let Some(entry) = self.table().get(self.name.bytes()) else {
            return Word::Own;
        };
        let inc = entry.inc();
        match entry.kind() {
            Kind::Suspect => Word::Disputed { inc },
            Kind::Confirm | Kind::Leave => Word::Gone { inc },
            Kind::Alive => {
                if has_home_of(entry, &self.details) {
                    Word::Own
                } else {
                    Word::Disputed { inc }
                }
            }
        }
    }
}

/// The Alive with copies of the name and the details.
fn alive(alloc: Global, name: &Name, details: &Details, inc: u32) -> Result<Claim, AllocError>
    ensures { IfOk result (λ claim. claim ≡ Alive name.now inc details.now) }
{
    Ok(Claim::Alive {
        name: name.try_clone(alloc)?,
        inc,
        details: details.try_clone(alloc)?,
    })
}

/// Whether the newest Alive of an entry has these details.
fn has_home_of(entry: &Entry, details: &Details) -> bool
    ensures { IsTrue result ↔ (option_and_then details_of entry.now.home ≡ Some details.now) }
{
    match entry.home_details() {
        Some(home) => *home == *details,
        None => false,
    }
}
