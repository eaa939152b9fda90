//! A node, and the names in it that changed.

ghost use Rattle.std.specs.Prelude.{◌≡◌, ◌≢◌, ◌+◌, ◌≤◌, ◌++◌, ◌∷◌, ◌↔◌, [], ℕ, List, length, Some, None, Ok, Err};
ghost use Rattle.std.specs.Prelude.{IsSome, IfSome, IfOk, OnOk, OnErr, MatchBool};
ghost use Rattle.swim_claim.specs.declared.claim.Claim.{Claim};
ghost use Rattle.swim_wire.specs.PacketList.{claims_in};
ghost use Rattle.swim_table.specs.Join.{Join};
ghost use Rattle.swim_table.specs.News.{AreChanges};
ghost use Rattle.swim_table.specs.Node.{SameMember};
ghost use Rattle.swim_table.specs.declared.fault.RefuteFault.TheVariants as fault;
ghost use Rattle.swim_table.specs.Refuting.{IsAtRest, IsDueInRange, IsExhausted, IsGone, IsRefutedBy};
ghost use Rattle.swim_table.specs.Table.{get, TableOf, IsLegalTable};
ghost use Rattle.swim_c.specs.Taking.{TakesClaims};
ghost use Rattle.swim_c.specs.Watching.{AddsNames, HasRoomFor, NotesChanges, TellsChange, start};

use crate::claims::table_of_one;
use std::alloc::{AllocError, Global};
use swim_claim::Claim;
use swim_table::{Node, RefuteFault, Room, Table, Taken, has_news, news_of};
use swim_wire::Datagram;

/// A node, and the names whose entries changed since they were last read.
#[derive(Drop)]
pub struct Watched {
    pub node: Node,
    /// The names, as a table of which only the names count. None if names are not noted.
    pub changes: Option<Table>,
}

/// Names whose entries change, and the memory to note them.
#[derive(Drop)]
pub struct Names {
    /// The names, as a table of which only the names count.
    pub names: Table,
    pub room: Room,
}

/// What a join changes.
#[derive(Drop)]
pub struct News {
    /// Whether it changes the table.
    pub any: bool,
    /// The names whose entries it adds or changes. None if names are not noted.
    pub names: Option<Names>,
}

impl Watched {
    /// The node, without noting names.
    pub fn new(node: Node) -> Watched
        ensures { result ≡ record { node = node; changes = None } }
    {
        Watched {
            node,
            changes: None,
        }
    }

    /// Starts to note names, with none noted yet, or stops and drops them. It takes no memory.
    pub fn watch(&mut self, alloc: Global, on: bool)
        ensures node { self.new.node ≡ self.old.node }
        ensures changes { self.new.changes ≡ start on }
    {
        self.changes = if on { Some(Table::new(alloc)) } else { None };
    }

    /// Takes in all claims of a datagram, or none, and notes the names that change. Returns whether
    /// one did.
    ///
    /// # Errors
    ///
    /// If out of memory. The datagram is dropped, and nothing changes.
    pub fn take_datagram(&mut self, alloc: Global, datagram: Datagram) -> Result<bool, AllocError>
        ensures takes { OnOk result
            (TakesClaims (claims_in datagram) self.old.node.table self.new.node.table) }
        ensures member { SameMember self.old.node self.new.node }
        ensures news { IfOk result
            (λ news. TellsChange news self.old.node.table self.new.node.table) }
        ensures noted { OnOk result (NotesChanges self.old.changes self.new.changes
            self.old.node.table self.new.node.table) }
        ensures err { OnErr result (self.new ≡ self.old) }
    {
        if self.changes.is_some() {
            return self.join_datagram(alloc, datagram);
        }
        match datagram {
            Datagram::Packet(packet) => take_unnoted(&mut self.node, packet.into_claim()),
            compound => self.join_datagram(alloc, compound),
        }
    }

    /// Takes in all claims of a datagram by joining a table of them.
    fn join_datagram(&mut self, alloc: Global, datagram: Datagram) -> Result<bool, AllocError>
        ensures takes { OnOk result
            (TakesClaims (claims_in datagram) self.old.node.table self.new.node.table) }
        ensures member { SameMember self.old.node self.new.node }
        ensures news { IfOk result
            (λ news. TellsChange news self.old.node.table self.new.node.table) }
        ensures noted { OnOk result (NotesChanges self.old.changes self.new.changes
            self.old.node.table self.new.node.table) }
        ensures err { OnErr result (self.new ≡ self.old) }
    {
        let mut other = Table::new(alloc);
        other.take_datagram(datagram)?;
        self.join(alloc, other)
    }

    /// Joins a table into the node's, and notes the names that change. Returns whether one did.
    ///
    /// # Errors
    ///
    /// If out of memory. The other table is dropped, and nothing changes.
    pub fn join(&mut self, alloc: Global, other: Table) -> Result<bool, AllocError>
        ensures joined { OnOk result ((claims others : List Claim)
            → TableOf self.old.node.table claims → TableOf other others
            → TableOf self.new.node.table (claims ++ others)) }
        ensures legal { IsLegalTable self.old.node.table }
        ensures member { SameMember self.old.node self.new.node }
        ensures news { IfOk result
            (λ news. TellsChange news self.old.node.table self.new.node.table) }
        ensures noted { OnOk result (NotesChanges self.old.changes self.new.changes
            self.old.node.table self.new.node.table) }
        ensures err { OnErr result (self.new ≡ self.old) }
    {
        // opens the invariant: the table is legal
        let _ = self.node.table();
        match &mut self.changes {
            Some(noted) => join_noted(alloc, &mut self.node, noted, other),
            None => join_unnoted(&mut self.node, other),
        }
    }

    /// Joins in a table that has these news. The room must suffice for the entries of both, and no
    /// memory is taken. Returns whether the table changed.
    pub fn join_in(&mut self, room: Room, other: Table, news: News) -> bool
        requires room { length self.old.node.table + length other ≤ room }
        requires any { TellsChange news.any self.old.node.table
            (Join self.old.node.table other) }
        requires names { IfSome news.names (λ new. AreChanges self.old.node.table
            (Join self.old.node.table other) new.names) }
        requires noting { HasRoomFor self.old.changes news.names }
        ensures joined { (claims others : List Claim) → TableOf self.old.node.table claims
            → TableOf other others → TableOf self.new.node.table (claims ++ others) }
        ensures member { SameMember self.old.node self.new.node }
        ensures news { TellsChange result self.old.node.table self.new.node.table }
        ensures noted { NotesChanges self.old.changes self.new.changes
            self.old.node.table self.new.node.table }
    {
        // opens the invariants: the tables are legal
        let _ = self.node.table();
        let _ = other.len();
        let News { any, names } = news;
        self.node.join_in(room, other);
        self.note(names);
        any
    }

    /// Refutes what others say about the member, as [`Node::refute`] does, and notes its name if an
    /// Alive was taken in.
    ///
    /// # Errors
    ///
    /// Those of [`Node::refute`]. Then nothing changes.
    pub fn refute(&mut self, alloc: Global) -> Result<Option<u32>, RefuteFault>
        ensures refuted { IfOk result
            (λ answer. IfSome answer (IsRefutedBy self.old.node self.new.node)) }
        ensures rest { (result ≡ Ok None)
            → IsAtRest self.old.node × (self.new.node ≡ self.old.node) }
        ensures exhausted { (result ≡ Err fault.Exhausted) → IsExhausted self.old.node }
        ensures gone { (inc : ℕ) → result ≡ Err (fault.Gone inc) → IsGone self.old.node inc }
        ensures memory { (result ≡ Err fault.Memory) → IsDueInRange self.old.node }
        ensures member { SameMember self.old.node self.new.node }
        ensures noted { OnOk result (NotesChanges self.old.changes self.new.changes
            self.old.node.table self.new.node.table) }
        ensures err { OnErr result (self.new ≡ self.old) }
    {
        if self.changes.is_none() || !self.node.can_refute() {
            return self.node.refute();
        }
        // opens the invariant: the table is legal
        let _ = self.node.table();
        let own = self.own_name(alloc)?;
        let answer = self.node.refute()?;
        self.note(own);
        Ok(answer)
    }

    /// The member's own name, to be noted. None if names are not noted.
    fn own_name(&self, alloc: Global) -> Result<Option<Names>, AllocError>
        ensures names { IfOk result (λ own. IfSome own (λ new. (name : List ℕ)
            → IsSome (get new.names name) ↔ (name ≡ self.now.node.name))) }
        ensures room { IfOk result (HasRoomFor self.now.changes) }
    {
        let name = self.node.name().try_clone(alloc)?;
        let names = table_of_one(alloc, Claim::Suspect { name, inc: 0 })?;
        self.with_room(alloc, names)
    }

    /// What joining the table in changes. No name is copied if names are not noted.
    ///
    /// # Errors
    ///
    /// If out of memory for the names.
    pub fn news(&self, alloc: Global, other: &Table) -> Result<News, AllocError>
        ensures any { IfOk result (λ news. TellsChange news.any self.now.node.table
            (Join self.now.node.table other.now)) }
        ensures names { IfOk result (λ news. IfSome news.names (λ new.
            AreChanges self.now.node.table (Join self.now.node.table other.now) new.names)) }
        ensures room { IfOk result (λ news. HasRoomFor self.now.changes news.names) }
    {
        if self.changes.is_none() {
            let any = has_news(self.node.table(), other);
            return Ok(News { any, names: None });
        }
        let names = news_of(alloc, self.node.table(), other)?;
        let any = !names.is_empty();
        let names = self.with_room(alloc, names)?;
        Ok(News { any, names })
    }

    /// The names, with the memory to note them. None if names are not noted.
    fn with_room(&self, alloc: Global, names: Table) -> Result<Option<Names>, AllocError>
        ensures names { IfOk result (λ named. IfSome named (λ new. new.names ≡ names)) }
        ensures room { IfOk result (HasRoomFor self.now.changes) }
    {
        match &self.changes {
            Some(noted) => {
                let room = Room::new(alloc, noted.len() + names.len())?;
                Ok(Some(Names { names, room }))
            }
            None => Ok(None),
        }
    }

    /// Notes the names, if names are noted.
    fn note(&mut self, names: Option<Names>)
        requires { HasRoomFor self.old.changes names }
        ensures node { self.new.node ≡ self.old.node }
        ensures noted { AddsNames self.old.changes self.new.changes names }
    {
        self.changes = with_names(self.changes.take(), names);
    }
}

/// Adds names to those that are noted, if names are noted.
fn with_names(changes: Option<Table>, names: Option<Names>) -> Option<Table>
    requires { HasRoomFor changes names }
    ensures { AddsNames changes result names }
{
    match (changes, names) {
        (Some(mut noted), Some(Names { names, room })) => {
            // opens the invariants: the tables are legal
            let _ = (noted.len(), names.len());
            noted.join_in(room, names);
            Some(noted)
        }
        (Some(_), None) => unreachable!(),
        (None, _) => None,
    }
}

/// Joins a table into that of a node, and notes the names that change. Returns whether one did.
fn join_noted(
    alloc: Global,
    node: &mut Node,
    noted: &mut Table,
    other: Table,
) -> Result<bool, AllocError>
    ensures joined { OnOk result ((claims others : List Claim)
        → TableOf node.old.table claims → TableOf other others
        → TableOf node.new.table (claims ++ others)) }
    ensures member { SameMember node.old node.new }
    ensures news { IfOk result (λ news. TellsChange news node.old.table node.new.table) }
    ensures noted { OnOk result (NotesChanges (Some noted.old) (Some noted.new)
        node.old.table node.new.table) }
    ensures err { OnErr result ((node.new ≡ node.old) × (noted.new ≡ noted.old)) }
{
    let names = news_of(alloc, node.table(), &other)?;
    // opens the invariants: the tables are legal
    let _ = node.table();
    let _ = (noted.len(), names.len());
    let any = !names.is_empty();
    node.table_mut().join_noting(other, noted, names)?;
    Ok(any)
}

/// Joins a table into that of a node that does not note names. Returns whether anything changed.
fn join_unnoted(node: &mut Node, other: Table) -> Result<bool, AllocError>
    ensures joined { OnOk result ((claims others : List Claim)
        → TableOf node.old.table claims → TableOf other others
        → TableOf node.new.table (claims ++ others)) }
    ensures member { SameMember node.old node.new }
    ensures news { IfOk result (λ news. TellsChange news node.old.table node.new.table) }
    ensures err { OnErr result (node.new ≡ node.old) }
{
    let any = has_news(node.table(), &other);
    match node.table_mut().join(other) {
        Ok(()) => Ok(any),
        Err((_, error)) => Err(error),
    }
}

/// Takes a claim into a node that does not note names. Returns whether anything changed.
fn take_unnoted(node: &mut Node, claim: Claim) -> Result<bool, AllocError>
    ensures takes { OnOk result (TakesClaims (claim ∷ []) node.old.table node.new.table) }
    ensures member { SameMember node.old node.new }
    ensures news { IfOk result (λ news. TellsChange news node.old.table node.new.table) }
    ensures err { OnErr result (node.new ≡ node.old) }
{
    match node.take(claim) {
        Ok(Taken::Stood) => Ok(false),
        Ok(Taken::New | Taken::Raised) => Ok(true),
        Err((_, error)) => Err(error),
    }
}
