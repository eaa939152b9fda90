//! The versions that members speak and understand: of memberlist's protocol, and of the program's own,
//! which memberlist calls the delegate's.
//!
//! memberlist merges a table only if all that are alive understand each other (`verifyProtocol` in
//! memberlist.go). It compares members that are gone, too; here they are not (own).

ghost use Rattle.std.specs.Prelude.{◌≡◌};
ghost use Rattle.std.specs.Option.{option_copied};
ghost use Rattle.memberlist_member.specs.Versions.{are_compatible, are_understood, everything};
ghost use Rattle.memberlist_member.specs.Versions.{is_understood, is_within, understood_by};
ghost use Rattle.memberlist_member.specs.Versions.{understood_by_all, understood_by_both};
ghost use Rattle.memberlist_member.specs.Versions.{versions_shown, versions_told};

use memberlist_view::{Entry, State, View};
use swim_claim::Claim;

/// The versions that all of some members understand: from the greatest of their least ones to the
/// least of their greatest.
#[derive(Clone, Copy)]
pub(crate) struct Understood {
    least: u8,
    greatest: u8,
    own_least: u8,
    own_greatest: u8,
}

impl Understood {
    /// All versions, before anybody is asked.
    fn everything() -> Understood
        ensures { result ≡ everything }
    {
        Understood {
            least: 0,
            greatest: u8::MAX,
            own_least: 0,
            own_greatest: u8::MAX,
        }
    }

    /// Those that a member with these versions understands, too.
    fn by(self, versions: Option<&[u8]>) -> Understood
        ensures { result ≡ understood_by self (option_copied versions.entry) }
    {
        let Some(&[least, greatest, _, own_least, own_greatest, _]) = versions else {
            return self;
        };
        Understood {
            least: self.least.max(least),
            greatest: self.greatest.min(greatest),
            own_least: self.own_least.max(own_least),
            own_greatest: self.own_greatest.min(own_greatest),
        }
    }

    /// Whether what a member with these versions speaks is among them.
    fn has(self, versions: Option<&[u8]>) -> bool
        ensures { result ≡ is_understood self (option_copied versions.entry) }
    {
        match versions {
            None => true,
            Some(&[_, _, protocol, _, _, own]) => self.is_within(protocol, own),
            Some(_) => self.is_within(0, 0),
        }
    }

    fn is_within(self, protocol: u8, own: u8) -> bool
        ensures { result ≡ is_within self protocol own }
    {
        self.least <= protocol
            && protocol <= self.greatest
            && (self.own_least <= own && own <= self.own_greatest)
    }
}

/// Whether all that are alive in the view, or in the records of a table, understand each other.
pub(crate) fn are_compatible(view: &View, records: &[Claim]) -> bool
    ensures { result ≡ are_compatible view.now records.now }
{
    let understood = understood_by_records(understood_by_view(view), records);
    are_shown_understood(understood, view) && are_told_understood(understood, records)
}

/// What all understand that the view shows alive.
fn understood_by_view(view: &View) -> Understood
    ensures { result ≡ understood_by_all (λ shown. versions_shown shown.1) everything view.now.entries }
{
    let mut understood = Understood::everything();
    for shown in view.iter() {
        understood = understood.by(versions_shown(shown.1));
    }
    understood
}

/// What those understand, too, that the records say are alive.
fn understood_by_records(understood: Understood, records: &[Claim]) -> Understood
    ensures { result ≡ understood_by_all versions_told understood records.now }
{
    let mut all = understood;
    for told in records {
        all = all.by(versions_told(told));
    }
    all
}

/// Whether each one that the view shows alive is understood.
fn are_shown_understood(understood: Understood, view: &View) -> bool
    ensures { result ≡ are_understood (λ shown. versions_shown shown.1) understood view.now.entries }
{
    for shown in view.iter() {
        if !understood.has(versions_shown(shown.1)) {
            return false;
        }
    }
    true
}

/// Whether each one is that the records say is alive.
fn are_told_understood(understood: Understood, records: &[Claim]) -> bool
    ensures { result ≡ are_understood versions_told understood records.now }
{
    for told in records {
        if !understood.has(versions_told(told)) {
            return false;
        }
    }
    true
}

/// The versions of a member that is shown alive, if it has any.
fn versions_shown(entry: &Entry) -> Option<&[u8]>
    ensures { option_copied result ≡ versions_shown entry.now }
{
    match (&entry.state, &entry.details) {
        (State::Alive, Some(details)) => Some(details.vsn()),
        _ => None,
    }
}

/// Those of a member that a record says is alive.
fn versions_told(told: &Claim) -> Option<&[u8]>
    ensures { option_copied result ≡ versions_told told.now }
{
    match told {
        Claim::Alive { details, .. } => Some(details.vsn()),
        Claim::Suspect { .. } | Claim::Confirm { .. } | Claim::Leave { .. } => None,
    }
}
