//! What changed between two rosters, with a line for each name.

ghost use Rattle.std.specs.Prelude.{◌≡◌, ◌↔◌, ◌||◌, not, ℕ, List, Some, is_some, IfOk, OnOk};
ghost use Rattle.std.specs.Prelude.{IsTrue};
ghost use Rattle.std.specs.BTreeMap.{get};
ghost use Rattle.std.specs.Option.{option_copied};
ghost use Rattle.memberlist_view.specs.Rules.{name_cmp};
ghost use Rattle.swimwatch.specs.Rosters.{differ_about, differs, is_new, is_other_now, said_of};

use crate::text::json::Object;
use crate::text::names::write_name;
use crate::text::tags::{Tag, is_bare, is_same_meta, tags_of};
use crate::text::texts::{address_text, name_text, write_place_and_meta};
use crate::text::written::Text;
use crate::view::directory::copy_of;
use crate::view::known::Known;
use crate::view::roster::Roster;
use memberlist_view::MemberName;
use std::alloc::{AllocError, Global};
use std::collections::BTreeMap;

/// The names about which two rosters differ.
pub(crate) fn changed(
    alloc: Global,
    before: &Roster,
    after: &Roster,
) -> Result<BTreeMap<MemberName, ()>, AllocError>
    ensures { IfOk result (λ names. (name : List ℕ)
        → is_some (get name_cmp names name) ≡ differ_about before.now after.now name) }
{
    let mut names = BTreeMap::new(alloc);
    note_changed(alloc, &mut names, before, after)?;
    note_new(alloc, &mut names, before, after)?;
    Ok(names)
}

/// Notes the names in the first roster about which the two differ.
fn note_changed(
    alloc: Global,
    names: &mut BTreeMap<MemberName, ()>,
    before: &Roster,
    after: &Roster,
) -> Result<(), AllocError>
    ensures { OnOk result ((name : List ℕ) → is_some (get name_cmp names.new name)
        ≡ (is_some (get name_cmp names.old name)
        || is_other_now (said_of before.now name) (said_of after.now name))) }
{
    for (name, known) in before.iter() {
        if !is_still_so(known, after.get(name)) {
            names.insert(copy_of(alloc, name)?, ())?;
        }
    }
    Ok(())
}

/// Notes the names in the second roster that are not in the first.
fn note_new(
    alloc: Global,
    names: &mut BTreeMap<MemberName, ()>,
    before: &Roster,
    after: &Roster,
) -> Result<(), AllocError>
    ensures { OnOk result ((name : List ℕ) → is_some (get name_cmp names.new name)
        ≡ (is_some (get name_cmp names.old name)
        || is_new (said_of before.now name) (said_of after.now name))) }
{
    for (name, _) in after.iter() {
        if before.get(name).is_none() {
            names.insert(copy_of(alloc, name)?, ())?;
        }
    }
    Ok(())
}

/// Whether what was said is still said.
fn is_still_so(was: &Known, now: Option<&Known>) -> bool
    ensures { result ≡ not (differs (Some was.now) (option_copied now.entry)) }
{
    match now {
        Some(now) => now.is_same(was),
        None => false,
    }
}

/// Adds what changed, with a line for each name, such as `web-5 alive 10.20.1.15:7946 -> alive
/// 10.20.1.5:7946, tags ver=v2 -> v1`. Returns whether something did.
pub(crate) fn write_changes(
    text: &mut Text,
    before: &Roster,
    after: &Roster,
) -> Result<bool, AllocError>
    ensures { IfOk result (λ differ. IsTrue differ
        ↔ ((name : List ℕ) × IsTrue (differ_about before.now after.now name))) }
{
    let names = changed(text.alloc(), before, after)?;
    for (name, ()) in names.iter() {
        write_name(text, name.name().bytes());
        match (before.get(name), after.get(name)) {
            (Some(was), Some(is)) => write_both(text, was, is),
            (was, is) => {
                write_side(text, was);
                text.push_str(" ->");
                write_side(text, is);
            }
        }
        text.push('\n');
    }
    Ok(!names.is_empty())
}

/// Adds the same as JSON objects, one per line.
pub(crate) fn write_change_objects(
    text: &mut Text,
    before: &Roster,
    after: &Roster,
) -> Result<bool, AllocError>
    ensures { IfOk result (λ differ. IsTrue differ
        ↔ ((name : List ℕ) × IsTrue (differ_about before.now after.now name))) }
{
    let alloc = text.alloc();
    let names = changed(alloc, before, after)?;
    for (name, ()) in names.iter() {
        write_step_object(
            text,
            Object::new(alloc),
            name,
            before.get(name),
            after.get(name),
        );
    }
    Ok(!names.is_empty())
}

fn object_of(alloc: Global, known: Option<&Known>) -> Option<Object> {
    let mut object = Object::new(alloc);
    known?.write(&mut object);
    Some(object)
}

/// Adds a member's state and address, or that it is absent: ` alive 10.20.1.15:7946`.
fn write_side(text: &mut Text, known: Option<&Known>) {
    let Some(known) = known else {
        return text.push_str(" absent");
    };
    write!(text, " {}", known.state());
    if let Some(details) = &known.details {
        text.push(' ');
        text.add(address_text(text.alloc(), details));
    }
}

/// Adds a member's state and address before and after, and what else changed.
fn write_both(text: &mut Text, was: &Known, is: &Known) {
    write_side(text, Some(was));
    if was.state() != is.state() || was.is_elsewhere(is) {
        text.push_str(" ->");
        write_side(text, Some(is));
    }
    if was.inc != is.inc {
        write!(text, ", incarnation {} -> {}", was.inc, is.inc);
    }
    write_details(text, was, is)
}

/// Adds what changed for a name from one answer of a member to its next: `f3 alive -> suspect 1`,
/// `f3 absent -> alive 1 at 10.20.1.13:7946`, `f3 alive, incarnation 1 -> 2`.
pub(crate) fn write_step(
    text: &mut Text,
    name: &MemberName,
    was: Option<&Known>,
    is: Option<&Known>,
) {
    write_name(text, name.name().bytes());
    match (was, is) {
        (Some(was), Some(is)) => write_both_steps(text, was, is),
        (Some(was), None) => write!(text, " {} -> absent", was.state()),
        (None, Some(is)) => {
            write!(text, " absent -> {} {}", is.state(), is.inc);
            match &is.details {
                Some(details) => write_place_and_meta(text, details),
                None => {}
            }
        }
        (None, None) => text.push_str(" absent"),
    }
}

fn write_both_steps(text: &mut Text, was: &Known, is: &Known) {
    if was.state() != is.state() {
        write!(text, " {} -> {} {}", was.state(), is.state(), is.inc);
    } else if was.inc != is.inc {
        write!(
            text,
            " {}, incarnation {} -> {}",
            is.state(),
            was.inc,
            is.inc
        );
    } else {
        write!(text, " {} {}", is.state(), is.inc);
    }
    if was.is_elsewhere(is) {
        text.push_str(", address ");
        text.add(was.address(text.alloc()));
        text.push_str(" -> ");
        text.add(is.address(text.alloc()));
    }
    write_details(text, was, is)
}

/// Adds the same to an object of JSON, and the object as a line.
pub(crate) fn write_step_object(
    text: &mut Text,
    object: Object,
    name: &MemberName,
    was: Option<&Known>,
    is: Option<&Known>,
) {
    let alloc = text.alloc();
    let mut object = object;
    object.text("name", name_text(alloc, name));
    object.object("before", object_of(alloc, was));
    object.object("after", object_of(alloc, is));
    object.write(text)
}

/// Adds what changed in the metadata and the versions.
fn write_details(text: &mut Text, was: &Known, is: &Known) {
    if was.details.is_none() || is.details.is_none() {
        return;
    }
    write_metas(text, was.meta(), is.meta());
    if was.vsn() == is.vsn() {
        return;
    }
    text.push_str(", versions ");
    write_hex(text, was.vsn());
    text.push_str(" -> ");
    write_hex(text, is.vsn())
}

/// Adds what changed in the tags, or in other metadata.
fn write_metas(text: &mut Text, was: &[u8], is: &[u8]) {
    if is_same_meta(was, is) {
        return;
    }
    let alloc = text.alloc();
    let (old, new) = (tags_or_none(alloc, was), tags_or_none(alloc, is));
    if let (Some(Some(old)), Some(Some(new))) = (text.made(old), text.made(new)) {
        return write_tags(text, &old, &new);
    }
    text.push_str(", metadata ");
    write_hex(text, was);
    text.push_str(" -> ");
    write_hex(text, is)
}

/// The tags in metadata, which may be empty. None if the metadata is something else.
fn tags_or_none(alloc: Global, meta: &[u8]) -> Result<Option<Vec<Tag>>, AllocError> {
    if is_bare(meta) {
        return Ok(Some(Vec::new(alloc)));
    }
    tags_of(alloc, meta)
}

/// Adds the tags that changed, are gone, or are new, in the order of their keys: `, tags -rack=3,
/// ver=v2 -> v1, +zone=a`.
fn write_tags(text: &mut Text, was: &[Tag], is: &[Tag]) {
    let Some(keys) = text.made(keys_of(text.alloc(), was, is)) else {
        return;
    };
    let mut is_first = true;
    for (key, ()) in keys.iter() {
        let (old, new) = (value_of(was, key), value_of(is, key));
        if old != new {
            text.push_str(if is_first { ", tags " } else { ", " });
            is_first = false;
            write_tag(text, key, old, new);
        }
    }
}

/// The keys of two members' tags, in order.
fn keys_of<'a>(
    alloc: Global,
    was: &[Tag<'a>],
    is: &[Tag<'a>],
) -> Result<BTreeMap<&'a [u8], ()>, AllocError> {
    let mut keys = BTreeMap::new(alloc);
    for tag in was.iter().chain(is.iter()) {
        keys.insert(tag.key, ())?;
    }
    Ok(keys)
}

/// Adds the values of a key before and after: `ver=v2 -> v1`, `-rack=3` or `+zone=a`.
fn write_tag(text: &mut Text, key: &[u8], old: Option<&[u8]>, new: Option<&[u8]>) {
    match (old, new) {
        (Some(value), Some(now)) => {
            Tag { key, value }.write(text);
            text.push_str(" -> ");
            Tag { key, value: now }.write_value(text)
        }
        (Some(value), None) => {
            text.push('-');
            Tag { key, value }.write(text)
        }
        (None, Some(value)) => {
            text.push('+');
            Tag { key, value }.write(text)
        }
        (None, None) => {}
    }
}

/// The value that these tags have for a key.
fn value_of<'a>(tags: &[Tag<'a>], key: &[u8]) -> Option<&'a [u8]> {
    let found = tags.iter().find(|tag| tag.key == key)?;
    Some(found.value)
}

/// Adds bytes in hexadecimal, or `none`.
fn write_hex(text: &mut Text, bytes: &[u8]) {
    if bytes.is_empty() {
        return text.push_str("none");
    }
    text.add(hex::encode(text.alloc(), bytes));
}
