//! The tags of a member, which its metadata carries.

ghost use Rattle.std.specs.Prelude.{◌≡◌, ◌<◌, ◌^◌, ◌++◌, ◌∷◌, [], codes, Ok, length, map, MatchResult, IfOk, OnOk};
ghost use Rattle.std.specs.List.{AllByRecursion, flat_map};
ghost use Rattle.serf_message.specs.Reading.{IsFault, alone};
ghost use Rattle.serf_message.specs.Many.{many_at};
ghost use Rattle.serf_message.specs.Tags.{tags_of, tags_at, tag_at, tag_value, tag_text, tags_bytes, IsShortTag};

use crate::fault::SerfFault;
use crate::many::{append, next_map_len, next_owned_text};
use crate::write::write_map_len;
use std::alloc::{AllocError, Global};
use swim_pack::write_raw;

/// The first byte of metadata that holds tags (Serf's `tagMagicByte`).
const TAGS: u8 = 255;

/// A tag of a member: its name and its value, which need not be text.
#[derive(Drop, Debug)]
pub struct Tag {
    /// The name of the tag.
    pub name: Vec<u8>,
    /// The value of the tag.
    pub value: Vec<u8>,
}

/// The tags in a member's metadata, as Serf decodes them (serf.go, `decodeTags`): byte 255, then a
/// map of texts. Other metadata is the value of one tag, `role`. The tags are in the order of the
/// map. A name that comes twice is given twice, and Serf keeps the last.
///
/// # Errors
///
/// The faults of the map, as its bytes are read: `NotMap` if it is no map, `NotRaw` if a name or a
/// value is no text, and `Ended` if the bytes end before the map does; `Trailing` if there are bytes
/// behind it. `Memory` comes if an allocation failed.
pub fn decode_tags(alloc: Global, metadata: &[u8]) -> Result<Vec<Tag>, SerfFault>
    ensures { MatchResult result (λ tags. tags_of metadata.now ≡ Ok (map tag_value tags.items))
        (IsFault (tags_of metadata.now)) }
{
    match metadata.split_first() {
        Some((first, body)) if *first == TAGS => tags_in_map(alloc, body),
        _ => Ok(role(alloc, metadata)?),
    }
}

/// The tags of a map that nothing follows.
#[tactic(auto, unfolding(crate::specs::Tags::tags_at))]
fn tags_in_map(alloc: Global, bytes: &[u8]) -> Result<Vec<Tag>, SerfFault>
    ensures { MatchResult result (λ tags. alone (tags_at bytes.now) ≡ Ok (map tag_value tags.items))
        (IsFault (alone (tags_at bytes.now))) }
{
    let (count, rest) = next_map_len(bytes)?;
    let (tags, rest) = many_tags(alloc, rest, count)?;
    if !rest.is_empty() {
        return Err(SerfFault::Trailing);
    }
    Ok(tags)
}

/// The one tag `role`, of this value.
fn role(alloc: Global, value: &[u8]) -> Result<Vec<Tag>, AllocError>
    ensures { IfOk result (λ tags. map tag_value tags.items ≡ (codes "role", value.now) ∷ []) }
{
    let mut tags = Vec::new(alloc);
    let tag = Tag {
        name: b"role".to_vec(alloc)?,
        value: value.to_vec(alloc)?,
    };
    append(&mut tags, tag)?;
    Ok(tags)
}

/// This many tags.
fn many_tags(alloc: Global, bytes: &[u8], count: u32) -> Result<(Vec<Tag>, &[u8]), SerfFault>
    ensures { MatchResult result
        (λ read. many_at tag_at count bytes.now ≡ Ok (map tag_value read.0.items, read.1.now))
        (IsFault (many_at tag_at count bytes.now)) }
{
    let mut list = Vec::new(alloc);
    let mut rest = bytes;
    for _ in 0..count {
        let (value, after) = next_tag(alloc, rest)?;
        append(&mut list, value)?;
        rest = after;
    }
    Ok((list, rest))
}

/// A tag: two texts.
#[tactic(auto, unfolding(crate::specs::Tags::tag_at))]
fn next_tag(alloc: Global, bytes: &[u8]) -> Result<(Tag, &[u8]), SerfFault>
    ensures { MatchResult result (λ read. tag_at bytes.now ≡ Ok (tag_value read.0, read.1.now))
        (IsFault (tag_at bytes.now)) }
{
    let (name, rest) = next_owned_text(alloc, bytes)?;
    let (value, rest) = next_owned_text(alloc, rest)?;
    Ok((Tag { name, value }, rest))
}

/// The metadata with these tags, in this order, where Serf writes them in any order. There are at
/// most 65,535, and each name and value has at most 65,535 bytes.
///
/// # Errors
///
/// `AllocError` if memory ran out.
pub fn encode_tags(alloc: Global, tags: &[Tag]) -> Result<Vec<u8>, AllocError>
    requires few { length tags.now < 2 ^ 16 }
    requires short { AllByRecursion IsShortTag (map tag_value tags.now) }
    ensures { IfOk result (λ bytes. bytes.items ≡ tags_bytes (map tag_value tags.now)) }
{
    let mut out = Vec::new(alloc);
    out.extend_from_slice(&[TAGS])?;
    write_map_len(&mut out, tags.len())?;
    write_each_tag(&mut out, tags)?;
    Ok(out)
}

/// Appends each of these tags. A failed call may leave some.
fn write_each_tag(out: &mut Vec<u8>, tags: &[Tag]) -> Result<(), AllocError>
    requires { AllByRecursion IsShortTag (map tag_value tags.now) }
    ensures { OnOk result
        (out.new.items ≡ out.old.items ++ flat_map tag_text (map tag_value tags.now)) }
{
    for tag in tags {
        write_tag(out, tag)?;
    }
    Ok(())
}

/// Appends a tag. A failed call may leave its name.
fn write_tag(out: &mut Vec<u8>, tag: &Tag) -> Result<(), AllocError>
    requires { IsShortTag (tag_value tag.now) }
    ensures { OnOk result (out.new.items ≡ out.old.items ++ tag_text (tag_value tag.now)) }
{
    write_raw(out, &tag.name)?;
    write_raw(out, &tag.value)
}
