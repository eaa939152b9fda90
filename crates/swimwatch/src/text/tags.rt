//! The tags of Serf and Consul in metadata.

ghost use Rattle.std.specs.Prelude.{◌≡◌};
ghost use Rattle.std.specs.Option.{option_copied, option_map};
ghost use Rattle.swim_pack.specs.Reading.{big_at, head_at, raw_at, raw_form};
ghost use Rattle.swim_pack.specs.declared.fault.PackFault.TheVariants.{NotRaw};
ghost use Rattle.swimwatch.specs.Knowing.{body_of, has_tags_of, is_same_meta, read_or_none, tag_at};
ghost use Rattle.swimwatch.specs.Knowing.{value_of, whole_tags};

use crate::text::names::write_readable;
use crate::text::written::Text;
use byteorder::{BigEndian, ByteOrder};
use percent_encoding::{AsciiSet, CONTROLS, ascii_set};
use std::alloc::{AllocError, Global};
use std::cmp::Ordering;
use swim_pack::{SliceInlet, read_map_len};

/// The first byte of metadata that contains tags, as in Serf's `encodeTags`.
const TAGS: u8 = 0xff;

/// The most bytes of a member's metadata, and so of a key or a value.
const MAX_META_LEN: usize = 512;

/// What a line escapes in a key or a value: what it escapes in a name, and the separators of keys,
/// values and tags.
const ESCAPED: AsciiSet = ascii_set!(CONTROLS.add(b' ').add(b'%').add(b'=').add(b','));

/// A tag of a member: a key and its value.
#[derive(Clone, Copy)]
pub(crate) struct Tag<'a> {
    pub(crate) key: &'a [u8],
    pub(crate) value: &'a [u8],
}

impl Tag<'_> {
    /// Adds the tag, escaped, such as `role=web`.
    pub(crate) fn write(&self, text: &mut Text) {
        write_readable(text, self.key, ESCAPED);
        text.push('=');
        self.write_value(text);
    }

    /// Adds its value, escaped.
    pub(crate) fn write_value(&self, text: &mut Text) {
        write_readable(text, self.value, ESCAPED);
    }
}

/// The number in the first byte, and the bytes after it.
#[tactic(auto, unfolding(swim_pack::specs::Reading::big_at))]
fn one_at_hand(bytes: &[u8]) -> Option<(usize, &[u8])>
    ensures { option_map (λ read. (read.0, read.1.now)) result
        ≡ read_or_none (big_at 1 bytes.now) }
{
    let (number, rest) = bytes.split_first()?;
    Some((usize::from(*number), rest))
}

/// The number in the first two bytes, and the bytes after them.
#[tactic(auto, unfolding(swim_pack::specs::Reading::big_at))]
fn two_at_hand(bytes: &[u8]) -> Option<(usize, &[u8])>
    ensures { option_map (λ read. (read.0, read.1.now)) result
        ≡ read_or_none (big_at 2 bytes.now) }
{
    let (digits, rest) = bytes.split_at_checked(2)?;
    Some((usize::from(BigEndian::read_u16(digits)), rest))
}

/// The number in the first four bytes, and the bytes after them.
#[tactic(auto, unfolding(swim_pack::specs::Reading::big_at))]
fn four_at_hand(bytes: &[u8]) -> Option<(usize, &[u8])>
    ensures { option_map (λ read. (read.0, read.1.now)) result
        ≡ read_or_none (big_at 4 bytes.now) }
{
    let (digits, rest) = bytes.split_at_checked(4)?;
    Some((BigEndian::read_u32(digits) as usize, rest))
}

/// The length of the text at the start of the bytes, and the bytes after that.
#[tactic(auto, unfolding(swim_pack::specs::Reading::after_form, swim_pack::specs::Reading::raw_form))]
fn len_at_hand(bytes: &[u8]) -> Option<(usize, &[u8])>
    ensures { option_map (λ read. (read.0, read.1.now)) result
        ≡ read_or_none (head_at NotRaw raw_form bytes.now) }
{
    let (first, rest) = bytes.split_first()?;
    match *first {
        0xc0 => Some((0, rest)),
        0xc4 | 0xd9 => one_at_hand(rest),
        0xc5 | 0xda => two_at_hand(rest),
        0xc6 | 0xdb => four_at_hand(rest),
        0xa0..=0xbf => Some((usize::from(*first - 0xa0), rest)),
        _ => None,
    }
}

/// The text at the start of the bytes, of at most 512 bytes, and the bytes after it.
#[tactic(auto, unfolding(swim_pack::specs::Reading::raw_at, swim_pack::specs::Reading::raw_len_at))]
fn text_at_hand(bytes: &[u8]) -> Option<(&[u8], &[u8])>
    ensures { option_map (λ read. (read.0.now, read.1.now)) result
        ≡ read_or_none (raw_at 512 bytes.now) }
{
    let (len, rest) = len_at_hand(bytes)?;
    if MAX_META_LEN < len {
        return None;
    }
    rest.split_at_checked(len)
}

/// The tag at the start of the bytes, and the bytes after it.
fn tag_at_hand(bytes: &[u8]) -> Option<(Tag, &[u8])>
    ensures { option_map (λ read. ((read.0.key.now, read.0.value.now), read.1.now)) result
        ≡ read_or_none (tag_at bytes.now) }
{
    let (key, rest) = text_at_hand(bytes)?;
    let (value, rest) = text_at_hand(rest)?;
    Some((Tag { key, value }, rest))
}

/// How many tags there are in metadata, `ff` and one MessagePack map of texts, and their bytes. None
/// if the metadata is something else.
fn body_of(meta: &[u8]) -> Option<(u32, &[u8])>
    ensures { option_map (λ body. (body.0, body.1.now)) result ≡ body_of meta.now }
{
    let Some((&TAGS, body)) = meta.split_first() else {
        return None;
    };
    let mut inlet = SliceInlet::new(body);
    let count = read_map_len(&mut inlet, MAX_META_LEN as u32).ok()?;
    let start = body.len().saturating_sub(inlet.rest().len());
    Some((count, &body[start..]))
}

/// The tags in metadata, in the order of their keys: Go writes a map in another order each time.
/// None if the metadata is something else.
pub(crate) fn tags_of(alloc: Global, meta: &[u8]) -> Result<Option<Vec<Tag>>, AllocError> {
    let Some((count, bytes)) = body_of(meta) else {
        return Ok(None);
    };
    match tags_in(alloc, bytes, count)? {
        Some(mut tags) => {
            tags.sort_by(|one: &Tag, other: &Tag| -> Ordering { one.key.cmp(other.key) })?;
            Ok(Some(tags))
        }
        None => Ok(None),
    }
}

/// This many tags, which make up all the bytes.
fn tags_in(alloc: Global, bytes: &[u8], count: u32) -> Result<Option<Vec<Tag>>, AllocError> {
    let mut tags = Vec::new(alloc);
    let mut bytes = bytes;
    for _ in 0..count {
        let Some((tag, rest)) = tag_at_hand(bytes) else {
            return Ok(None);
        };
        tags.push(tag)?;
        bytes = rest;
    }
    if !bytes.is_empty() {
        return Ok(None);
    }
    Ok(Some(tags))
}

/// Whether two members' metadata is the same, whatever the order of its tags.
pub(crate) fn is_same_meta(one: &[u8], other: &[u8]) -> bool
    ensures { result ≡ is_same_meta one.now other.now }
{
    one == other || (one.len() == other.len() && has_tags_of(one, other) && has_tags_of(other, one))
}

/// Whether each tag in the second metadata is in the first.
fn has_tags_of(one: &[u8], other: &[u8]) -> bool
    ensures { result ≡ has_tags_of one.now other.now }
{
    let (Some((count, own)), Some((others, bytes))) = (body_of(one), body_of(other)) else {
        return false;
    };
    let mut bytes = bytes;
    for _ in 0..others {
        let Some((tag, rest)) = tag_at_hand(bytes) else {
            return false;
        };
        if value_at(own, count, tag.key) != Some(tag.value) {
            return false;
        }
        bytes = rest;
    }
    true
}

/// The value of a key among this many tags.
fn value_at<'a>(bytes: &'a [u8], count: u32, key: &[u8]) -> Option<&'a [u8]>
    ensures { option_copied result ≡ value_of (whole_tags count bytes.now) key.now }
{
    let mut bytes = bytes;
    for _ in 0..count {
        let (tag, rest) = tag_at_hand(bytes)?;
        if tag.key == key {
            return Some(tag.value);
        }
        bytes = rest;
    }
    None
}

/// Whether there is no metadata, or no tag in it.
pub(crate) fn is_bare(meta: &[u8]) -> bool {
    matches!(meta, [] | [TAGS, 0x80])
}

/// Adds metadata in readable form: tags as `dc=east,role=web`, and anything else as bytes in
/// hexadecimal.
pub(crate) fn write_meta(text: &mut Text, meta: &[u8]) {
    let alloc = text.alloc();
    match text.made(tags_of(alloc, meta)) {
        Some(Some(tags)) => write_tags(text, &tags),
        Some(None) => text.add(hex::encode(alloc, meta)),
        None => {}
    }
}

fn write_tags(text: &mut Text, tags: &[Tag]) {
    let mut between = "";
    for tag in tags {
        text.push_str(between);
        tag.write(text);
        between = ",";
    }
}
