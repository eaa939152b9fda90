//! The rows.

use crate::chart::page::Page;
use crate::chart::row::{Bar, Mark, Row};
use crate::chart::style::shape;
use crate::chart::svg::escaped;
use crate::text::names::write_name;
use crate::text::texts::{event_words, name_text};
use crate::text::written::Text;
use memberlist_view::MemberName;
use std::alloc::{AllocError, Global};

/// The most characters of a name that are shown.
const LABEL: usize = 32;

/// Adds a row that begins this many pixels below the top.
pub(crate) fn write_row(
    text: &mut Text,
    page: &Page,
    top: u64,
    name: &MemberName,
    row: &Row,
) -> Result<(), AllocError> {
    let alloc = text.alloc();
    let whole = name_text(alloc, name)?;
    write_label(text, page, top, &whole, &label(alloc, name)?);
    let mut edge = 0u64;
    for (index, bar) in row.bars.iter().enumerate() {
        let until = row.until(index, page.span().last);
        let (begin, end) = page.span().stretch(bar.since, until, edge);
        write!(
            text,
            "<rect class=\"{}\" x=\"{}\" y=\"{}\" width=\"{}\" height=\"14\"><title>",
            bar.state,
            page.left().saturating_add(begin),
            top.saturating_add(4),
            end.saturating_sub(begin)
        );
        text.add(escaped(alloc, &bar_title(alloc, page, &whole, bar, until)?));
        text.push_str("</title></rect>\n");
        edge = end;
    }
    write_marks(text, page, top, &whole, row)?;
    text.push_str("</g>\n");
    Ok(())
}

/// Begins a row with its name.
fn write_label(text: &mut Text, page: &Page, top: u64, whole: &str, label: &str) {
    let alloc = text.alloc();
    write!(
        text,
        "<g>\n<text class=\"name\" x=\"{}\" y=\"{}\"><title>",
        page.left().saturating_sub(10),
        top.saturating_add(15)
    );
    text.add(escaped(alloc, whole));
    text.push_str("</title>");
    text.add(escaped(alloc, label));
    text.push_str("</text>\n");
}

/// Adds the marks of a row.
fn write_marks(
    text: &mut Text,
    page: &Page,
    top: u64,
    whole: &str,
    row: &Row,
) -> Result<(), AllocError> {
    let alloc = text.alloc();
    for mark in &row.marks {
        write!(
            text,
            "<path class=\"mark\" d=\"M{} {}{}\"><title>",
            page.left().saturating_add(page.span().place(mark.time)),
            // at the upper edge of the bars, so that a short bar is visible below it
            top.saturating_add(5),
            shape(mark.event)
        );
        text.add(escaped(alloc, &mark_title(alloc, page, whole, mark)?));
        text.push_str("</title></path>\n");
    }
    Ok(())
}

/// The title of a bar: `web-5 suspect 1 at 10.20.1.15:7946 from 02:01:39.007123 to 02:01:43.010456
/// by web-2, web-4`.
fn bar_title(
    alloc: Global,
    page: &Page,
    name: &str,
    bar: &Bar,
    until: u64,
) -> Result<String, AllocError> {
    let mut title = Text::new(alloc);
    write!(title, "{name} {} {}", bar.state, bar.first_inc);
    if bar.first_inc != bar.last_inc {
        write!(title, " to {}", bar.last_inc);
    }
    write!(title, "{} from ", bar.place);
    page.write_time(&mut title, bar.since);
    title.push_str(" to ");
    page.write_time(&mut title, until);
    if !bar.by.is_empty() {
        write!(title, " by {}", bar.by);
    }
    title.end()
}

/// The title of a mark: `web-4 back 2 at 10.20.1.14:7946, 02:02:11.096432`.
fn mark_title(alloc: Global, page: &Page, name: &str, mark: &Mark) -> Result<String, AllocError> {
    let mut title = Text::new(alloc);
    let words = event_words(mark.event);
    write!(title, "{name} {words} {}{}, ", mark.inc, mark.place);
    page.write_time(&mut title, mark.time);
    title.end()
}

/// The escaped name, or its first characters if it is long.
fn label(alloc: Global, name: &MemberName) -> Result<String, AllocError> {
    let whole = name_text(alloc, name)?;
    if whole.len() <= LABEL {
        return Ok(whole);
    }
    let mut label = Text::new(alloc);
    for byte in name.name().bytes() {
        // room for an escape and for what follows it
        if LABEL < label.len().saturating_add(6) {
            break;
        }
        write_name(&mut label, std::slice::from_ref(byte));
    }
    label.push_str("...");
    label.end()
}

/// The width of a name in pixels, at most, in the common fonts.
pub(crate) fn label_width(alloc: Global, name: &MemberName) -> Result<u64, AllocError> {
    let mut width = 0u64;
    for byte in label(alloc, name)?.bytes() {
        let pixels = match byte {
            b'i' | b'j' | b'l' | b'.' | b',' | b'-' | b':' | b';' | b'!' | b'|' => 5,
            b'm' | b'w' | b'M' | b'W' | b'%' | b'@' => 12,
            b'A'..=b'Z' => 9,
            _ => 8,
        };
        width = width.saturating_add(pixels);
    }
    Ok(width)
}
