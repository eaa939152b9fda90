//! Who was in a cluster, and in which state, as a picture.
//!
//! | module | subject |
//! |---|---|
//! | `row` | what is drawn for a member |
//! | `span` | the period that a picture shows, and where its moments are drawn |
//! | `axis` | the times on the axis, with a line below each |
//! | `page` | what surrounds the rows |
//! | `drawing` | the rows |
//! | `style` | colours, patterns and shapes |
//! | `svg` | text in a picture |

pub(crate) mod axis;
mod drawing;
mod page;
mod row;
pub(crate) mod span;
mod style;
pub(crate) mod svg;

use crate::heard::sent::Sent;
use crate::text::written::Text;
use crate::view::change::Change;
use crate::view::directory::copy_of;
use crate::view::listener::Listener;
use drawing::{label_width, write_row};
use memberlist_view::MemberName;
use page::Page;
use row::Row;
use span::Span;
use std::alloc::{AllocError, Global};
use std::collections::BTreeMap;

/// What happened to each member, to be drawn.
#[derive(Drop)]
pub(crate) struct Chart {
    alloc: Global,
    span: Option<Span>,
    rows: BTreeMap<MemberName, Row>,
}

impl Chart {
    pub(crate) fn new(alloc: Global) -> Chart {
        Chart {
            alloc,
            span: None,
            rows: BTreeMap::new(alloc),
        }
    }

    /// Notes that something was sent at this time, so that the picture includes it.
    pub(crate) fn reach(&mut self, time: u64) {
        self.span = match self.span {
            Some(span) => Some(span.with(time)),
            None => Some(Span::at(time)),
        };
    }

    /// The period that the picture shows, if something was sent.
    pub(crate) fn span(&self) -> Option<Span> {
        self.span
    }

    /// Takes in what a message changed about its member.
    pub(crate) fn take(
        &mut self,
        listener: &Listener,
        sent: &Sent,
        change: &Change,
    ) -> Result<(), AllocError> {
        let Some(entry) = listener.view.get(change.member) else {
            return Ok(());
        };
        if let Some(row) = self.rows.get_mut(change.member) {
            return row.take(sent.time, change, entry);
        }
        let mut row = Row::new(self.alloc);
        row.take(sent.time, change, entry)?;
        self.rows.insert(copy_of(self.alloc, change.member)?, row)?;
        Ok(())
    }

    /// Adds the picture as SVG: a row for each member for which there is something to draw, in
    /// ascending order of the names.
    ///
    /// # Errors
    ///
    /// If out of memory for the text.
    pub(crate) fn write(&self, text: &mut Text) -> Result<(), AllocError> {
        let mut width = 0u64;
        for (name, _) in self.rows.iter() {
            width = width.max(label_width(self.alloc, name)?);
        }
        let page = Page::new(self.span, self.rows.len(), width);
        page.write_head(text);
        let mut top = page.top();
        for (name, row) in self.rows.iter() {
            write_row(text, &page, top, name, row)?;
            top = page.below(top);
        }
        text.push_str("</svg>\n");
        Ok(())
    }
}
