//! A page for a browser that shows all that captures tell.
//!
//! The page is fixed but for a picture and blocks of data, from which its script builds the rest.
//!
//! | module | subject |
//! |---|---|
//! | `block` | data in a page |
//! | `html` | what surrounds the picture and the data |
//! | `style` | how it looks |
//! | `script` | what it does |

mod block;
mod html;
mod script;
mod style;

use crate::arguments::chosen::Chosen;
use crate::text::names::escaped_name;
use crate::text::written::Text;
use block::write_block;
use html::{AFTER_PICTURE, BEFORE_PICTURE, BEFORE_STYLE, END};
use script::SCRIPT;
use std::alloc::{AllocError, Global};
use style::STYLE;

/// What a report needs before the captures end.
#[derive(Drop)]
pub(crate) struct Gathered {
    /// The files of the captures, escaped as names are.
    pub(crate) captures: Vec<String>,
    /// The objects of what changed, as `timeline` prints them.
    pub(crate) timeline: Text,
}

impl Gathered {
    /// Nothing yet, of the captures that were chosen. Only a report names them.
    pub(crate) fn new(alloc: Global, chosen: &Chosen) -> Result<Gathered, AllocError> {
        let captures = if chosen.verb.gathers() {
            names_in(alloc, &chosen.inputs)?
        } else {
            Vec::new(alloc)
        };
        Ok(Gathered {
            captures,
            timeline: Text::new(alloc),
        })
    }
}

/// These words, escaped as names are.
fn names_in(alloc: Global, words: &[String]) -> Result<Vec<String>, AllocError> {
    let mut names = Vec::new(alloc);
    for word in words {
        names.push(escaped_name(alloc, word.as_bytes())?)?;
    }
    Ok(names)
}

/// What a report shows. All but the picture are JSON objects, one per line.
#[derive(Drop)]
pub(crate) struct Report<'a> {
    /// The captures.
    pub(crate) about: String,
    /// The chart.
    pub(crate) picture: String,
    /// The members at the end.
    pub(crate) members: String,
    /// What each prober made of its probes of each target.
    pub(crate) probes: &'a str,
    /// When somebody was suspected or probes failed, and why.
    pub(crate) episodes: &'a str,
    /// What changed.
    pub(crate) timeline: &'a str,
}

impl<'a> Report<'a> {
    /// Adds the page. All its bytes are printable ASCII and line feeds.
    pub(crate) fn write(&self, text: &mut Text) {
        for part in [
            BEFORE_STYLE,
            STYLE,
            BEFORE_PICTURE,
            &self.picture,
            AFTER_PICTURE,
        ] {
            text.push_str(part);
        }
        write_block(text, "about", &self.about);
        write_block(text, "members", &self.members);
        write_block(text, "why", self.episodes);
        write_block(text, "probes", self.probes);
        write_block(text, "timeline", self.timeline);
        for part in SCRIPT {
            text.push_str(part);
        }
        text.push_str(END);
    }
}
