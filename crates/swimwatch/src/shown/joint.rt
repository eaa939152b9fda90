//! How the members of several views are shown.

use crate::shown::objects::write_roster;
use crate::text::written::Text;
use crate::view::agreement::{Voice, differing, fullest, opinions_in, write_views};
use crate::view::roster::Roster;
use std::alloc::{AllocError, Global};

/// How the members of several views are shown.
#[derive(Drop)]
pub(crate) enum Joint {
    /// As those of the view at this index, which knows all.
    View(usize),
    /// As this text.
    Text(Text),
}

impl Joint {
    /// How views with these names and members are shown: as one table if they agree, that of the view
    /// that knows all, if there is one; and else what each shows about the names on which they differ.
    pub(crate) fn of(
        alloc: Global,
        shown: &[(String, Roster)],
        json: bool,
    ) -> Result<Joint, AllocError> {
        let voices = voices_of(alloc, shown)?;
        let opinions = opinions_in(alloc, &voices)?;
        if differing(&opinions) == 0 {
            if let Some(view) = fullest(&voices) {
                return Ok(Joint::View(view));
            }
        }
        let mut text = Text::new(alloc);
        if json {
            write_rosters(&mut text, &voices);
        } else {
            write_views(&mut text, &voices, &opinions);
        }
        Ok(Joint::Text(text))
    }
}

/// The voices of views with these names and members.
fn voices_of<'a>(
    alloc: Global,
    shown: &'a [(String, Roster)],
) -> Result<Vec<Voice<'a>>, AllocError> {
    let mut voices = Vec::new(alloc);
    for (name, roster) in shown {
        voices.push(Voice { name, roster })?;
    }
    Ok(voices)
}

/// Adds an object for each name that each view shows.
fn write_rosters(text: &mut Text, voices: &[Voice]) {
    for voice in voices {
        write_roster(text, voice.name, voice.roster);
    }
}
