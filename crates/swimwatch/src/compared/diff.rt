//! Comparing two clusters, or one at two times.

use crate::NAME;
use crate::arguments::chosen::Chosen;
use crate::asked::ring::Ring;
use crate::compared::side::{roster_of, rosters_at};
use crate::shown::changes::{write_change_objects, write_changes};
use crate::text::said::misused;
use crate::text::written::Text;
use crate::view::roster::Roster;
use key_files::keyring_of;
use std::process::ExitCode;
use swim_program::{Failure, print_bytes};

/// Shows what changed from the first side to the second, or in a capture from one time to another.
/// The status is 1 if something did.
///
/// # Errors
///
/// Those of [`roster_of`], for the first side that cannot be read.
pub(crate) fn diff(rt: &HostRuntime, chosen: &Chosen) -> Result<ExitCode, Failure> {
    let (before, after) = sides(rt, chosen)?;
    let mut text = Text::new(rt.alloc());
    let is_changed = if chosen.json {
        write_change_objects(&mut text, &before, &after)?
    } else {
        write_changes(&mut text, &before, &after)?
    };
    print_bytes(rt, NAME, text.as_str()?.as_bytes())?;
    Ok(ExitCode::from(u8::from(is_changed)))
}

/// The two sides.
fn sides(rt: &HostRuntime, chosen: &Chosen) -> Result<(Roster, Roster), Failure> {
    let keys = keyring_of(rt, NAME, &chosen.key_files)?;
    match (chosen.inputs.as_slice(), chosen.moments.as_slice()) {
        ([before, after], []) => {
            if before.as_str() == "-" && after.as_str() == "-" {
                return Err(misused(
                    rt.alloc(),
                    "standard input can be read once; give a file for the other side",
                ));
            }
            let mut ring = Ring::new(keys);
            let before = roster_of(rt, chosen, &mut ring, before)?;
            Ok((before, roster_of(rt, chosen, &mut ring, after)?))
        }
        ([capture], [one, other]) => rosters_at(rt, chosen, &keys, capture, [*one, *other]),
        _ => Err(misused(
            rt.alloc(),
            "diff needs two captures, streams or members, or one capture and --at twice",
        )),
    }
}
