//! What members answered, and whether they agree.

use crate::asked::ask::{Answer, Asked};
use crate::asked::silence::Silence;
use crate::asked::unlisted::{forgotten_in, write_forgotten, write_forgotten_objects};
use crate::text::json::Object;
use crate::text::texts::name_text;
use crate::text::written::Text;
use crate::view::agreement::{Voice, differing, opinions_in, write_opinions, write_others};
use crate::view::known::Known;
use memberlist_view::MemberName;
use std::alloc::{AllocError, Global};

impl<'a> Voice<'a> {
    pub(crate) fn of(answer: &'a Answer) -> Voice<'a> {
        Voice {
            name: &answer.host,
            roster: &answer.roster,
        }
    }
}

/// The answers of those that answered.
fn answers_in<'a>(alloc: Global, asked: &'a [Asked]) -> Result<Vec<Voice<'a>>, AllocError> {
    let mut answers = Vec::new(alloc);
    for told in asked {
        if let Ok(answer) = told {
            answers.push(Voice::of(answer))?;
        }
    }
    Ok(answers)
}

/// The exit status: 0 if all answered and agree, and none of them forgot a name; 4 if none answered,
/// and otherwise 1.
pub(crate) fn status_of(alloc: Global, asked: &[Asked]) -> Result<u8, AllocError> {
    let answers = answers_in(alloc, asked)?;
    if answers.is_empty() {
        return Ok(4);
    }
    let opinions = opinions_in(alloc, &answers)?;
    let agree = answers.len() == asked.len() && differing(&opinions) == 0;
    let knows_all = forgotten_in(alloc, asked)?.is_empty();
    Ok(u8::from(!agree || !knows_all))
}

/// Adds a row for each name: what most members report, and if several were asked, how many of those
/// that answered do. Below it, for each name on which not all agree, a row for each member; a row for
/// each name that members forgot; and a row for each member without an answer.
pub(crate) fn write_asked(
    text: &mut Text,
    asked: &[Asked],
    is_keyless: bool,
) -> Result<(), AllocError> {
    let alloc = text.alloc();
    let answers = answers_in(alloc, asked)?;
    if !answers.is_empty() {
        let opinions = opinions_in(alloc, &answers)?;
        let members = if asked.len() > 1 {
            Some(answers.len())
        } else {
            None
        };
        write_opinions(text, &opinions, members);
        if differing(&opinions) > 0 {
            write_others(text, &answers, &opinions);
        }
        write_forgotten(text, &forgotten_in(alloc, asked)?, members);
    }
    write_silent(text, asked, is_keyless);
    Ok(())
}

/// Adds a row for each member without an answer.
pub(crate) fn write_silent(text: &mut Text, asked: &[Asked], is_keyless: bool) {
    let alloc = text.alloc();
    for told in asked {
        if let Err(silence) = told {
            write!(text, "{} no answer (", silence.host);
            text.add(silence.words(alloc, is_keyless));
            text.push_str(")\n");
        }
    }
}

/// Adds a JSON object for each name and member, and one for each member without an answer.
pub(crate) fn write_asked_objects(text: &mut Text, asked: &[Asked], is_keyless: bool) {
    for told in asked {
        match told {
            Ok(answer) => {
                for (name, known) in answer.roster.iter() {
                    write_object(text, answer, name, known);
                }
                write_forgotten_objects(text, answer);
            }
            Err(silence) => write_silent_object(text, silence, is_keyless),
        }
    }
}

/// Adds the JSON object for a member without an answer.
pub(crate) fn write_silent_object(text: &mut Text, silence: &Silence, is_keyless: bool) {
    let alloc = text.alloc();
    let mut object = Object::new(alloc);
    object.word("host", &silence.host);
    object.text("no_answer", silence.words(alloc, is_keyless));
    object.write(text)
}

fn write_object(text: &mut Text, answer: &Answer, name: &MemberName, known: &Known) {
    let alloc = text.alloc();
    let mut object = Object::new(alloc);
    object.word("host", &answer.host);
    object.text("name", name_text(alloc, name));
    known.write(&mut object);
    object.write(text)
}
