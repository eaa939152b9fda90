//! Claims about members, one per line.

use crate::heard::sent::Sent;
use crate::heard::told::Told;
use crate::text::names::write_name;
use crate::text::texts::{kind_word, write_place_and_meta};
use crate::text::written::Text;
use crate::view::listener::{Listener, write_ends};
use swim_claim::Claim;

/// Adds the line of a claim after its time: the member, what is claimed, the incarnation, who said so
/// or the address, and between whom it was sent, as in `2026-11-25T02:01:39.007123Z web-5 suspect 1 by
/// web-2 (web-2 to web-3, udp)`.
pub(crate) fn write_claim(text: &mut Text, listener: &Listener, sent: &Sent, told: &Told) {
    text.push(' ');
    write_name(text, told.claim.name().bytes());
    write!(
        text,
        " {} {}",
        kind_word(told.claim.kind()),
        told.claim.inc()
    );
    write_cause(text, told);
    write_ends(text, listener, sent)
}

/// Adds who says so, or the address and the tags of an Alive.
fn write_cause(text: &mut Text, told: &Told) {
    match told.claim {
        Claim::Alive { details, .. } => write_place_and_meta(text, details),
        Claim::Leave { .. } => {}
        Claim::Suspect { .. } | Claim::Confirm { .. } => {
            if told.from.is_empty() {
                return;
            }
            text.push_str(" by ");
            write_name(text, told.from)
        }
    }
}
