//! Following the coordinates of members, which the payloads of acks carry.

ghost use Rattle.std.specs.Prelude.{◌≡◌};

use super::Watch;
use crate::heard::counts::count;
use crate::heard::sent::Sent;
use crate::view::directory::copy_of;
use memberlist_view::MemberName;
use serf_message::{Coordinate, SerfFault, decode_coordinate};
use serf_view::round_trip;
use std::alloc::AllocError;

impl Watch {
    /// Notes where the member is that sent an ack with this payload: the one that the ping named, or
    /// else the one at the end that sent it. A coordinate from which nothing follows, not even to
    /// itself, has a number that is none, and is counted.
    pub(super) fn locate(
        &mut self,
        sent: &Sent,
        pinged: &Option<MemberName>,
        payload: &[u8],
    ) -> Result<(), AllocError>
        ensures { self.new.listener ≡ self.old.listener }
    {
        if self.distances.is_none() || payload.is_empty() || !self.window.shows(sent.time) {
            return Ok(());
        }
        let name = match (pinged, self.listener.member_at(sent.source)) {
            (Some(name), _) => copy_of(self.alloc, name)?,
            (None, Some(name)) => copy_of(self.alloc, name)?,
            (None, None) => return Ok(()),
        };
        match decode_coordinate(self.alloc, payload) {
            Ok(coordinate) => {
                if round_trip(&coordinate, &coordinate).is_some() {
                    return self.place(name, coordinate);
                }
            }
            Err(SerfFault::Memory) => return Err(AllocError),
            Err(_) => {}
        }
        count(&mut self.counts.placeless);
        Ok(())
    }

    /// Notes where a member is.
    fn place(&mut self, name: MemberName, coordinate: Coordinate) -> Result<(), AllocError>
        ensures { self.new.listener ≡ self.old.listener }
    {
        match &mut self.distances {
            Some(distances) => distances.note(name, coordinate),
            None => Ok(()),
        }
    }

    /// Shows the round trips between members.
    pub(super) fn show_distances(&mut self)
        ensures { self.new.listener ≡ self.old.listener }
    {
        let Some(distances) = &self.distances else {
            return;
        };
        self.counts.apart = distances.left_out(&self.target);
        if self.json {
            distances.write_objects(&mut self.out, &self.target);
        } else {
            distances.write(&mut self.out, &self.target);
        }
    }
}
