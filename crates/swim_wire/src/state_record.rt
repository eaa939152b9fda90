//! State records of a push/pull stream, with all that they say.

ghost use Rattle.std.specs.Prelude.{IfOk, IfErr, IsErrOf};
ghost use Rattle.swim_claim.specs.declared.claim.Claim.{Claim};
ghost use Rattle.swim_pack.specs.Composing.{ReadsAs, UnlessFailed, same};
ghost use Rattle.swim_pack.specs.Ends.{ConsumesText, NoTextAtFront};
ghost use Rattle.swim_wire.specs.Asking.{MapAsks};
ghost use Rattle.swim_wire.specs.Checks.{ReasonForState, ReasonForStart};
ghost use Rattle.swim_wire.specs.Layout.{state_layout};
ghost use Rattle.swim_wire.specs.Reading.{wire_cause, state_at, record_at};
ghost use Rattle.swim_wire.specs.Texts.{StateText};

use crate::WireFault;
use crate::claims::record_of_state;
use crate::layout::STATE;
use crate::map::read_map;
use crate::message::PushNodeState;
use std::alloc::Global;
use swim_claim::{Claim, Details};
use swim_pack::Inlet;

/// All that a state record says.
#[derive(Drop)]
pub struct StateRecord {
    /// Its claim.
    pub claim: Claim,
    /// The member's details in a record that is no Alive: memberlist also sends those of
    /// suspected, dead and departed members. `None` for an Alive, whose claim has them, and if no
    /// member may have such an address or such versions.
    pub told: Option<Details>,
}

/// Reads one state record of a push/pull stream as [`read_state`](crate::read_state) does, with the
/// details of a member in any state. The keys are looked at one by one, which takes longer.
///
/// # Errors
///
/// Those of [`read_state`](crate::read_state), and `Memory` if there is none for the metadata. The
/// bytes left are a suffix of those before the call.
pub fn read_record<I: Inlet>(alloc: Global, inlet: &mut I) -> Result<StateRecord, WireFault>
    // The consumed bytes are the record of the claim.
    ensures takes { IfOk result (λ read.
        ConsumesText (I.seen inlet.old) (I.seen inlet.new) (λ b. StateText b read.claim)) }
    // If refused for a reason other than a failed inlet or memory, the bytes do not start with a
    // record, and the refusal says why.
    ensures lacks { IfErr result (λ fault. UnlessFailed (wire_cause fault)
        (NoTextAtFront (I.seen inlet.old) (λ b. (claim : Claim) × StateText b claim))) }
    ensures reason { IfErr result (λ fault.
        ReasonForStart (ReasonForState fault) (I.seen inlet.old)) }
    // What was read, what is left, and that a failure of the inlet was counted.
    ensures exact { ReadsAs wire_cause same record_at (I.seen inlet.old) (I.seen inlet.new) result }
{
    read_whole_record(alloc, inlet)
}

fn read_whole_record<I: Inlet>(alloc: Global, inlet: &mut I) -> Result<StateRecord, WireFault>
    ensures exact { ReadsAs wire_cause same record_at (I.seen inlet.old) (I.seen inlet.new) result }
    ensures claim { ReadsAs wire_cause (λ read. read.claim) state_at
        (I.seen inlet.old) (I.seen inlet.new) result }
    ensures memory { IsErrOf result WireFault.Memory
        → ReasonForStart (MapAsks state_layout) (I.seen inlet.old) }
{
    let values = read_map(Some(alloc), inlet, &STATE)?;
    record_of_state(alloc, &PushNodeState::new(&values))
}
