//! The header and the records of a pcap file.

ghost use Rattle.std.specs.Prelude.{◌≡◌, ◌≤◌, ◌*◌, ◌^◌};
ghost use Rattle.swim_pack.specs.Composing.{ReadsAs, same};
ghost use Rattle.capture.specs.Taking.{stop_cause};
ghost use Rattle.capture.specs.Pcap.{fraction_of, pcap_behind, pcap_record};

use crate::Record;
use crate::checks::check_version;
use crate::order::Order;
use crate::stop::Stop;
use crate::taking::{fill, fill_header, read_captured};
use swim_pack::Inlet;

/// The unit of the fraction in a record's time.
#[derive(Clone, Copy, PartialEq, Eq)]
pub(crate) enum Precision {
    Microseconds,
    Nanoseconds,
}

impl Precision {
    /// How many nanoseconds a fraction of a second is.
    fn nanoseconds(self, fraction: u32) -> u64
        ensures is { result ≡ fraction_of self fraction }
        ensures bound { result ≤ 2 ^ 32 * 1000 }
    {
        match self {
            Precision::Microseconds => u64::from(fraction) * 1000,
            Precision::Nanoseconds => u64::from(fraction),
        }
    }
}

/// What the header of a pcap file gives for all its records.
#[derive(Clone, Copy, PartialEq, Eq)]
pub(crate) struct Pcap {
    pub(crate) order: Order,
    pub(crate) precision: Precision,
    pub(crate) link: u32,
}

/// Reads what follows the magic number of a pcap file.
pub(crate) fn read_pcap<I: Inlet>(
    inlet: &mut I,
    order: Order,
    precision: Precision,
) -> Result<Pcap, Stop>
    ensures { ReadsAs stop_cause same (pcap_behind order precision)
        (I.seen inlet.old) (I.seen inlet.new) result }
{
    let mut header = [0; 20];
    fill(inlet, &mut header)?;
    check_version(2, order.u16_at(&header, 0))?;
    let link = order.u32_at(&header, 16) % 65_536;
    Ok(Pcap {
        order,
        precision,
        link,
    })
}

/// Reads the next record of a pcap file.
pub(crate) fn read_pcap_record<I: Inlet>(
    file: Pcap,
    inlet: &mut I,
    bytes: &mut Vec<u8>,
) -> Result<Record, Stop>
    ensures { ReadsAs stop_cause (λ head. (head, bytes.new.items)) (pcap_record file)
        (I.seen inlet.old) (I.seen inlet.new) result }
{
    let mut header = [0; 16];
    fill_header(inlet, &mut header)?;
    let order = file.order;
    let length = order.u32_at(&header, 8);
    read_captured(inlet, bytes, length)?;
    let whole = order.u32_at(&header, 0);
    let part = order.u32_at(&header, 4);
    let original = order.u32_at(&header, 12);
    let seconds = u64::from(whole) * 1_000_000_000;
    let fraction = file.precision.nanoseconds(part);
    Ok(Record {
        time: Some(seconds + fraction),
        link: file.link,
        interface: None,
        original,
    })
}
