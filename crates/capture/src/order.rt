//! The two byte orders.

ghost use Rattle.std.specs.Prelude.{◌≡◌, ◌+◌, ◌≤◌, length};
ghost use Rattle.capture.specs.Taking.{field, order_of};

use byteorder::{BigEndian, ByteOrder, LittleEndian};

/// The byte order of a number.
#[derive(Clone, Copy, PartialEq, Eq)]
pub(crate) enum Order {
    /// The highest byte first.
    Big,
    /// The lowest byte first.
    Little,
}

impl Order {
    /// The order given by the byte-order magic of a pcapng section.
    pub(crate) fn told_by(magic: u32) -> Option<Order>
        ensures { result ≡ order_of magic }
    {
        match magic {
            0x1a2b_3c4d => Some(Order::Big),
            0x4d3c_2b1a => Some(Order::Little),
            _ => None,
        }
    }

    /// The number of 16 bits at this place.
    pub(crate) fn u16_at(self, bytes: &[u8], place: usize) -> u16
        requires { place + 2 ≤ length bytes.now }
        ensures { result ≡ field self place 2 bytes.now }
    {
        match self {
            Order::Big => BigEndian::read_u16(&bytes[place..]),
            Order::Little => LittleEndian::read_u16(&bytes[place..]),
        }
    }

    /// The number of 32 bits at this place.
    pub(crate) fn u32_at(self, bytes: &[u8], place: usize) -> u32
        requires { place + 4 ≤ length bytes.now }
        ensures { result ≡ field self place 4 bytes.now }
    {
        match self {
            Order::Big => BigEndian::read_u32(&bytes[place..]),
            Order::Little => LittleEndian::read_u32(&bytes[place..]),
        }
    }

    /// The number of 64 bits at this place.
    pub(crate) fn u64_at(self, bytes: &[u8], place: usize) -> u64
        requires { place + 8 ≤ length bytes.now }
        ensures { result ≡ field self place 8 bytes.now }
    {
        match self {
            Order::Big => BigEndian::read_u64(&bytes[place..]),
            Order::Little => LittleEndian::read_u64(&bytes[place..]),
        }
    }
}
