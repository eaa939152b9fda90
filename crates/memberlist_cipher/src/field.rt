//! Bytes as polynomials, FIPS-197, 4.

ghost use Rattle.std.specs.Prelude.{◌≡◌, ◌<◌};
ghost use Rattle.memberlist_cipher.specs.Field.{x_to};

/// The powers of x.
const POWERS: [u8; 15] = [
    0x01, 0x02, 0x04, 0x08, 0x10, 0x20, 0x40, 0x80, 0x1b, 0x36, 0x6c, 0xd8, 0xab, 0x4d, 0x9a,
];

/// x to the power of k.
pub(crate) fn x_to(k: usize) -> u8
    requires { k < 15 }
    ensures { result ≡ x_to k }
{
    POWERS[k]
}
