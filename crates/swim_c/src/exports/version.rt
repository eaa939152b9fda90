//! The library's version.

ghost use Rattle.std.specs.Prelude.{◌≡◌};

/// The version of the library as one number: 10,000 times the major, plus 100 times the minor, plus
/// the patch version.
#[unsafe(no_mangle)]
pub extern "C" fn swimtab_raw_version() -> u32
    ensures { result ≡ 300 }
{
    300
}
