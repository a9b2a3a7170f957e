//! The version of the library.
#![tactic(auto)]

ghost use Rattle.std.specs.Prelude.{◌≡◌};
ghost use Rattle.h264_c.specs.Numbers.{version_number};

/// The numbers of the version, which tools/version.py writes here.
const MAJOR: u32 = 0;

const MINOR: u32 = 1;

const PATCH: u32 = 0;

/// `H264V_VERSION` of h264v.h.
pub(crate) fn version() -> u32
    ensures { result ≡ version_number 0 1 0 }
{
    MAJOR * 65536 + MINOR * 256 + PATCH
}
