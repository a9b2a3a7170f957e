//! A verdict as C reads it.
#![tactic(auto)]

ghost use Rattle.std.specs.Prelude.{◌≡◌};
ghost use Rattle.h264_c.specs.Verdicts.{IsVerdict};

use h264_base::Stop;
use h264_verify::Summary;

/// What is said of a stream: `h264v_verdict` of h264v.h.
#[repr(C)]
#[derive(Clone, Copy)]
pub struct CVerdict {
    pub bit: u64,
    pub units: u64,
    pub pictures: u64,
    pub frames: u64,
    pub kind: u32,
    pub label: [u8; 24],
    pub clause: [u8; 8],
}

/// A legal stream.
const YES: u32 = 0;

/// A stream that breaks a rule.
const NO: u32 = 1;

/// A stream that is not judged to its end.
const OUTSIDE: u32 = 2;

/// No verdict, since memory was refused.
const MEMORY: u32 = 3;

/// No verdict, since a device failed. The library has none.
const DEVICE: u32 = 4;

/// No verdict, since the mode or the target is not known.
const MISUSE: u32 = 5;

/// A text in so many bytes, cut off where it is longer, with zeros after it.
fn padded<const N: usize>(text: &str) -> [u8; N] {
    let mut bytes = [0u8; N];
    for (to, from) in bytes.iter_mut().zip(text.as_bytes()) {
        *to = *from;
    }
    bytes
}

/// A verdict of this kind, of which there is nothing more to say.
fn plain(kind: u32) -> CVerdict
    ensures kind { result.kind ≡ kind }
    ensures bit { result.bit ≡ 0 }
    ensures units { result.units ≡ 0 }
    ensures pictures { result.pictures ≡ 0 }
    ensures frames { result.frames ≡ 0 }
{
    CVerdict {
        bit: 0,
        units: 0,
        pictures: 0,
        frames: 0,
        kind,
        label: [0; 24],
        clause: [0; 8],
    }
}

/// That the mode or the target is not known.
pub(crate) fn misuse() -> CVerdict
    ensures { result.kind ≡ 5 }
{
    plain(MISUSE)
}

/// What C reads of an answer.
pub(crate) fn verdict_of(answer: Result<Summary, Stop>) -> CVerdict
    ensures { IsVerdict answer result }
{
    match answer {
        Ok(summary) => CVerdict {
            units: summary.units,
            pictures: summary.pictures,
            frames: summary.frames,
            ..plain(YES)
        },
        Err(Stop::No { bit, rule }) => CVerdict {
            bit,
            label: padded::<24>(rule.label()),
            clause: padded::<8>(rule.clause()),
            ..plain(NO)
        },
        Err(Stop::Outside { bit, feature }) => CVerdict {
            bit,
            label: padded::<24>(feature.text()),
            ..plain(OUTSIDE)
        },
        Err(Stop::Memory) => plain(MEMORY),
        Err(Stop::Read | Stop::Write) => plain(DEVICE),
    }
}
