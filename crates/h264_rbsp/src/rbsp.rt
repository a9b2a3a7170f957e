//! The RBSP of a NAL unit (7.3.1).
#![tactic(auto)]

use crate::unescape::{after_header, unescaped};
use h264_base::Stop;
use h264_units::NalUnit;
use smallvec::SmallVec;
use std::alloc::{AllocError, Global};
use std::marker::Model;

/// The bytes of a NAL unit after its header, without the emulation prevention bytes, and where they stood in the input.
#[derive(Drop)]
pub struct Rbsp {
    bytes: Vec<u8>,
    first: u64,
    dropped: SmallVec<u32, 8>,
}

impl Model for Rbsp {
    ghost use Rattle.h264_base.specs.Body.{Body};
    ghost use Rattle.h264_rbsp.specs.Rbsp.{IsSound};

    ghost Value = { Body };

    ghost view = { λ r. record { bytes = r.bytes.items; first = r.first; dropped = r.dropped.items } };

    ghost invariant = { λ r. IsSound r.bytes.items r.first r.dropped.items };
}

impl Rbsp {
    ghost use Rattle.std.specs.Prelude.{◌≡◌, ◌*◌, ◌≤◌, ◌^◌, length, IfOk, IfErr};
    ghost use Rattle.h264_base.specs.Body.{place};
    ghost use Rattle.h264_rbsp.specs.Rbsp.{body_of};

    /// The RBSP of a unit. The one error is `Stop::Memory`.
    pub fn of(alloc: Global, unit: &NalUnit) -> Result<Rbsp, Stop>
        ensures ok { IfOk result (λ rbsp. rbsp ≡ body_of unit.now) }
        ensures err { IfErr result (λ stop. stop ≡ Stop.Memory) }
    {
        match unescaped(alloc, after_header(unit.body())) {
            Ok((bytes, dropped)) => Ok(Rbsp {
                bytes,
                first: 8 * (unit.from() + 1),
                dropped,
            }),
            Err(AllocError) => Err(Stop::Memory),
        }
    }

    /// Its bytes, less than 2^28; none where the unit is a header alone.
    pub fn bytes(&self) -> &[u8]
        ensures bytes { result.now ≡ self.now.bytes }
        ensures short { length self.now.bytes ≤ 2 ^ 28 }
    {
        self.bytes.as_slice()
    }

    /// The bit of the input at which bit `i` of the RBSP stands, the highest bit of a byte first. At the RBSP's length in bits
    /// it is the first bit after the unit.
    pub fn stream_bit(&self, i: usize) -> u64
        requires { i ≤ 8 * length self.now.bytes }
        ensures { result ≡ place self.now i }
    {
        let byte = i / 8;
        let dropped = self
            .dropped
            .as_slice()
            .partition_point(|place| *place as usize <= byte);
        self.first + i as u64 + 8 * dropped as u64
    }
}
