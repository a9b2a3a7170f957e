//! Emulation prevention bytes are left out (7.3.1).
#![tactic(auto)]

ghost use Rattle.std.specs.Prelude.{◌≡◌, ◌<◌, ◌^◌, drop, length, IfOk};
ghost use Rattle.h264_rbsp.specs.Rbsp.{rbsp_bytes, dropped_from};

use crate::scan::next_after_zeros;
use smallvec::SmallVec;
use std::alloc::{AllocError, Global};

/// The bytes of a unit without its header.
pub(crate) fn after_header(body: &[u8]) -> &[u8]
    requires { 0 < length body.now }
    ensures { result.now ≡ drop 1 body.now }
{
    &body[1..]
}

/// The bytes of the RBSP, and before which of them a byte was left out.
pub(crate) fn unescaped(
    alloc: Global,
    payload: &[u8],
) -> Result<(Vec<u8>, SmallVec<u32, 8>), AllocError>
    requires { length payload.now < 2 ^ 28 }
    ensures bytes { IfOk result (λ r. r.0.items ≡ rbsp_bytes payload.now) }
    ensures dropped { IfOk result (λ r. r.1.items ≡ dropped_from 0 payload.now) }
{
    let mut bytes = Vec::with_capacity(alloc, payload.len())?;
    let mut dropped = SmallVec::new(alloc);
    let mut start = 0;
    while start < payload.len() {
        let place = next_after_zeros(payload, start, 3);
        bytes.extend_from_slice(&payload[start..place])?;
        if place == payload.len() {
            return Ok((bytes, dropped));
        }
        dropped.push(bytes.len() as u32)?;
        start = place + 1;
    }
    Ok((bytes, dropped))
}
