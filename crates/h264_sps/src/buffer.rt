//! How many frames a sequence parameter set gives the picture buffer (A.3.1, E.2.1).
#![tactic(auto)]

ghost use Rattle.std.specs.Prelude.{◌≡◌};
ghost use Rattle.h264_tables.specs.Level.{limits_of};
ghost use Rattle.h264_sps.specs.Usable.{given_frames, dpb_frames};

use crate::read::max_dpb_frames;
use crate::sps::Sps;
use h264_tables::{Limits, limits};

/// What the level of a set allows (A.3.1); None where it is no level that is judged here.
pub fn limits_of(sps: &Sps) -> Option<Limits>
    ensures { result ≡ limits_of sps.now.level_idc sps.now.constraint_set_flags.set3 }
{
    if sps.level_idc > 255 {
        return None;
    }
    limits(sps.level_idc as u8, sps.constraint_set_flags.set3)
}

/// max_dec_frame_buffering (E.2.1), in frames, if it is given.
pub fn given_frames(sps: &Sps) -> Option<u32>
    ensures { result ≡ given_frames sps.now }
{
    match &sps.vui {
        None => None,
        Some(vui) => match &vui.bitstream_restriction {
            None => None,
            Some(restriction) => Some(restriction.max_dec_frame_buffering),
        },
    }
}

/// MaxDpbFrames (A.3.1): how many frames the level allows the picture buffer to hold, at most 16; 0 where the level is none that is judged here.
pub fn dpb_frames(sps: &Sps) -> u32
    ensures { result ≡ dpb_frames sps.now }
{
    match limits_of(sps) {
        None => 0,
        Some(limits) => max_dpb_frames(limits, sps.frame_size),
    }
}
