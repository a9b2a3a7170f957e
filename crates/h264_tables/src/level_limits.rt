//! The limits of each level (A.3.1, Table A-1).
#![tactic(auto)]

ghost use Rattle.std.specs.Prelude.{◌≡◌};
ghost use Rattle.h264_tables.specs.Level.{limits_of};

use crate::level::Limits;

fn allowed(max_fs: u32, max_dpb_mbs: u32, max_vector: u32) -> Option<Limits>
    ensures { result ≡ Some (record { max_fs = max_fs; max_dpb_mbs = max_dpb_mbs; max_vector = max_vector }) }
{
    Some(Limits {
        max_fs,
        max_dpb_mbs,
        max_vector,
    })
}

/// The limits of the level that level_idc names: level 1b by level_idc 11 with constraint_set3_flag, or by level_idc 9.
/// None for levels above 5.2 and for numbers that name no level.
#[tactic(auto, unfolding(crate::specs::Level::limits_of, crate::specs::Level::level_rows))]
pub fn limits(level_idc: u8, constraint_set3_flag: bool) -> Option<Limits>
    ensures { result ≡ limits_of level_idc constraint_set3_flag }
{
    match level_idc {
        9 | 10 => allowed(99, 396, 64),
        11 if constraint_set3_flag => allowed(99, 396, 64),
        11 => allowed(396, 900, 128),
        12 | 13 | 20 => allowed(396, 2376, 128),
        21 => allowed(792, 4752, 256),
        22 | 30 => allowed(1620, 8100, 256),
        31 => allowed(3600, 18000, 512),
        32 => allowed(5120, 20480, 512),
        40 | 41 => allowed(8192, 32768, 512),
        42 => allowed(8704, 34816, 512),
        50 => allowed(22080, 110400, 512),
        51 | 52 => allowed(36864, 184320, 512),
        _ => None,
    }
}
