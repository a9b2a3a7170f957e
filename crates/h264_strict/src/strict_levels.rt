//! What a level allows of rates, buffers and vectors (A.3.1, Table A-1).
#![tactic(auto)]

ghost use Rattle.std.specs.Prelude.{◌≡◌, Some};
ghost use Rattle.h264_strict.specs.StrictLevels.{max_mbps, bit_limits, min_cr, max_vectors};

/// What a level allows of bit rates and of coded picture buffers: in 1,000 bits of VCL HRD parameters, and in 1,200 of NAL HRD parameters.
#[derive(Clone, Copy)]
pub struct BitLimits {
    /// MaxBR, a second.
    pub max_br: u32,
    /// MaxCPB.
    pub max_cpb: u32,
}

/// These two limits.
fn limits(max_br: u32, max_cpb: u32) -> Option<BitLimits>
    ensures { result ≡ Some (record { max_br = max_br; max_cpb = max_cpb }) }
{
    Some(BitLimits { max_br, max_cpb })
}

/// MaxMBPS, in macroblocks a second; none for numbers that name no level.
#[tactic(auto, unfolding(crate::specs::StrictLevels::max_mbps, crate::specs::StrictLevels::rates))]
pub fn max_mbps(level_idc: u64, constraint_set3_flag: bool) -> Option<u64>
    ensures { result ≡ max_mbps level_idc constraint_set3_flag }
{
    match level_idc {
        9 | 10 => Some(1485),
        11 if constraint_set3_flag => Some(1485),
        11 => Some(3000),
        12 => Some(6000),
        13 | 20 => Some(11880),
        21 => Some(19800),
        22 => Some(20250),
        30 => Some(40500),
        31 => Some(108000),
        32 => Some(216000),
        40 | 41 => Some(245760),
        42 => Some(522240),
        50 => Some(589824),
        51 => Some(983040),
        52 => Some(2073600),
        _ => None,
    }
}

/// MaxBR and MaxCPB; none for numbers that name no level.
#[tactic(auto, unfolding(crate::specs::StrictLevels::bit_limits, crate::specs::StrictLevels::rates))]
pub fn bit_limits(level_idc: u64, constraint_set3_flag: bool) -> Option<BitLimits>
    ensures { result ≡ bit_limits level_idc constraint_set3_flag }
{
    match level_idc {
        9 => limits(128, 350),
        10 => limits(64, 175),
        11 if constraint_set3_flag => limits(128, 350),
        11 => limits(192, 500),
        12 => limits(384, 1000),
        13 => limits(768, 2000),
        20 => limits(2000, 2000),
        21 | 22 => limits(4000, 4000),
        30 => limits(10000, 10000),
        31 => limits(14000, 14000),
        32 => limits(20000, 20000),
        40 => limits(20000, 25000),
        41 | 42 => limits(50000, 62500),
        50 => limits(135000, 135000),
        51 | 52 => limits(240000, 240000),
        _ => None,
    }
}

/// MinCR.
pub fn min_cr(level_idc: u64) -> u64
    ensures { result ≡ min_cr level_idc }
{
    if level_idc == 31 || level_idc == 32 || level_idc == 40 {
        4
    } else {
        2
    }
}

/// MaxMvsPer2Mb; none for levels below 3, which have no limit.
pub fn max_vectors(level_idc: u64) -> Option<u64>
    ensures { result ≡ max_vectors level_idc }
{
    if level_idc < 30 {
        return None;
    }
    if level_idc == 30 { Some(32) } else { Some(16) }
}
