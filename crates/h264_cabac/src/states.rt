//! The range of the least probable symbol, and the state after it (9.3.3.2.1).
#![tactic(auto)]

ghost use Rattle.std.specs.Prelude.{◌≡◌, ◌+◌, ◌*◌, ◌<◌, ◌≤◌, slice_index};
ghost use Rattle.h264_cabac.specs.States.{range_tab_lps, trans_idx_lps};

/// rangeTabLPS (Table 9-44): four ranges for each pStateIdx, by qCodIRangeIdx.
const RANGE_TAB_LPS: [u8; 256] = [
    128, 176, 208, 240, 128, 167, 197, 227, 128, 158, 187, 216, 123, 150, 178, 205, 116, 142, 169,
    195, 111, 135, 160, 185, 105, 128, 152, 175, 100, 122, 144, 166, 95, 116, 137, 158, 90, 110,
    130, 150, 85, 104, 123, 142, 81, 99, 117, 135, 77, 94, 111, 128, 73, 89, 105, 122, 69, 85, 100,
    116, 66, 80, 95, 110, 62, 76, 90, 104, 59, 72, 86, 99, 56, 69, 81, 94, 53, 65, 77, 89, 51, 62,
    73, 85, 48, 59, 69, 80, 46, 56, 66, 76, 43, 53, 63, 72, 41, 50, 59, 69, 39, 48, 56, 65, 37, 45,
    54, 62, 35, 43, 51, 59, 33, 41, 48, 56, 32, 39, 46, 53, 30, 37, 43, 50, 29, 35, 41, 48, 27, 33,
    39, 45, 26, 31, 37, 43, 24, 30, 35, 41, 23, 28, 33, 39, 22, 27, 32, 37, 21, 26, 30, 35, 20, 24,
    29, 33, 19, 23, 27, 31, 18, 22, 26, 30, 17, 21, 25, 28, 16, 20, 23, 27, 15, 19, 22, 25, 14, 18,
    21, 24, 14, 17, 20, 23, 13, 16, 19, 22, 12, 15, 18, 21, 12, 14, 17, 20, 11, 14, 16, 19, 11, 13,
    15, 18, 10, 12, 15, 17, 10, 12, 14, 16, 9, 11, 13, 15, 9, 11, 12, 14, 8, 10, 12, 14, 8, 9, 11,
    13, 7, 9, 11, 12, 7, 9, 10, 12, 7, 8, 10, 11, 6, 8, 9, 11, 6, 7, 9, 10, 6, 7, 8, 9, 2, 2, 2, 2,
];

/// transIdxLPS (Table 9-45), by pStateIdx.
const TRANS_IDX_LPS: [u8; 64] = [
    0, 0, 1, 2, 2, 4, 4, 5, 6, 7, 8, 9, 9, 11, 11, 12, 13, 13, 15, 15, 16, 16, 18, 18, 19, 19, 21,
    21, 22, 22, 23, 24, 24, 25, 26, 26, 27, 27, 28, 29, 29, 30, 30, 30, 31, 32, 32, 33, 33, 33, 34,
    34, 35, 35, 35, 36, 36, 36, 37, 37, 37, 38, 38, 63,
];

/// codIRangeLPS, by pStateIdx and qCodIRangeIdx (Table 9-44).
#[tactic(auto, unfolding(crate::specs::States::range_tab_lps))]
#[inline(always)]
pub fn range_of_least_probable(p_state_idx: u8, quarter: u32) -> u32
    requires state { p_state_idx ≤ 62 }
    requires quarter { quarter < 4 }
    ensures value { result ≡ slice_index range_tab_lps (4 * p_state_idx + quarter) }
    ensures some { 6 ≤ result }
    ensures small { result ≤ 240 }
{
    RANGE_TAB_LPS[4 * p_state_idx as usize + quarter as usize] as u32
}

/// transIdxLPS, by pStateIdx (Table 9-45).
#[tactic(auto, unfolding(crate::specs::States::trans_idx_lps))]
#[inline(always)]
pub fn state_after_least_probable(p_state_idx: u8) -> u8
    requires { p_state_idx ≤ 62 }
    ensures value { result ≡ slice_index trans_idx_lps p_state_idx }
    ensures small { result ≤ 62 }
{
    TRANS_IDX_LPS[p_state_idx as usize]
}
