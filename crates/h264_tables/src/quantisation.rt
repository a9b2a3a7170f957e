//! The quantisation parameter of chroma (8.5.8).
#![tactic(auto)]

ghost use Rattle.std.specs.Prelude.{◌≡◌, ◌≤◌};
ghost use Rattle.h264_tables.specs.ChromaQp.{chroma_qp_of};

/// QPc from qPI = 30 on.
const FROM_30: [u8; 22] = [
    29, 30, 31, 32, 32, 33, 34, 34, 35, 35, 36, 36, 37, 37, 37, 38, 38, 38, 39, 39, 39, 39,
];

/// QPc, the quantisation parameter of a chroma block, by that of its macroblock and chroma_qp_index_offset (8.5.8, Table 8-15).
#[tactic(auto, unfolding(crate::specs::ChromaQp::chroma_qp_by, crate::specs::ChromaQp::chroma_qp_rows))]
#[inline]
pub fn chroma_qp(qp: u8, chroma_qp_index_offset: i8) -> u8
    ensures value { result ≡ chroma_qp_of qp chroma_qp_index_offset }
    ensures small { result ≤ 39 }
{
    let index = (qp as i32 + chroma_qp_index_offset as i32).clamp(0, 51) as usize;
    if index < 30 {
        index as u8
    } else {
        FROM_30[index - 30]
    }
}
