//! The levels of blocks that were read, as their transform takes them (8.5).
#![tactic(auto)]

ghost use Rattle.std.specs.Prelude.{◌≡◌, ◌≤◌};
ghost use Rattle.h264_tables.specs.ChromaQp.{chroma_qp_of};
ghost use Rattle.h264_mbsyntax.specs.Stored.{shown};
ghost use Rattle.h264_recon.specs.Levels.{are_zero};

use h264_tables::chroma_qp;

/// The levels of a block of which so many are not 0.
#[inline]
pub(crate) fn shown16(stands: &[i16; 16], total: u8) -> [i16; 16]
    ensures { result ≡ shown 16 total stands.now }
{
    if total == 0 {
        return [0; 16];
    }
    *stands
}

#[inline]
pub(crate) fn shown4(stands: &[i16; 4], total: u8) -> [i16; 4]
    ensures { result ≡ shown 4 total stands.now }
{
    if total == 0 {
        return [0; 4];
    }
    *stands
}

/// Whether no level is other than 0, with no branch.
#[inline(always)]
pub(crate) fn are_zero(levels: &[i16; 4]) -> bool
    ensures { result ≡ are_zero levels.now }
{
    let mut zero = true;
    for level in levels {
        zero &= *level == 0;
    }
    zero
}

/// QP'C by QP_Y and chroma_qp_index_offset (8.5.8).
pub(crate) fn qp_of_chroma(qp: u8, offset: i32) -> u8
    requires { qp ≤ 51 }
    ensures here { result ≡ chroma_qp_of qp offset }
    ensures within { result ≤ 51 }
{
    if offset < -51 {
        return chroma_qp(qp, -51);
    }
    if offset > 51 {
        return chroma_qp(qp, 51);
    }
    chroma_qp(qp, offset as i8)
}
