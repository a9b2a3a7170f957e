//! What the deblocking filter takes from a slice (7.4.3).
#![tactic(auto)]

ghost use Rattle.std.specs.Prelude.{◌≡◌};
ghost use Rattle.h264_deblock.specs.CodedEdges.{filters};

/// Which edges of its macroblocks a slice has filtered: disable_deblocking_filter_idc (7.4.3).
#[derive(Clone, Copy)]
pub enum Deblocking {
    /// 0: all.
    AllEdges,
    /// 1: none.
    Off,
    /// 2: not those between slices.
    WithinSlice,
}

/// What the filter of a slice's macroblocks depends on.
#[derive(Clone, Copy)]
pub struct SliceFilter {
    pub deblocking: Deblocking,
    /// FilterOffsetA, -12 to 12.
    pub filter_offset_a: i8,
    /// FilterOffsetB, -12 to 12.
    pub filter_offset_b: i8,
    /// -12 to 12.
    pub chroma_qp_index_offset: i32,
}

/// Whether an edge is filtered, by the slice of q, and whether p is of the same.
#[inline]
pub(crate) fn is_filtered(deblocking: Deblocking, same: bool) -> bool
    ensures { result ≡ filters deblocking same }
{
    match deblocking {
        Deblocking::AllEdges => true,
        Deblocking::Off => false,
        Deblocking::WithinSlice => same,
    }
}
