//! What a level allows.
#![tactic(auto)]

/// The limits of a level that bear on frame size, picture buffer and vectors.
#[derive(Clone, Copy, Debug, PartialEq, Eq)]
pub struct Limits {
    /// MaxFS: the greatest frame size, in macroblocks.
    pub max_fs: u32,
    /// MaxDpbMbs: the greatest size of the decoded picture buffer, in macroblocks.
    pub max_dpb_mbs: u32,
    /// v, where vertical vector components lie in -v up to v - 1/4, in luma samples.
    pub max_vector: u32,
}
