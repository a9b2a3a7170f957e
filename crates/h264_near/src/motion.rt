//! Vectors and what they point into (8.4.1).
#![tactic(auto)]

/// A vector in quarter luma samples.
#[derive(Clone, Copy)]
pub struct Vector {
    pub x: i16,
    pub y: i16,
}

/// What a block is predicted from.
#[derive(Clone, Copy)]
pub struct Motion {
    /// The number of the reference picture that the index names in its slice. The largest field comes first, so that a motion is short.
    pub picture: u64,
    pub vector: Vector,
    /// refIdxL0.
    pub ref_idx: u8,
}
