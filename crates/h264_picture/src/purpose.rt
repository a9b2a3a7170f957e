//! What pictures are decoded for.
#![tactic(auto)]

/// What the pictures of a stream are decoded for.
#[derive(Clone, Copy, Debug, PartialEq, Eq)]
pub enum Purpose {
    /// Their frames.
    Frames,
    /// The verdict alone: no sample is made, and no frame is lent.
    Verdict,
}
