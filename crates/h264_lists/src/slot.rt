//! The places of a list.
#![tactic(auto)]

use h264_marking::ReferenceFrame;

/// What a reference index names.
#[derive(Clone, Copy, Debug, Default, PartialEq, Eq)]
pub enum RefSlot {
    /// "no reference picture".
    #[default]
    NoPicture,
    Held(ReferenceFrame),
}
