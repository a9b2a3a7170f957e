//! What is noted of a picture.
#![tactic(auto)]

/// What a picture is predicted from.
#[derive(Clone, Copy)]
pub enum PictureKind {
    /// An instantaneous decoding refresh picture: nal_unit_type 5.
    Idr,
    /// Slices of type I alone, which is no IDR picture.
    I,
    /// At least one slice of type P.
    P,
}

/// A picture whose first slice was read.
#[derive(Clone, Copy)]
pub struct Picture {
    pub kind: PictureKind,
    /// Whether its nal_ref_idc is not 0.
    pub is_reference: bool,
    pub frame_num: u64,
    /// The byte of the input where its first unit begins.
    pub byte: u64,
    /// The bytes of its slices' units.
    pub bytes: u64,
    pub slices: u64,
    /// Whether it has memory_management_control_operation 5, so that its frame_num counts as 0 afterwards (7.4.3).
    pub resets: bool,
}
