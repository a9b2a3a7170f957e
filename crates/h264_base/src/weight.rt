//! The weights of explicit weighted prediction (7.4.3.2, 8.4.2.3).
#![tactic(auto)]

/// How the predicted samples of one plane are weighted (8.4.2.3.2).
#[derive(Clone, Copy)]
pub struct Weight {
    /// luma_log2_weight_denom or chroma_log2_weight_denom, 0 to 7.
    pub log2_weight_denom: u8,
    /// -128 to 127 where the slice header has it, else 2 to the power of log2_weight_denom, at most 128.
    pub weight: i16,
    /// In samples: -128 to 127 where the slice header has it, else 0.
    pub offset: i16,
}

/// The weights of one reference index, a plane each.
#[derive(Clone, Copy)]
pub struct Weights {
    pub luma: Weight,
    pub cb: Weight,
    pub cr: Weight,
}
