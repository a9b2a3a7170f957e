//! The picture that is decoded.
#![tactic(auto)]

use h264_near::Near;
use h264_recon::Position;

/// The picture that is decoded, as far as the syntax of its next macroblock asks for it. Its memory is that of the sequence, and serves one
/// picture after another.
#[derive(Drop)]
pub(crate) struct Picture {
    /// The contexts of the macroblocks above and to the left of the next one.
    pub(crate) near: Near,
    /// The address of the next macroblock.
    pub(crate) next: u32,
    /// Where it stands.
    pub(crate) position: Position,
}
