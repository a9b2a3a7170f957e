//! Which calls of a stream have lines.
#![tactic(auto)]

/// Which calls a `LineSink` writes a line for.
#[derive(Clone, Copy, Debug, PartialEq, Eq)]
pub enum Listing {
    /// None.
    Nothing,
    /// The units.
    Units,
    /// The slices.
    Slices,
    /// The frames, in the order of output.
    Frames,
    /// The units, the slices, and the syntax elements.
    Elements,
}
