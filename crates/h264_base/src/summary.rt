//! What is said of a stream that is legal.
#![tactic(auto)]

/// What a whole stream has, where it is legal.
#[derive(Clone, Copy, Debug, PartialEq, Eq)]
pub struct Summary {
    /// The units.
    pub units: u64,
    /// The pictures; 0 where slices are passed over.
    pub pictures: u64,
    /// The frames that were written; 0 where none are made.
    pub frames: u64,
}
