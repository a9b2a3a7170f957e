//! What is judged, and for whom.
#![tactic(auto)]

/// How far a stream is judged.
#[derive(Clone, Copy, Debug, PartialEq, Eq)]
pub enum Mode {
    /// The byte stream, its units, and the parameter sets. Slices are passed over.
    Units,
    /// These, and slice headers with the order of frames that they give.
    Headers,
    /// These, and slice data. Every rule is judged as in `Full`, and no frame is made.
    Verdict,
    /// These, and slice data, of which the frames are made.
    Full,
}

/// The kind of decoder that the stream has to suit.
#[derive(Clone, Copy, Debug, PartialEq, Eq)]
pub enum Target {
    /// Constrained Baseline (A.2.1.1), 8 bits, 4:2:0, progressive, levels 1 to 5.2.
    Baseline,
    /// Main's progressive streams of I and P slices in CAVLC, with explicit weighted prediction (A.2.2, 8.4.2.3).
    MainIP,
}

/// The type of a slice (7.4.3), less the statement on the other slices of its picture.
#[derive(Clone, Copy, Debug, PartialEq, Eq)]
pub enum SliceType {
    /// Predicted from other pictures too.
    P,
    /// Predicted from samples of the same slice alone.
    I,
}
