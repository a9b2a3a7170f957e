//! How slice data stand.
#![tactic(auto)]

/// How slice data stand between two macroblocks.
#[derive(Clone, Copy)]
pub enum Standing {
    /// The next macroblock, or in a P slice the next run of skipped ones, is to be read.
    Next,
    /// So many more are skipped, by the mb_skip_run at this stream bit.
    Skipping { bit: u64, more: u32 },
}
