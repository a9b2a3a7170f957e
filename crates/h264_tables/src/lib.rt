//! The tables of H.264 that other stages look values up in: the limits of the levels (A.3.1), the code words of
//! coded_block_pattern (9.1.2) and of residual blocks (9.2), the chroma quantisation parameter (8.5.8), and the
//! thresholds of the deblocking filter (8.7.2.2).
//!
//! `specs/` has each table as its rows, and every lookup here is proved to give exactly them, and nothing where no row is.
//! Nothing here reads a stream or decides what breaks a rule.
#![tactic(auto)]

/// The length and the value of the word that 16 bits begin with, from a table's entries. The last `unused` bits are beyond its
/// longest word. Where the first 1 stands tells a run of `run` entries, and the bits after it the entry in that run;
/// `top` is 31 less the number of those bits.
macro_rules! entry {
    ($bits:ident, $unused:literal, $top:literal, $run:literal, $lengths:ident, $values:ident) => {{
        let front = ($bits as u32) >> $unused;
        let shift = u32::saturating_sub($top, front.leading_zeros());
        let entry = ($run * shift + (front >> shift)) as usize;
        ($lengths[entry], $values[entry])
    }};
}

pub mod code_words;
mod coded_block_pattern;
mod coeff_token;
pub mod front;
mod inverted_bit;
pub mod laws;
pub mod level;
pub mod level_limits;
mod level_prefix;
pub mod quantisation;
mod run_before;
pub mod table;
pub mod thresholds;
mod total_zeros;

pub use code_words::{CodeWord, code_word};
pub use front::{Entry, lookup};
pub use level::Limits;
pub use level_limits::limits;
pub use quantisation::chroma_qp;
pub use table::Table;
pub use thresholds::{Strength, alpha, beta, tc0};
