//! The weights of a slice's reference indexes (7.4.3.2).
#![tactic(auto)]

ghost use Rattle.std.specs.Prelude.{◌≡◌, Some};
ghost use Rattle.std.specs.Option.{ForSome, option_map};
ghost use Rattle.h264_recon.specs.Table.{table};
ghost use Rattle.h264_recon.specs.Weights.{limited_weight, limited_offset, limited, all_limited, limited_at, AreInRange, EachInRange};

use h264_base::{Weight, Weights};

/// The weights of a slice's reference indexes, each in its range (7.4.3.2).
#[derive(Clone, Copy)]
pub struct SliceWeights {
    /// By refIdxL0, with none at an index whose predicted samples stay as they are; none at all where that holds of each index.
    pub by_index: Option<[Option<Weights>; 16]>,

    ghost in_range: { ForSome by_index EachInRange },
}

/// Clip3(-128, 128, z).
fn limited_weight(z: i16) -> i16
    ensures { result ≡ limited_weight z }
{
    z.clamp(-128, 128)
}

/// Clip3(-128, 127, z).
fn limited_offset(z: i16) -> i16
    ensures { result ≡ limited_offset z }
{
    z.clamp(-128, 127)
}

fn limited(w: Weight) -> Weight
    ensures { result ≡ limited w }
{
    Weight {
        log2_weight_denom: w.log2_weight_denom.min(7),
        weight: limited_weight(w.weight),
        offset: limited_offset(w.offset),
    }
}

/// Weights that are brought into their ranges (7.4.3.2).
fn all_limited(w: Weights) -> Weights
    ensures here { result ≡ all_limited w }
    ensures in_range { AreInRange result }
{
    Weights {
        luma: limited(w.luma),
        cb: limited(w.cb),
        cr: limited(w.cr),
    }
}

fn limited_if(weights: Option<Weights>) -> Option<Weights>
    ensures here { result ≡ option_map all_limited weights }
    ensures in_range { ForSome result AreInRange }
{
    match weights {
        None => None,
        Some(w) => Some(all_limited(w)),
    }
}

/// The weights of reference indexes, each brought into its range.
fn each_limited(weights: &[Option<Weights>; 16]) -> [Option<Weights>; 16]
    ensures here { result ≡ table 16 (limited_at weights.now) }
    ensures in_range { EachInRange result }
{
    let mut each = [None; 16];
    for k in 0..16 {
        each[k] = limited_if(weights[k]);
    }
    each
}

impl SliceWeights {
    /// No weights: the predicted samples stay as they are.
    pub const NONE: SliceWeights = SliceWeights { by_index: None };

    /// These weights by refIdxL0, each brought into its range, in which it is in each header that is accepted.
    pub fn new(weights: &[Option<Weights>; 16]) -> SliceWeights
        ensures { result.by_index ≡ Some (table 16 (limited_at weights.now)) }
    {
        SliceWeights {
            by_index: Some(each_limited(weights)),
        }
    }
}
