//! What a macroblock that was read gives to its construction (8.3, 8.4.2).
#![tactic(auto)]

ghost use Rattle.std.specs.Prelude.{◌≡◌, ℕ, ◌+◌, ◌*◌, ◌<◌, ◌&&◌, List, length, IsTrue, Some};
ghost use Rattle.h264_near.specs.Coded.{CodedMacroblock};
ghost use Rattle.h264_near.specs.Keeps.{Keeps, width_of};
ghost use Rattle.h264_vectors.specs.declared.slice.SliceContext.{SliceContext as Context};
ghost use Rattle.h264_near.specs.Partition.{MovesByPartition};
ghost use Rattle.h264_near.specs.declared.partition.Partition.{Partition as Partitions};
ghost use Rattle.h264_near.specs.declared.partition.Partition.TheVariants.{P16x16};
ghost use Rattle.h264_mbsyntax.specs.Holds.{HoldsMacroblock};
ghost use Rattle.h264_mbsyntax.specs.Possible.{IsPossible};
ghost use Rattle.h264_recon.specs.ReadLevels.{is_of_samples, is_pcm};
ghost use Rattle.h264_recon.specs.Constructed.{coded as coded_as, IsWithin};
ghost use Rattle.h264_recon.specs.Levels.{levels_of};
ghost use Rattle.h264_recon.specs.Given.{available as available_of, no_sides as no_sides_of, used_by, prediction_of, given as given_of, slice_settings};
ghost use Rattle.h264_recon.specs.Predicted.{prediction_in, placed_motion, unmoved as unmoved_in};
ghost use Rattle.h264_recon.specs.Placed.{ArePlaced, PointsInto, weights_by};

use crate::macroblock::{
    Available, IntraLuma, IntraModes, Macroblock, Motion, Motions, Position, Prediction,
    SliceReferences, Weighting,
};
use h264_inter::MotionVector;
use h264_mbsyntax::{Kind, Macroblock as Read};
use h264_near::{Motion as Derived, Near, Partition};
use h264_vectors::SliceContext;

/// Whether a macroblock is available and its place lies in the picture.
#[inline(always)]
fn lies(inside: bool, available: bool) -> bool
    ensures { result ≡ (inside && available) }
{
    if inside {
        return available;
    }
    false
}

/// Which macroblocks round the next one, which stands at this column and row, intra prediction may use (6.4.9, 8.3.1.2): those of its slice, and no
/// inter macroblocks where `constrained`, constrained_intra_pred_flag, is set.
pub fn available(near: &Near, slice: u32, constrained: bool, column: usize, row: usize) -> Available
    requires small { column < 1024 }
    ensures within { IsWithin result (width_of near.now) column row }
    ensures here { (width : ℕ) (picture : List CodedMacroblock) → Keeps width picture near.now → length picture ≡ row * width + column →
        column < width → result ≡ available_of width picture slice constrained }
{
    let samples = near.macroblock_samples(slice, constrained);
    let right = near.above_right(slice, constrained);
    Available {
        left: lies(column > 0, samples.left),
        above: lies(row > 0, samples.above),
        above_right: lies(row > 0, lies(column + 1 < near.width(), right)),
        corner: lies(column > 0, lies(row > 0, samples.corner)),
    }
}

/// The motion of a block that has none, or whose index names no place: the first place, and no vector.
#[inline(always)]
fn unmoved(places: &[u8; 16]) -> Motion
    ensures { result ≡ unmoved_in places.now }
{
    Motion {
        picture: places[0],
        vector: MotionVector { x: 0, y: 0 },
    }
}

/// A block's motion: its picture is the place that its index names.
#[inline]
pub fn motion(derived: Option<Derived>, places: &[u8; 16]) -> Motion
    ensures { result ≡ placed_motion places.now derived }
{
    match derived {
        None => unmoved(places),
        Some(m) => {
            let index = usize::from(m.ref_idx);
            if index < places.len() {
                return Motion {
                    picture: places[index],
                    vector: MotionVector {
                        x: m.vector.x,
                        y: m.vector.y,
                    },
                };
            }
            unmoved(places)
        }
    }
}

/// How a macroblock is predicted.
fn prediction<'a>(read: &'a Read, places: &'a [u8; 16]) -> Prediction<'a>
    ensures points { PointsInto places.now (prediction_in result) }
    ensures kind { is_of_samples (prediction_in result) ≡ is_pcm read.now.kind }
    ensures here { (slice : Context) (place : ℕ → ℕ) (width : ℕ) (picture : List CodedMacroblock) (coded : CodedMacroblock) → HoldsMacroblock read.now coded →
        IsPossible width slice picture coded.prediction → length slice.references ≡ 16 → ArePlaced slice places.now place →
        prediction_in result ≡ prediction_of place coded.prediction }
{
    match read.kind {
        Kind::Intra4x4 => Prediction::Intra(IntraModes {
            luma: IntraLuma::Blocks(read.contexts.modes),
            chroma: read.chroma_mode,
        }),
        Kind::Intra16x16 { mode } => Prediction::Intra(IntraModes {
            luma: IntraLuma::Whole(mode),
            chroma: read.chroma_mode,
        }),
        Kind::Pcm => Prediction::Pcm(&read.pcm),
        Kind::Inter { partition } => Prediction::Inter(Motions {
            partition,
            derived: &read.contexts.motions,
            places,
        }),
    }
}

/// How a macroblock that was read is partitioned, if it is an inter macroblock.
#[inline(always)]
pub fn partition_of(read: &Read) -> Option<Partition>
    ensures { (coded : CodedMacroblock) (p : Partitions) → HoldsMacroblock read.now coded → result ≡ Some p →
        MovesByPartition p read.now.contexts.motions }
{
    match read.kind {
        Kind::Inter { partition } => Some(partition),
        Kind::Intra4x4 => None,
        Kind::Intra16x16 { mode: _ } => None,
        Kind::Pcm => None,
    }
}

/// Whether the blocks of a macroblock that was read are known to be predicted alike.
#[inline(always)]
fn is_whole(read: &Read) -> bool
    ensures { (coded : CodedMacroblock) → HoldsMacroblock read.now coded → IsTrue result → MovesByPartition P16x16 read.now.contexts.motions }
{
    match partition_of(read) {
        None => false,
        Some(partition) => matches!(partition, Partition::P16x16),
    }
}

/// No sides.
#[inline(always)]
fn no_sides() -> Available
    ensures { result ≡ no_sides_of }
{
    Available {
        left: false,
        above: false,
        above_right: false,
        corner: false,
    }
}

/// The sides that the prediction of a macroblock that was read uses: those that intra prediction may use, and none for other macroblocks, which so do
/// not pay for them.
#[inline]
fn used(read: &Read, near: &Near, slice: &SliceContext, column: usize, row: usize) -> Available
    requires small { column < 1024 }
    ensures within { IsWithin result (width_of near.now) column row }
    ensures here { (width : ℕ) (picture : List CodedMacroblock) (coded : CodedMacroblock) → Keeps width picture near.now →
        length picture ≡ row * width + column → column < width → HoldsMacroblock read.now coded →
        result ≡ used_by coded.prediction (available_of width picture slice.now.number slice.now.constrained_intra) }
{
    match read.kind {
        Kind::Intra4x4 => available(near, slice.number, slice.constrained_intra, column, row),
        Kind::Intra16x16 { mode: _ } => {
            available(near, slice.number, slice.constrained_intra, column, row)
        }
        Kind::Pcm => no_sides(),
        Kind::Inter { partition: _ } => no_sides(),
    }
}

/// What a macroblock that was read, after those that `near` keeps and at this position, gives to its construction: the sides that intra prediction may
/// use, its modes, motions or samples, and the weights of the latter.
pub fn given<'a>(
    read: &'a Read,
    near: &Near,
    slice: &SliceContext,
    references: &SliceReferences<'a>,
    position: Position,
) -> Macroblock<'a>
    requires small { position.column < 1024 }
    ensures within { IsWithin result.available (width_of near.now) position.column position.row }
    ensures points { PointsInto references.now.places.now (prediction_in result.prediction) }
    ensures kind { is_of_samples (prediction_in result.prediction) ≡ is_pcm read.now.kind }
    ensures given { (width : ℕ) (picture : List CodedMacroblock) (place : ℕ → ℕ) (coded : CodedMacroblock) → Keeps width picture near.now →
        length picture ≡ position.row * width + position.column → position.column < width → HoldsMacroblock read.now coded → coded.slice ≡ slice.now.number →
        IsPossible width slice.now picture coded.prediction → length slice.now.references ≡ 16 →
        ArePlaced slice.now references.now.places.now place →
        coded_as result (levels_of slice.now.chroma_qp_index_offset coded) ≡ given_of width picture place
        (slice_settings (weights_by references.now.weights.now) slice.now.constrained_intra slice.now.chroma_qp_index_offset) coded }
{
    Macroblock {
        available: used(read, near, slice, position.column, position.row),
        prediction: prediction(read, references.places),
        weighting: Weighting {
            weights: references.weights,
            motions: &read.contexts.motions,
            whole: is_whole(read),
        },
    }
}
