//! One macroblock of a picture in the making: constructed in place (8.3, 8.4, 8.5), and filtered after it (8.7).
#![tactic(auto)]

ghost use Rattle.std.specs.Prelude.{◌≡◌, ℕ, ◌+◌, ◌*◌, ◌<◌, ◌≤◌, ◌↔◌, true, IsTrue, IsOk, IfOk, List, [], ◌∷◌, ◌++◌, length, vec_len};
ghost use Rattle.h264_plane.specs.Samples.{IsSized};
ghost use Rattle.h264_plane.specs.Frames.{plane_of};
ghost use Rattle.h264_plane.specs.declared.frame.Component.{Component};
ghost use Rattle.h264_near.specs.Coded.{CodedMacroblock};
ghost use Rattle.h264_near.specs.Keeps.{Keeps, AreContexts};
ghost use Rattle.h264_near.specs.Skips.{IsSkipped};
ghost use Rattle.h264_scale.specs.Macroblock.{levels_fit};
ghost use Rattle.h264_scale.specs.declared.levels.Levels.{Levels};
ghost use Rattle.h264_deblock.specs.Steps.{MovesBy};
ghost use Rattle.h264_recon.specs.Inter.{Setting};
ghost use Rattle.h264_recon.specs.Constructed.{coded as coded_as, IsPossible};
ghost use Rattle.h264_recon.specs.Lines.{store_of};
ghost use Rattle.h264_recon.specs.Placed.{weights_by};
ghost use Rattle.h264_recon.specs.Predicted.{prediction_in};
ghost use Rattle.h264_recon.specs.ReadLevels.{levels_in, is_pcm, is_of_samples};
ghost use Rattle.h264_recon.specs.Residuals.{HasNoResidual};
ghost use Rattle.h264_recon.specs.Skips.{skipped as skipped_by, prediction_by};
ghost use Rattle.h264_recon.specs.Pool.{AreShown, AreUsable};
ghost use Rattle.h264_picture.specs.Decoded.{Parameters, filters, given_by};
ghost use Rattle.h264_picture.specs.Held.{IsHeld};

use h264_deblock::{Coded, CodedSkip, filter_coded, filter_skipped};
use h264_plane::{Frame, Pool};
use h264_recon::{
    Lines, Macroblock, Position, ReadLevels, SliceReferences, construct, construct_skipped,
};
use h264_scale::TransformRange;

/// What follows the prediction of a macroblock.
#[derive(Clone, Copy)]
pub struct Finish<'a> {
    /// The levels of its residual.
    pub levels: ReadLevels<'a>,
    /// What its edges are filtered by.
    pub coded: Coded<'a>,
}

/// Goes on by the macroblock at a position: constructs it in the frame from the lines, brings these up to date, and filters its edges. Where
/// frame and lines hold a coded picture so far, they hold it with this macroblock: after every macroblock of a slice there are samples that meet the
/// equations of all macroblocks so far (8.3, 8.4, 8.5), and the frame holds them, filtered by the edges so far (8.7). `TransformRange` where a value
/// of the macroblock's transform is out of range: of its samples nothing is said then.
pub fn go_on(
    lines: &mut Lines,
    frame: &mut Frame,
    m: &Macroblock,
    finish: &Finish<'_>,
    pool: &Pool,
    position: Position,
) -> Result<(), TransformRange>
    requires usable { AreUsable pool.now position.column position.row (prediction_in m.now.prediction) }
    requires y { (16 * position.column + 16 ≤ frame.old.y.width) × (16 * position.row + 16 ≤ frame.old.y.height) }
    requires cb { (8 * position.column + 8 ≤ frame.old.cb.width) × (8 * position.row + 8 ≤ frame.old.cb.height) }
    requires cr { (8 * position.column + 8 ≤ frame.old.cr.width) × (8 * position.row + 8 ≤ frame.old.cr.height) }
    requires small { (position.column < 1024) × (position.row < 1024) }
    requires y_lines { 16 * position.column + 16 ≤ vec_len lines.old.y.above }
    requires cb_lines { 8 * position.column + 8 ≤ vec_len lines.old.cb.above }
    requires cr_lines { 8 * position.column + 8 ≤ vec_len lines.old.cr.above }
    requires more { IsTrue m.now.available.above_right → 16 * position.column + 20 ≤ vec_len lines.old.y.above }
    requires qp { finish.now.levels.read.now.qp ≤ 51 }
    ensures lines { (p : Component) → vec_len (store_of p lines.new).above ≡ vec_len (store_of p lines.old).above }
    ensures size { (p : Component) → IsSized (plane_of p frame.new) (plane_of p frame.old).width (plane_of p frame.old).height }
    ensures range { is_of_samples (prediction_in m.now.prediction) ≡ is_pcm finish.now.levels.read.now.kind →
        IsOk result ↔ IsTrue (levels_fit (levels_in finish.now.levels)) }
    ensures held { IfOk result (λ _. (k : Setting) (place : ℕ → ℕ) (slices : ℕ → Parameters) (picture : List CodedMacroblock) (q : CodedMacroblock) →
        length picture ≡ position.row * k.across + position.column → position.column < k.across → position.row < k.down →
        AreShown k pool.now (prediction_in m.now.prediction) → IsPossible (prediction_in m.now.prediction) m.now.available →
        coded_as m.now (levels_in finish.now.levels) ≡ given_by k.across picture place (slices q.slice) q →
        MovesBy finish.now.coded.partition finish.now.coded.own.now.motions →
        Keeps k.across picture finish.now.coded.near.now → AreContexts finish.now.coded.own.now q →
        filters slices q.slice ≡ finish.now.coded.filter.now → ((n : ℕ) → (filters slices
        n).chroma_qp_index_offset ≡ finish.now.coded.filter.now.chroma_qp_index_offset) → IsHeld k place slices lines.old frame.old picture →
        IsHeld k place slices lines.new frame.new (picture ++ q ∷ [])) }
{
    construct(lines, frame, m, &finish.levels, pool, position)?;
    filter_coded(frame, &finish.coded, position.column, position.row);
    Ok(())
}

/// Goes on by a skipped macroblock at a position, likewise.
pub fn go_on_skipped(
    lines: &mut Lines,
    frame: &mut Frame,
    coded: &CodedSkip<'_>,
    references: &SliceReferences<'_>,
    pool: &Pool,
    position: Position,
)
    requires usable { AreUsable pool.now position.column position.row (prediction_by coded.now.own.now references.now.places.now) }
    requires y { (16 * position.column + 16 ≤ frame.old.y.width) × (16 * position.row + 16 ≤ frame.old.y.height) }
    requires cb { (8 * position.column + 8 ≤ frame.old.cb.width) × (8 * position.row + 8 ≤ frame.old.cb.height) }
    requires cr { (8 * position.column + 8 ≤ frame.old.cr.width) × (8 * position.row + 8 ≤ frame.old.cr.height) }
    requires small { (position.column < 1024) × (position.row < 1024) }
    requires y_lines { 16 * position.column + 16 ≤ vec_len lines.old.y.above }
    requires cb_lines { 8 * position.column + 8 ≤ vec_len lines.old.cb.above }
    requires cr_lines { 8 * position.column + 8 ≤ vec_len lines.old.cr.above }
    ensures lines { (p : Component) → vec_len (store_of p lines.new).above ≡ vec_len (store_of p lines.old).above }
    ensures size { (p : Component) → IsSized (plane_of p frame.new) (plane_of p frame.old).width (plane_of p frame.old).height }
    ensures held { (k : Setting) (place : ℕ → ℕ) (slices : ℕ → Parameters) (picture : List CodedMacroblock) (q : CodedMacroblock) (l : Levels) →
        length picture ≡ position.row * k.across + position.column → position.column < k.across → position.row < k.down →
        AreShown k pool.now (prediction_by coded.now.own.now references.now.places.now) → HasNoResidual l →
        skipped_by coded.now.own.now references.now.places.now (weights_by references.now.weights.now) l ≡ given_by k.across picture place (slices q.slice) q →
        Keeps k.across picture coded.now.near.now → IsSkipped coded.now.own.now q →
        filters slices q.slice ≡ coded.now.filter.now → ((n : ℕ) → (filters slices
        n).chroma_qp_index_offset ≡ coded.now.filter.now.chroma_qp_index_offset) → IsHeld k place slices lines.old frame.old picture →
        IsHeld k place slices lines.new frame.new (picture ++ q ∷ []) }
{
    construct_skipped(lines, frame, coded.own, references, pool, position);
    filter_skipped(frame, coded, position.column, position.row);
}
