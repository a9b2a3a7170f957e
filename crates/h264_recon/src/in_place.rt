ghost use Rattle.std.specs.Prelude.{◌≡◌, ℕ, ◌+◌, ◌*◌, ◌<◌, ◌≤◌, ◌↔◌, List, IsTrue, IsOk, IfOk, vec_len};
ghost use Rattle.h264_plane.specs.declared.frame.Component.{Component};
ghost use Rattle.h264_plane.specs.declared.frame.Component.TheVariants.{Y, Cb, Cr};
ghost use Rattle.h264_plane.specs.Samples.{IsSized};
ghost use Rattle.h264_plane.specs.Frames.{plane_of};
ghost use Rattle.h264_intra.specs.Chroma.{is_possible_chroma, predicted_chroma};
ghost use Rattle.h264_intra.specs.Filters.{HasSamples};
ghost use Rattle.h264_recon.specs.Blocks.{sides_of};
ghost use Rattle.h264_recon.specs.Inter.{Setting, position_at};
ghost use Rattle.h264_scale.specs.Macroblock.{luma_fits, levels_fit};
ghost use Rattle.h264_recon.specs.ReadLevels.{levels_in, is_pcm, is_of_samples};
ghost use Rattle.h264_recon.specs.Residuals.{HasNoResidual};
ghost use Rattle.h264_scale.specs.declared.levels.Levels.{Levels};
ghost use Rattle.h264_recon.specs.Constructed.{Coded, coded, IsPossibleLuma, IsPossible, IsAllowed, IsMade};
ghost use Rattle.h264_recon.specs.declared.store.Lines.{Lines};
ghost use Rattle.h264_recon.specs.Lines.{AreMadeFrom, IsLumaMade, AreStored, samples_of, store_of, local};
ghost use Rattle.h264_recon.specs.Predicted.{Intra, Inter, motions_in, prediction_in};
ghost use Rattle.h264_recon.specs.Placed.{weights_in, weights_by};
ghost use Rattle.h264_recon.specs.Pool.{AreShown, AreUsable, HaveRoom};
ghost use Rattle.h264_recon.specs.Skips.{skipped as skipped_by, prediction_by};
ghost use Rattle.h264_recon.specs.Step.{ArePlaced, AreSaved, HasMacroblock, joined};

use crate::added::{add_chroma, add_luma, add_residual};
use crate::blocks::luma4;
use crate::input::motion;
use crate::inter::{predict, predict_whole};
use crate::intra::{neighbours_chroma, neighbours16};
use crate::macroblock::{
    Available, IntraLuma, IntraModes, Macroblock, Motions, Position, Prediction, SliceReferences,
    Weighting,
};
use crate::pcm;
use crate::scaled::ReadLevels;
use crate::store::{Lines, Samples, Store};
use crate::sum::add_nothing;
use crate::weighing::{weigh_all, weigh_skipped};
use h264_intra::{IntraChromaPredMode, predict_chroma as predict_intra_chroma, predict16};
use h264_near::Skipped;
use h264_plane::{Component, Frame, Pool};
use h264_scale::TransformRange;

/// Constructs the luma samples of an intra macroblock.
#[inline(never)]
fn luma_intra(
    luma: &IntraLuma,
    available: Available,
    levels: &ReadLevels<'_>,
    store: &Store,
    column: usize,
    own: &mut [u8; 256],
) -> Result<(), TransformRange>
    requires columns { 16 * column + 16 ≤ vec_len store.now.above }
    requires more { IsTrue available.above_right → 16 * column + 20 ≤ vec_len store.now.above }
    requires small { column < 1024 }
    requires qp { levels.now.read.now.qp ≤ 51 }
    ensures range { IsOk result ↔ IsTrue (luma_fits (levels_in levels.now).qp (levels_in levels.now).luma) }
    ensures made { IfOk result (λ u. IsPossibleLuma luma.now available →
        IsLumaMade luma.now available (levels_in levels.now) column store.now own.new) }
{
    match luma {
        IntraLuma::Blocks(modes) => luma4(modes, available, levels, store, column, own),
        IntraLuma::Whole(mode) => {
            *own = predict16(*mode, &neighbours16(store, column, available));
            add_luma(levels, own)
        }
    }
}

/// The predicted samples of a chroma plane of an intra macroblock.
#[inline(never)]
fn chroma_intra(
    mode: IntraChromaPredMode,
    available: Available,
    store: &Store,
    column: usize,
) -> [u8; 64]
    requires columns { 8 * column + 8 ≤ vec_len store.now.above }
    requires small { column < 1024 }
    ensures { (own : List ℕ) → IsTrue (is_possible_chroma mode (sides_of available)) →
        HasSamples 8 result (predicted_chroma mode (sides_of available) (local 8 store.now column own)) }
{
    predict_intra_chroma(mode, &neighbours_chroma(store, column, available))
}

/// Constructs the samples of an intra macroblock. A function of its own, so that inter macroblocks clear nothing for it.
#[inline(never)]
fn make_intra(
    modes: &IntraModes,
    available: Available,
    levels: &ReadLevels<'_>,
    lines: &mut Lines,
    column: usize,
) -> Result<(), TransformRange>
    requires y_lines { 16 * column + 16 ≤ vec_len lines.old.y.above }
    requires cb_lines { 8 * column + 8 ≤ vec_len lines.old.cb.above }
    requires cr_lines { 8 * column + 8 ≤ vec_len lines.old.cr.above }
    requires more { IsTrue available.above_right → 16 * column + 20 ≤ vec_len lines.old.y.above }
    requires small { column < 1024 }
    requires qp { levels.now.read.now.qp ≤ 51 }
    ensures range { IsOk result ↔ IsTrue (levels_fit (levels_in levels.now)) }
    ensures made { IfOk result (λ u. (k : Setting) (r : ℕ) (m : Coded) → m.prediction ≡ Intra modes.now → m.available ≡ available →
        IsPossible m.prediction m.available → m.levels ≡ levels_in levels.now → AreMadeFrom k (position_at column r) m lines.old lines.new.last) }
    ensures above { (p : Component) → (store_of p lines.new).above ≡ (store_of p lines.old).above }
{
    lines.bring_left();
    let own = &mut lines.last;
    luma_intra(&modes.luma, available, levels, &lines.y, column, &mut own.y)?;
    own.cb = chroma_intra(modes.chroma, available, &lines.cb, column);
    own.cr = chroma_intra(modes.chroma, available, &lines.cr, column);
    add_chroma(levels, &mut own.cb, &mut own.cr)
}

/// Constructs the samples of an inter macroblock at its position.
#[inline(always)]
fn make_inter(
    motions: &Motions,
    weighting: Weighting,
    levels: &ReadLevels<'_>,
    pool: &Pool,
    position: Position,
    own: &mut Samples,
) -> Result<(), TransformRange>
    requires usable { HaveRoom pool.now position.column position.row (motions_in motions.now) }
    requires small { (position.column < 1024) × (position.row < 1024) }
    requires qp { levels.now.read.now.qp ≤ 51 }
    ensures range { IsOk result ↔ IsTrue (levels_fit (levels_in levels.now)) }
    ensures made { IfOk result (λ u. (k : Setting) (m : Coded) (lines : Lines) → position.column < k.across → position.row < k.down →
        m.prediction ≡ Inter (motions_in motions.now) → m.weights ≡ weights_in weighting.entry → AreShown k pool.now m.prediction →
        m.levels ≡ levels_in levels.now → AreMadeFrom k position m lines own.new) }
{
    predict(motions, pool, position, own);
    weigh_all(weighting, own);
    add_residual(levels, own)
}

/// Constructs the samples of a macroblock in the place of those of the one before it.
#[inline(always)]
fn make(
    m: &Macroblock,
    levels: &ReadLevels<'_>,
    lines: &mut Lines,
    pool: &Pool,
    position: Position,
) -> Result<(), TransformRange>
    requires usable { AreUsable pool.now position.column position.row (prediction_in m.now.prediction) }
    requires y_lines { 16 * position.column + 16 ≤ vec_len lines.old.y.above }
    requires cb_lines { 8 * position.column + 8 ≤ vec_len lines.old.cb.above }
    requires cr_lines { 8 * position.column + 8 ≤ vec_len lines.old.cr.above }
    requires more { IsTrue m.now.available.above_right → 16 * position.column + 20 ≤ vec_len lines.old.y.above }
    requires small { (position.column < 1024) × (position.row < 1024) }
    requires qp { levels.now.read.now.qp ≤ 51 }
    ensures range { is_of_samples (prediction_in m.now.prediction) ≡ is_pcm levels.now.read.now.kind →
        IsOk result ↔ IsTrue (levels_fit (levels_in levels.now)) }
    ensures made { IfOk result (λ u. (k : Setting) → position.column < k.across → position.row < k.down →
        IsPossible (prediction_in m.now.prediction) m.now.available → AreShown k pool.now (prediction_in m.now.prediction) →
        AreMadeFrom k position (coded m.now (levels_in levels.now)) lines.old lines.new.last) }
    ensures above { (p : Component) → (store_of p lines.new).above ≡ (store_of p lines.old).above }
{
    match &m.prediction {
        Prediction::Intra(modes) => {
            make_intra(modes, m.available, levels, lines, position.column)
        }
        Prediction::Inter(motions) => {
            let own = &mut lines.last;
            make_inter(motions, m.weighting, levels, pool, position, own)
        }
        Prediction::Pcm(samples) => {
            pcm::put(samples, &mut lines.last);
            Ok(())
        }
    }
}

/// Writes the samples of a macroblock into the frame.
#[inline(always)]
fn place(frame: &mut Frame, column: usize, row: usize, own: &Samples)
    requires y { (16 * column + 16 ≤ frame.old.y.width) × (16 * row + 16 ≤ frame.old.y.height) }
    requires cb { (8 * column + 8 ≤ frame.old.cb.width) × (8 * row + 8 ≤ frame.old.cb.height) }
    requires cr { (8 * column + 8 ≤ frame.old.cr.width) × (8 * row + 8 ≤ frame.old.cr.height) }
    requires small { (column < 1024) × (row < 1024) }
    ensures { ArePlaced column row (samples_of own.now) frame.old frame.new }
{
    frame.put_block::<16, 16>(Component::Y, 16 * column, 16 * row, &own.y);
    frame.put_block::<8, 8>(Component::Cb, 8 * column, 8 * row, &own.cb);
    frame.put_block::<8, 8>(Component::Cr, 8 * column, 8 * row, &own.cr);
}

/// Keeps the borders of the macroblock at this column, which was constructed last.
#[inline(always)]
fn save(lines: &mut Lines, column: usize)
    requires y { 16 * column + 16 ≤ vec_len lines.old.y.above }
    requires cb { 8 * column + 8 ≤ vec_len lines.old.cb.above }
    requires cr { 8 * column + 8 ≤ vec_len lines.old.cr.above }
    requires small { column < 1024 }
    ensures { AreSaved column lines.old lines.new }
{
    lines.y.save_luma(column, &lines.last.y);
    lines.cb.save_chroma(column, &lines.last.cb);
    lines.cr.save_chroma(column, &lines.last.cr);
}

/// Constructs the macroblock at a position in the frame, from the lines, and brings these up to date. Touches each of
/// its samples, and no other one of the frame. `TransformRange` where a value of its transform is out of range: nothing is said of its samples then.
pub fn construct(
    lines: &mut Lines,
    frame: &mut Frame,
    m: &Macroblock,
    levels: &ReadLevels<'_>,
    pool: &Pool,
    position: Position,
) -> Result<(), TransformRange>
    requires usable { AreUsable pool.now position.column position.row (prediction_in m.now.prediction) }
    requires y { (16 * position.column + 16 ≤ frame.old.y.width) × (16 * position.row + 16 ≤ frame.old.y.height) }
    requires cb { (8 * position.column + 8 ≤ frame.old.cb.width) × (8 * position.row + 8 ≤ frame.old.cb.height) }
    requires cr { (8 * position.column + 8 ≤ frame.old.cr.width) × (8 * position.row + 8 ≤ frame.old.cr.height) }
    requires small { (position.column < 1024) × (position.row < 1024) }
    requires y_lines { 16 * position.column + 16 ≤ vec_len lines.old.y.above }
    requires cb_lines { 8 * position.column + 8 ≤ vec_len lines.old.cb.above }
    requires cr_lines { 8 * position.column + 8 ≤ vec_len lines.old.cr.above }
    requires more { IsTrue m.now.available.above_right → 16 * position.column + 20 ≤ vec_len lines.old.y.above }
    requires qp { levels.now.read.now.qp ≤ 51 }
    ensures lines { (p : Component) → vec_len (store_of p lines.new).above ≡ vec_len (store_of p lines.old).above }
    ensures size { (p : Component) → IsSized (plane_of p frame.new) (plane_of p frame.old).width (plane_of p frame.old).height }
    ensures range { is_of_samples (prediction_in m.now.prediction) ≡ is_pcm levels.now.read.now.kind →
        IsOk result ↔ IsTrue (levels_fit (levels_in levels.now)) }
    ensures step { IfOk result (λ _. (k : Setting) (u : Component → ℕ → ℕ → ℕ) → position.column < k.across → position.row < k.down →
        IsAllowed (coded m.now (levels_in levels.now)) k.across position.column position.row → AreShown k pool.now (prediction_in m.now.prediction) →
        IsMade k position.column position.row (coded m.now (levels_in levels.now)) u → AreStored k.across position.column position.row u lines.old →
        AreStored k.across (position.column + 1) position.row u lines.new × HasMacroblock position.column position.row u frame.old frame.new) }
    ensures some { IfOk result (λ _. (k : Setting) (u : Component → ℕ → ℕ → ℕ) → position.column < k.across → position.row < k.down →
        IsAllowed (coded m.now (levels_in levels.now)) k.across position.column position.row → AreShown k pool.now (prediction_in m.now.prediction) →
        AreStored k.across position.column position.row u lines.old →
        IsMade k position.column position.row (coded m.now (levels_in levels.now)) (joined position.column position.row frame.new u)) }
{
    make(m, levels, lines, pool, position)?;
    place(frame, position.column, position.row, &lines.last);
    save(lines, position.column);
    Ok(())
}

/// Constructs the samples of a skipped macroblock in the place of those of the one before it.
#[inline(always)]
fn make_skipped(
    skipped: &Skipped,
    references: &SliceReferences<'_>,
    lines: &mut Lines,
    pool: &Pool,
    position: Position,
)
    requires usable { AreUsable pool.now position.column position.row (prediction_by skipped.now references.now.places.now) }
    requires small { (position.column < 1024) × (position.row < 1024) }
    ensures made { (k : Setting) (l : Levels) → position.column < k.across → position.row < k.down →
        AreShown k pool.now (prediction_by skipped.now references.now.places.now) → HasNoResidual l → AreMadeFrom k position
        (skipped_by skipped.now references.now.places.now (weights_by references.now.weights.now) l) lines.old lines.new.last }
    ensures above { (p : Component) → (store_of p lines.new).above ≡ (store_of p lines.old).above }
{
    let whole = motion(Some(skipped.motion), references.places);
    let own = &mut lines.last;
    predict_whole(whole, pool, position.column, position.row, own);
    weigh_skipped(references.weights, skipped.motion, own);
    add_nothing::<256>(&mut own.y);
    add_nothing::<64>(&mut own.cb);
    add_nothing::<64>(&mut own.cr);
}

/// Constructs a skipped macroblock at a position in the frame, likewise: prediction from one motion, and no residual.
pub fn construct_skipped(
    lines: &mut Lines,
    frame: &mut Frame,
    skipped: &Skipped,
    references: &SliceReferences<'_>,
    pool: &Pool,
    position: Position,
)
    requires usable { AreUsable pool.now position.column position.row (prediction_by skipped.now references.now.places.now) }
    requires y { (16 * position.column + 16 ≤ frame.old.y.width) × (16 * position.row + 16 ≤ frame.old.y.height) }
    requires cb { (8 * position.column + 8 ≤ frame.old.cb.width) × (8 * position.row + 8 ≤ frame.old.cb.height) }
    requires cr { (8 * position.column + 8 ≤ frame.old.cr.width) × (8 * position.row + 8 ≤ frame.old.cr.height) }
    requires small { (position.column < 1024) × (position.row < 1024) }
    requires y_lines { 16 * position.column + 16 ≤ vec_len lines.old.y.above }
    requires cb_lines { 8 * position.column + 8 ≤ vec_len lines.old.cb.above }
    requires cr_lines { 8 * position.column + 8 ≤ vec_len lines.old.cr.above }
    ensures lines { (p : Component) → vec_len (store_of p lines.new).above ≡ vec_len (store_of p lines.old).above }
    ensures size { (p : Component) → IsSized (plane_of p frame.new) (plane_of p frame.old).width (plane_of p frame.old).height }
    ensures step { (k : Setting) (l : Levels) (u : Component → ℕ → ℕ → ℕ) → position.column < k.across → position.row < k.down →
        AreShown k pool.now (prediction_by skipped.now references.now.places.now) → HasNoResidual l →
        IsMade k position.column position.row (skipped_by skipped.now references.now.places.now (weights_by references.now.weights.now) l) u →
        AreStored k.across position.column position.row u lines.old →
        AreStored k.across (position.column + 1) position.row u lines.new × HasMacroblock position.column position.row u frame.old frame.new }
    ensures some { (k : Setting) (l : Levels) (u : Component → ℕ → ℕ → ℕ) → position.column < k.across → position.row < k.down →
        AreShown k pool.now (prediction_by skipped.now references.now.places.now) → HasNoResidual l →
        AreStored k.across position.column position.row u lines.old → IsMade k position.column position.row
        (skipped_by skipped.now references.now.places.now (weights_by references.now.weights.now) l) (joined position.column position.row frame.new u) }
{
    make_skipped(skipped, references, lines, pool, position);
    let Position { column, row } = position;
    place(frame, column, row, &lines.last);
    save(lines, column);
}
