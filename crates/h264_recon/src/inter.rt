ghost use Rattle.std.specs.Prelude.{◌≡◌, ◌+◌, ◌*◌, ◌<◌, ◌≤◌, get_or, replicate, None};
ghost use Rattle.h264_plane.specs.Blocks.{number_of};
ghost use Rattle.h264_near.specs.declared.partition.Partition.TheVariants.{P16x8, P8x16, P8x8};
ghost use Rattle.h264_plane.specs.Samples.{at};
ghost use Rattle.h264_plane.specs.declared.frame.Component.TheVariants.{Y, Cb, Cr};
ghost use Rattle.h264_inter.specs.Luma.{predicted_luma};
ghost use Rattle.h264_inter.specs.Chroma.{predicted_chroma};
ghost use Rattle.h264_inter.specs.Reference.{HasBlock};
ghost use Rattle.h264_recon.specs.Inter.{position_at};
ghost use Rattle.h264_recon.specs.Parts.{IsPart, ArePredicted, AreMade, part_from};
ghost use Rattle.h264_recon.specs.Pool.{HasRoom, HaveRoom, of_frames, from_pool};
ghost use Rattle.h264_recon.specs.Predicted.{motions_in, parted_motions, placed_motion};

use crate::input::motion;
use crate::macroblock::{Motion, Motions, Position};
use crate::store::Samples;
use h264_inter::{MotionVector, chroma, luma};
use h264_near::{Partition, SubPartition};
use h264_plane::{Plane, Pool, put_rows};

/// The motion of the partition that begins with this block.
#[inline(always)]
fn motion_of(m: &Motions, b: usize) -> Motion
    requires { b < 16 }
    ensures { result ≡ placed_motion m.now.places.now (get_or m.now.derived.now b None) }
{
    motion(m.derived[b], m.places)
}

/// Writes the predicted luma samples of a part of a macroblock, of `W` columns and `H` rows, which begins at column `x` and row `y` of its 4x4 places.
#[inline(always)]
fn luma_part<const W: usize, const H: usize>(
    plane: &Plane,
    vector: MotionVector,
    position: Position,
    x: usize,
    y: usize,
    out: &mut [u8; 256],
)
    requires width { (0 < W) × (W ≤ 16) }
    requires height { (0 < H) × (H ≤ 16) }
    requires area { W * H ≤ 128 }
    requires inside { (4 * x + W ≤ 16) × (4 * y + H ≤ 16) }
    requires small { (position.column < 1024) × (position.row < 1024) }
    requires columns { 16 * position.column + 16 ≤ plane.now.width }
    requires rows { 16 * position.row + 16 ≤ plane.now.height }
    ensures { IsPart 16 (part_from (4 * x) (4 * y) W H) (λ u v. predicted_luma plane.now.width plane.now.height (at plane.now) vector
        (16 * position.column + u) (16 * position.row + v)) out.old out.new }
{
    let mut block = [0; 128];
    let part = &mut block[..W * H];
    let left = 16 * position.column + 4 * x;
    let top = 16 * position.row + 4 * y;
    luma::<W, H>(plane, left, top, vector, part);
    put_rows::<W, H>(out, 16, 4 * x, 4 * y, part);
}

/// Writes the predicted samples of a chroma plane of such a part, of `W` columns and `H` rows of chroma.
#[inline(always)]
fn chroma_part<const W: usize, const H: usize>(
    plane: &Plane,
    vector: MotionVector,
    position: Position,
    x: usize,
    y: usize,
    out: &mut [u8; 64],
)
    requires width { (0 < W) × (W ≤ 16) }
    requires height { (0 < H) × (H ≤ 16) }
    requires area { W * H ≤ 32 }
    requires inside { (2 * x + W ≤ 8) × (2 * y + H ≤ 8) }
    requires small { (position.column < 1024) × (position.row < 1024) }
    requires columns { 8 * position.column + 8 ≤ plane.now.width }
    requires rows { 8 * position.row + 8 ≤ plane.now.height }
    ensures { IsPart 8 (part_from (2 * x) (2 * y) W H) (λ u v. predicted_chroma plane.now.width plane.now.height (at plane.now) vector
        (8 * position.column + u) (8 * position.row + v)) out.old out.new }
{
    let mut block = [0; 32];
    let part = &mut block[..W * H];
    let left = 8 * position.column + 2 * x;
    let top = 8 * position.row + 2 * y;
    chroma::<W, H>(plane, left, top, vector, part);
    put_rows::<W, H>(out, 8, 2 * x, 2 * y, part);
}

/// Writes the predicted samples of a part of a macroblock, of `W` columns and `H` rows of luma, `C` and `D` of chroma, which begins at column `x` and row
/// `y` of its 4x4 places.
#[inline(always)]
fn predict_part<const W: usize, const H: usize, const C: usize, const D: usize>(
    motion: Motion,
    pool: &Pool,
    position: Position,
    x: usize,
    y: usize,
    own: &mut Samples,
)
    requires width { (0 < C) × (W ≡ 2 * C) }
    requires height { (0 < D) × (H ≡ 2 * D) }
    requires area { (W * H ≤ 128) × (C * D ≤ 32) }
    requires inside { (2 * x + C ≤ 8) × (2 * y + D ≤ 8) }
    requires small { (position.column < 1024) × (position.row < 1024) }
    requires room { HasRoom pool.now position.column position.row motion.picture }
    ensures y { IsPart 16 (part_from (4 * x) (4 * y) W H)
        (λ u v. of_frames Y pool.now motion (16 * position.column + u) (16 * position.row + v)) own.old.y own.new.y }
    ensures cb { IsPart 8 (part_from (2 * x) (2 * y) C D)
        (λ u v. of_frames Cb pool.now motion (8 * position.column + u) (8 * position.row + v)) own.old.cb own.new.cb }
    ensures cr { IsPart 8 (part_from (2 * x) (2 * y) C D)
        (λ u v. of_frames Cr pool.now motion (8 * position.column + u) (8 * position.row + v)) own.old.cr own.new.cr }
{
    let frame = pool.frame(usize::from(motion.picture));
    let vector = motion.vector;
    luma_part::<W, H>(&frame.y, vector, position, x, y, &mut own.y);
    chroma_part::<C, D>(&frame.cb, vector, position, x, y, &mut own.cb);
    chroma_part::<C, D>(&frame.cr, vector, position, x, y, &mut own.cr);
}

/// Writes the predicted samples of a macroblock of two parts, the upper and the lower one.
#[inline(never)]
fn predict_16x8(m: &Motions, pool: &Pool, position: Position, own: &mut Samples)
    requires small { (position.column < 1024) × (position.row < 1024) }
    requires room { HaveRoom pool.now position.column position.row (parted_motions P16x8 m.now.places.now m.now.derived.now) }
    ensures { ArePredicted pool.now (parted_motions P16x8 m.now.places.now m.now.derived.now) position own.new }
{
    for k in 0..2 {
        let motion = motion_of(m, 8 * k);
        predict_part::<16, 8, 8, 4>(motion, pool, position, 0, 2 * k, own);
    }
}

/// Writes the predicted samples of a macroblock of two parts, the left and the right one.
#[inline(never)]
fn predict_8x16(m: &Motions, pool: &Pool, position: Position, own: &mut Samples)
    requires small { (position.column < 1024) × (position.row < 1024) }
    requires room { HaveRoom pool.now position.column position.row (parted_motions P8x16 m.now.places.now m.now.derived.now) }
    ensures { ArePredicted pool.now (parted_motions P8x16 m.now.places.now m.now.derived.now) position own.new }
{
    for k in 0..2 {
        let motion = motion_of(m, 4 * k);
        predict_part::<8, 16, 4, 8>(motion, pool, position, 2 * k, 0, own);
    }
}

/// Writes the predicted samples of the sub-macroblock of this number, block by block unless it is one partition.
#[inline(never)]
fn predict_sub_macroblock(
    m: &Motions,
    types: &[SubPartition; 4],
    pool: &Pool,
    position: Position,
    quarter: usize,
    own: &mut Samples,
)
    requires quarter { quarter < 4 }
    requires small { (position.column < 1024) × (position.row < 1024) }
    requires room { HaveRoom pool.now position.column position.row (parted_motions (P8x8 types.now) m.now.places.now m.now.derived.now) }
    requires before { AreMade number_of (4 * quarter) pool.now (parted_motions (P8x8 types.now) m.now.places.now m.now.derived.now) position own.old }
    ensures { AreMade number_of (4 * quarter + 4) pool.now (parted_motions (P8x8 types.now) m.now.places.now m.now.derived.now) position own.new }
{
    let (x, y) = (2 * (quarter % 2), 2 * (quarter / 2));
    let sub_partition = types[quarter];
    if let SubPartition::P8x8 = sub_partition {
        let motion = motion_of(m, 4 * quarter);
        predict_part::<8, 8, 4, 4>(motion, pool, position, x, y, own);
        return;
    }
    for k in 0..4 {
        let motion = motion_of(m, 4 * quarter + sub_partition.first_block(k));
        predict_part::<4, 4, 2, 2>(motion, pool, position, x + k % 2, y + k / 2, own);
    }
}

/// Writes the predicted samples of a macroblock of four sub-macroblocks.
#[inline(never)]
fn predict_8x8(
    m: &Motions,
    types: &[SubPartition; 4],
    pool: &Pool,
    position: Position,
    own: &mut Samples,
)
    requires small { (position.column < 1024) × (position.row < 1024) }
    requires room { HaveRoom pool.now position.column position.row (parted_motions (P8x8 types.now) m.now.places.now m.now.derived.now) }
    ensures { ArePredicted pool.now (parted_motions (P8x8 types.now) m.now.places.now m.now.derived.now) position own.new }
{
    for quarter in 0..4 {
        predict_sub_macroblock(m, types, pool, position, quarter, own);
    }
}

/// Writes the predicted samples of the macroblock at this column and row, all of one motion.
#[inline(always)]
pub fn predict_whole(motion: Motion, pool: &Pool, column: usize, row: usize, own: &mut Samples)
    requires small { (column < 1024) × (row < 1024) }
    requires room { HaveRoom pool.now column row (replicate 16 motion) }
    ensures y { HasBlock 16 16 own.new.y (from_pool pool.now (replicate 16 motion) (position_at column row) Y) }
    ensures cb { HasBlock 8 8 own.new.cb (from_pool pool.now (replicate 16 motion) (position_at column row) Cb) }
    ensures cr { HasBlock 8 8 own.new.cr (from_pool pool.now (replicate 16 motion) (position_at column row) Cr) }
{
    let frame = pool.frame(usize::from(motion.picture));
    let vector = motion.vector;
    luma::<16, 16>(&frame.y, 16 * column, 16 * row, vector, &mut own.y);
    chroma::<8, 8>(&frame.cb, 8 * column, 8 * row, vector, &mut own.cb);
    chroma::<8, 8>(&frame.cr, 8 * column, 8 * row, vector, &mut own.cr);
}

/// Writes the predicted samples of the macroblock at this position.
#[inline(always)]
pub fn predict(motions: &Motions, pool: &Pool, position: Position, own: &mut Samples)
    requires small { (position.column < 1024) × (position.row < 1024) }
    requires room { HaveRoom pool.now position.column position.row (motions_in motions.now) }
    ensures { ArePredicted pool.now (motions_in motions.now) position own.new }
{
    match &motions.partition {
        Partition::P16x16 => {
            let Position { column, row } = position;
            predict_whole(motion_of(motions, 0), pool, column, row, own);
        }
        Partition::P16x8 => predict_16x8(motions, pool, position, own),
        Partition::P8x16 => predict_8x16(motions, pool, position, own),
        Partition::P8x8(types) => predict_8x8(motions, types, pool, position, own),
    }
}
