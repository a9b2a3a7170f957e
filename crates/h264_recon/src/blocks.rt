ghost use Rattle.std.specs.Prelude.{◌≡◌, ◌↔◌, ℕ, ◌+◌, ◌*◌, ◌<◌, ◌≤◌, IsTrue, IsOk, IfOk, slice_index, vec_len};
ghost use Rattle.h264_intra.specs.Luma4.{is_possible4};
ghost use Rattle.h264_scale.specs.Residual.{residual_at};
ghost use Rattle.h264_scale.specs.Macroblock.{luma_d, luma_fits};
ghost use Rattle.h264_recon.specs.Blocks.{sides4_of};
ghost use Rattle.h264_recon.specs.Constructed.{mode_at};
ghost use Rattle.h264_recon.specs.Blocks4.{AreMade4, IsPut4, intra4};
ghost use Rattle.h264_recon.specs.ReadLevels.{levels_in};

use crate::added::add_luma_block;
use crate::intra::neighbours4;
use crate::macroblock::Available;
use crate::scaled::{ReadLevels, luma_of};
use crate::store::Store;
use h264_intra::{Intra4x4PredMode, predict4};
use h264_near::block;
use h264_scale::TransformRange;

/// Writes the samples of a block.
#[inline(always)]
fn put_block4(own: &mut [u8; 256], x: usize, y: usize, block: &[u8; 16])
    requires { (x < 4) × (y < 4) }
    ensures { IsPut4 own.old own.new x y (λ i j. slice_index block.now (4 * j + i)) }
{
    for k in 0..16 {
        own[16 * (4 * y + k / 4) + (4 * x + k % 4)] = block[k];
    }
}

/// Constructs the luma samples of an Intra_4x4 macroblock, block by block. `TransformRange` where a value of their transform is out of range.
pub fn luma4(
    modes: &[Intra4x4PredMode; 16],
    a: Available,
    levels: &ReadLevels<'_>,
    store: &Store,
    column: usize,
    own: &mut [u8; 256],
) -> Result<(), TransformRange>
    requires columns { 16 * column + 16 ≤ vec_len store.now.above }
    requires more { IsTrue a.above_right → 16 * column + 20 ≤ vec_len store.now.above }
    requires small { column < 1024 }
    requires qp { levels.now.read.now.qp ≤ 51 }
    ensures range { IsOk result ↔ IsTrue (luma_fits (levels_in levels.now).qp (levels_in levels.now).luma) }
    ensures made { IfOk result (λ u. ((x y : ℕ) → x < 4 → y < 4 → IsTrue (is_possible4 (mode_at modes.now x y) (sides4_of a x y))) →
        AreMade4 16 (intra4 modes.now a (λ x y. residual_at (luma_d (levels_in levels.now).qp (levels_in levels.now).luma x y))) store.now column own.new) }
{
    let qp = levels.read.qp;
    let blocks = luma_of(levels.read)?;
    for b in 0..16 {
        let x = block::column(b);
        let y = block::row(b);
        let neighbours = neighbours4(store, column, own, a, x, y);
        let predicted = predict4(modes[b], &neighbours);
        put_block4(own, x, y, &predicted);
        add_luma_block(own, &blocks, b, qp)?;
    }
    Ok(())
}
