ghost use Rattle.std.specs.Prelude.{◌≡◌, codes, Some, false, true, MatchResult, IfOk};
ghost use Rattle.h264_scale.specs.Residual.{AreIn};
ghost use Rattle.h264_scale.specs.Fours.{IsShort, IsShortBlock, rounded, rounded_block, dc_only, block_residual_fits, block_residual};
ghost use Rattle.h264_plane.specs.Clip.{IsIn};

use crate::fours::{Block, fits_last};
use std::error::Error;
use std::fmt;

/// A value of the transform that lies outside its range of 16 bits, which the standard forbids (8.5.10, 8.5.11, 8.5.12).
#[derive(Clone, Copy, Debug, PartialEq, Eq)]
pub struct TransformRange;

impl fmt::Display for TransformRange {
    ghost output = { λ _. Some (codes "a value of the inverse transform is out of its range") };

    fn fmt<W: fmt::Write>(&self, f: &mut fmt::Formatter<W>) -> fmt::Result {
        f.write_str("a value of the inverse transform is out of its range")
    }
}

impl Error for TransformRange {}

/// A last value of the transform as a sample's difference.
#[inline(always)]
fn rounded_of(h: i32) -> i16
    requires { IsShort h }
    ensures value { result ≡ rounded h }
    ensures bound { IsIn 512 result }
{
    ((h + 32) >> 6) as i16
}

/// The residual row by row, from the last values of the transform.
#[inline(always)]
fn rounded_rows(h: Block) -> [i16; 16]
    requires { IsShortBlock h }
    ensures value { result ≡ rounded_block h }
    ensures bound { AreIn 512 result }
{
    let Block { r0, r1, r2, r3 } = h;
    [
        rounded_of(r0.a),
        rounded_of(r0.b),
        rounded_of(r0.c),
        rounded_of(r0.d),
        rounded_of(r1.a),
        rounded_of(r1.b),
        rounded_of(r1.c),
        rounded_of(r1.d),
        rounded_of(r2.a),
        rounded_of(r2.b),
        rounded_of(r2.c),
        rounded_of(r2.d),
        rounded_of(r3.a),
        rounded_of(r3.b),
        rounded_of(r3.c),
        rounded_of(r3.d),
    ]
}

/// The residual of a block whose DC coefficient is this one, and whose others are 0: each sample is the same.
#[inline(always)]
pub fn flat(dc: i32) -> Result<[i16; 16], TransformRange>
    ensures value { MatchResult result (λ r. (block_residual_fits (dc_only dc) ≡ true) × (r ≡ block_residual (dc_only dc)))
        (λ _. block_residual_fits (dc_only dc) ≡ false) }
    ensures bound { IfOk result (AreIn 512) }
{
    if !fits_last(dc) {
        return Err(TransformRange);
    }
    Ok([rounded_of(dc); 16])
}

/// The inverse transform of any scaled coefficients, rows first, with a test of each value (8.5.12.2).
#[tactic(auto, unfolding(crate::specs::Fours::block_residual_fits, crate::specs::Fours::block_residual))]
#[inline(never)]
pub fn tested_residual(d: Block) -> Result<[i16; 16], TransformRange>
    ensures value { MatchResult result (λ r. (block_residual_fits d ≡ true) × (r ≡ block_residual d)) (λ _. block_residual_fits d ≡ false) }
    ensures bound { IfOk result (AreIn 512) }
{
    if !d.fits() {
        return Err(TransformRange);
    }
    let e = d.row_halves();
    if !e.fits() {
        return Err(TransformRange);
    }
    let f = e.row_joined();
    if !f.fits() {
        return Err(TransformRange);
    }
    let g = f.halves();
    if !g.fits() {
        return Err(TransformRange);
    }
    let h = g.joined();
    if !h.fits_last() {
        return Err(TransformRange);
    }
    Ok(rounded_rows(h))
}
