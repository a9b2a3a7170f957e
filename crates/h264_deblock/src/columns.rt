ghost use Rattle.std.specs.Prelude.{◌≡◌, ℕ, ◌+◌, ◌*◌, ◌/◌, ◌%◌, ◌<◌, ◌≤◌, length, slice_index, get_or, true};
ghost use Rattle.h264_plane.specs.Samples.{at, look};
ghost use Rattle.h264_deblock.specs.Edge.{taps};
ghost use Rattle.h264_deblock.specs.Rows.{line_of, HasLine, AreWritten, in_turn};

use crate::rows::Rows;
use h264_plane::{Plane, eight, sixteen};
use std::simd::prelude::*;

/// The lanes of two vectors in turn.
#[inline(always)]
fn woven(a: u8x8, b: u8x8) -> [u8; 16]
    ensures first { (n : ℕ) → n < 8 → slice_index result (2 * n) ≡ get_or a n 0 }
    ensures second { (n : ℕ) → n < 8 → slice_index result (2 * n + 1) ≡ get_or b n 0 }
{
    a.shuffle(b, [0, 8, 1, 9, 2, 10, 3, 11, 4, 12, 5, 13, 6, 14, 7, 15])
        .to_array()
}

/// The first half of the samples between the places of the second half, as two halves of a pack of cards.
#[inline(always)]
fn riffled(x: &[u8; 128]) -> [u8; 128]
    ensures { (n : ℕ) → n < 128 → slice_index result n ≡ slice_index x.now (n % 2 * 64 + n / 2) }
{
    let mut out = [0u8; 128];
    for k in 0..64usize {
        out[2 * k] = x[k];
        out[2 * k + 1] = x[k + 64];
    }
    out
}

/// Eight rows of sixteen samples as sixteen rows of eight, each of them one of the columns.
#[inline(always)]
fn turned(x: &[u8; 128]) -> [u8; 128]
    ensures { (n : ℕ) → n < 128 → slice_index result n ≡ slice_index x.now (n % 8 * 16 + n / 8) }
{
    riffled(&riffled(&riffled(x)))
}

/// Eight samples of a list, from place `i` on, each in turn with one of another, from place `j` on.
#[inline(always)]
pub fn pair_in_turn(a: &[u8], i: usize, b: &[u8], j: usize) -> [u8; 16]
    requires first { i + 8 ≤ length a.now }
    requires second { j + 8 ≤ length b.now }
    ensures { (u : ℕ) → u < 16 → slice_index result u ≡ in_turn (slice_index a.now (i + u / 2)) (slice_index b.now (j + u / 2)) u }
{
    woven(eight(a, i), eight(b, j))
}

/// Puts sixteen samples in their place.
#[inline(always)]
fn put_sixteen(samples: &mut [u8; 128], place: usize, row: &[u8; 16])
    requires { place + 16 ≤ 128 }
    ensures put { (n : ℕ) → n < 16 → slice_index samples.new (place + n) ≡ slice_index row.now n }
    ensures kept { (n : ℕ) → n < place → slice_index samples.new n ≡ slice_index samples.old n }
{
    samples[place..place + 16].copy_from_slice(row);
}

/// Eight rows of `a` from row `y` on, each in turn with one of `b` from row `z` on; eight samples of each, from column `x` on.
#[inline(always)]
fn read_in_turn(a: &Plane, y: usize, b: &Plane, z: usize, x: usize) -> [u8; 128]
    requires small { (x < 65536) × (y < 65536) × (z < 65544) }
    requires a_columns { x + 8 ≤ a.now.width }
    requires b_columns { x + 8 ≤ b.now.width }
    requires a_rows { y + 8 ≤ a.now.height }
    requires b_rows { z + 8 ≤ b.now.height }
    ensures { (v : ℕ) → v < 8 → (u : ℕ) → u < 16 → slice_index result (16 * v + u) ≡ in_turn (at a.now (x + u / 2) (y + v))
        (at b.now (x + u / 2) (z + v)) u }
{
    let (first, second) = (a.samples(), b.samples());
    let (mut i, mut j) = (y * a.width() + x, z * b.width() + x);
    let mut samples = [0u8; 128];
    for v in 0..8usize {
        let pair = pair_in_turn(first, i, second, j);
        put_sixteen(&mut samples, 16 * v, &pair);
        i += a.width();
        j += b.width();
    }
    samples
}

/// Eight columns from column `x` on, one after another: of eight rows of `a` from row `y` on, and then of eight of `b` from row `z` on.
#[inline(always)]
pub fn columns_of(a: &Plane, y: usize, b: &Plane, z: usize, x: usize) -> [u8; 128]
    requires small { (x < 65536) × (y < 65536) × (z < 65544) }
    requires a_columns { x + 8 ≤ a.now.width }
    requires b_columns { x + 8 ≤ b.now.width }
    requires a_rows { y + 8 ≤ a.now.height }
    requires b_rows { z + 8 ≤ b.now.height }
    ensures first { (k : ℕ) → k < 8 → (n : ℕ) → n < 8 → slice_index result (16 * k + n) ≡ at a.now (x + k) (y + n) }
    ensures second { (k : ℕ) → k < 8 → (n : ℕ) → n < 8 → slice_index result (16 * k + (8 + n)) ≡ at b.now (x + k) (z + n) }
{
    turned(&read_in_turn(a, y, b, z, x))
}

/// The lines of a vertical edge whose first q0 stands at column `x` of row `y`.
#[inline(always)]
pub fn read_columns(plane: &Plane, x: usize, y: usize) -> Rows
    requires small { (x < 65536) × (y < 65536) }
    requires before { 4 ≤ x }
    requires following { x + 4 ≤ plane.now.width }
    requires rows { y + 16 ≤ plane.now.height }
    ensures { (n : ℕ) → n < 16 → line_of result n ≡ taps (look true plane.now (y + n)) x }
{
    let samples = columns_of(plane, y, plane, y + 8, x - 4);
    Rows {
        p3: sixteen(&samples, 0),
        p2: sixteen(&samples, 16),
        p1: sixteen(&samples, 32),
        p0: sixteen(&samples, 48),
        q0: sixteen(&samples, 64),
        q1: sixteen(&samples, 80),
        q2: sixteen(&samples, 96),
        q3: sixteen(&samples, 112),
    }
}

/// The samples of the lines, eight to a line.
#[inline(always)]
fn line_by_line(r: &Rows) -> [u8; 128]
    ensures { (n : ℕ) → n < 16 → HasLine result (8 * n) (line_of r.now n) }
{
    let mut samples = [0u8; 128];
    put_sixteen(&mut samples, 0, &r.p3.to_array());
    put_sixteen(&mut samples, 16, &r.p2.to_array());
    put_sixteen(&mut samples, 32, &r.p1.to_array());
    put_sixteen(&mut samples, 48, &r.p0.to_array());
    put_sixteen(&mut samples, 64, &r.q0.to_array());
    put_sixteen(&mut samples, 80, &r.q1.to_array());
    put_sixteen(&mut samples, 96, &r.q2.to_array());
    put_sixteen(&mut samples, 112, &r.q3.to_array());
    turned(&samples)
}

/// Writes the lines of a vertical edge, where the first and the last sample of each stay as they are.
#[inline(always)]
pub fn write_columns(plane: &mut Plane, x: usize, y: usize, r: &Rows)
    requires small { (x < 65536) × (y < 65536) }
    requires before { 4 ≤ x }
    requires following { x + 4 ≤ plane.old.width }
    requires rows { y + 16 ≤ plane.old.height }
    ensures { AreWritten true plane.old plane.new y x r.now }
{
    plane.put_block::<8, 16>(x - 4, y, &line_by_line(r));
}
