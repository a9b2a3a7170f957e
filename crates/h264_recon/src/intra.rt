ghost use Rattle.std.specs.Prelude.{◌≡◌, ℕ, ◌+◌, ◌-◌, ◌*◌, ◌<◌, ◌≤◌, if◌then◌else◌, List, length, slice_index, vec_len, Some, None, [], IsTrue};
ghost use Rattle.std.specs.Prelude.{is_some, unwrap_or};
ghost use Rattle.h264_intra.specs.Sides.{SameSides};
ghost use Rattle.h264_intra.specs.Luma4.{SameSides4, sides4, around4};
ghost use Rattle.h264_intra.specs.Luma16.{sides16, around16};
ghost use Rattle.h264_intra.specs.Chroma.{sides_chroma, around_chroma};
ghost use Rattle.h264_recon.specs.Blocks.{sides_of, sides4_of, left_there, above_there, corner_there, right_there};
ghost use Rattle.h264_recon.specs.Constructed.{block_window};
ghost use Rattle.h264_recon.specs.Lines.{local};

use crate::macroblock::Available;
use crate::store::Store;
use h264_intra::{Neighbours4, Neighbours16, NeighboursChroma};
use h264_near::block::number;

/// Samples of a row from a place on.
#[inline(always)]
fn part<const N: usize>(row: &[u8], start: usize) -> [u8; N]
    requires { start + N ≤ length row.now }
    ensures whole { length result ≡ N }
    ensures each { (k : ℕ) → k < N → slice_index result k ≡ slice_index row.now (start + k) }
{
    let mut part = [0; N];
    part.copy_from_slice(&row[start..start + N]);
    part
}

/// The samples beside the luma macroblock at this column.
#[inline(always)]
pub fn neighbours16(store: &Store, column: usize, a: Available) -> Neighbours16
    requires columns { 16 * column + 16 ≤ vec_len store.now.above }
    requires small { column < 1024 }
    ensures sides { sides16 result ≡ sides_of a }
    ensures samples { (own : List ℕ) → SameSides 16 (sides_of a) (around16 result) (local 16 store.now column own) }
{
    let above = part::<16>(store.bottom_rows(), 16 * column);
    Neighbours16 {
        left: a.left.then_some(store.left),
        above: a.above.then_some(above),
        corner: a.corner.then_some(store.corner),
    }
}

/// The samples beside the chroma macroblock at this column.
#[inline(always)]
pub fn neighbours_chroma(store: &Store, column: usize, a: Available) -> NeighboursChroma
    requires columns { 8 * column + 8 ≤ vec_len store.now.above }
    requires small { column < 1024 }
    ensures sides { sides_chroma result ≡ sides_of a }
    ensures samples { (own : List ℕ) → SameSides 8 (sides_of a) (around_chroma result) (local 8 store.now column own) }
{
    let left = part::<8>(&store.left, 0);
    let above = part::<8>(store.bottom_rows(), 8 * column);
    NeighboursChroma {
        left: a.left.then_some(left),
        above: a.above.then_some(above),
        corner: a.corner.then_some(store.corner),
    }
}

/// A sample round the macroblock.
#[tactic(auto, unfolding(crate::specs::Lines::local))]
#[inline(always)]
fn sample(store: &Store, column: usize, own: &[u8; 256], x: usize, y: usize) -> u8
    requires place { (x < 17) × (y < 17) }
    requires columns { 16 * column + 16 ≤ vec_len store.now.above }
    requires small { column < 1024 }
    ensures { result ≡ local 16 store.now column own.now x y }
{
    if y == 0 {
        if x == 0 {
            store.corner
        } else {
            store.bottom_rows()[16 * column + (x - 1)]
        }
    } else if x == 0 {
        store.left[y - 1]
    } else {
        own[16 * (y - 1) + (x - 1)]
    }
}

/// Four samples of a row round the macroblock.
#[inline(always)]
fn across(store: &Store, column: usize, own: &[u8; 256], x: usize, y: usize) -> [u8; 4]
    requires place { (1 ≤ x) × (x < 18) × (y < 17) }
    requires above { y ≡ 0 → 16 * column + x + 3 ≤ vec_len store.now.above }
    requires inside { 0 < y → x < 14 }
    requires small { column < 1024 }
    ensures { (k : ℕ) → k < 4 → slice_index result k ≡ local 16 store.now column own.now (x + k) y }
{
    if y == 0 {
        part::<4>(store.bottom_rows(), 16 * column + (x - 1))
    } else {
        part::<4>(own, 16 * (y - 1) + (x - 1))
    }
}

/// Four samples of a column round the macroblock.
#[inline(always)]
fn down(store: &Store, column: usize, own: &[u8; 256], x: usize, y: usize) -> [u8; 4]
    requires place { (x < 17) × (1 ≤ y) × (y < 14) }
    ensures { (k : ℕ) → k < 4 → slice_index result k ≡ local 16 store.now column own.now x (y + k) }
{
    if x == 0 {
        return part::<4>(&store.left, y - 1);
    }
    let mut side = [0; 4];
    for k in 0..4 {
        side[k] = own[16 * (y + k - 1) + (x - 1)];
    }
    side
}

/// Four samples of a row, where they are there.
#[inline(always)]
fn across_when(
    there: bool,
    store: &Store,
    column: usize,
    own: &[u8; 256],
    x: usize,
    y: usize,
) -> Option<[u8; 4]>
    requires place { (1 ≤ x) × (x < 18) × (y < 17) }
    requires above { IsTrue there → y ≡ 0 → 16 * column + x + 3 ≤ vec_len store.now.above }
    requires inside { IsTrue there → 0 < y → x < 14 }
    requires small { column < 1024 }
    ensures there { is_some result ≡ there }
    ensures each { IsTrue there → (k : ℕ) → k < 4 → slice_index (unwrap_or result []) k ≡ local 16 store.now column own.now (x + k) y }
{
    if there {
        return Some(across(store, column, own, x, y));
    }
    None
}

/// Whether the sides of the block at column `x` and row `y` of blocks are available.
#[tactic(auto, unfolding(crate::specs::Blocks::left_there))]
#[inline(always)]
fn left_of(a: Available, x: usize) -> bool
    ensures { result ≡ left_there a x }
{
    x > 0 || a.left
}

#[tactic(auto, unfolding(crate::specs::Blocks::above_there))]
#[inline(always)]
fn above_of(a: Available, y: usize) -> bool
    ensures { result ≡ above_there a y }
{
    y > 0 || a.above
}

#[tactic(auto, unfolding(crate::specs::Blocks::corner_there))]
#[inline(always)]
fn corner_of(a: Available, x: usize, y: usize) -> bool
    ensures { result ≡ corner_there a x y }
{
    if x == 0 {
        if y == 0 { a.corner } else { a.left }
    } else {
        above_of(a, y)
    }
}

#[tactic(auto, unfolding(crate::specs::Blocks::right_there))]
#[inline(always)]
fn right_of(a: Available, x: usize, y: usize) -> bool
    requires { (x < 4) × (y < 4) }
    ensures { result ≡ right_there a x y }
{
    if y == 0 {
        if x == 3 { a.above_right } else { a.above }
    } else {
        x < 3 && number(x + 1, y - 1) < number(x, y)
    }
}

/// The samples beside the 4x4 block at column `x` and row `y` of blocks.
#[inline(always)]
pub fn neighbours4(
    store: &Store,
    column: usize,
    own: &[u8; 256],
    a: Available,
    x: usize,
    y: usize,
) -> Neighbours4
    requires place { (x < 4) × (y < 4) }
    requires columns { 16 * column + 16 ≤ vec_len store.now.above }
    requires more { IsTrue a.above_right → 16 * column + 20 ≤ vec_len store.now.above }
    requires small { column < 1024 }
    ensures sides { sides4 result ≡ sides4_of a x y }
    ensures samples { SameSides4 (sides4_of a x y) (around4 result) (block_window (local 16 store.now column own.now) x y) }
{
    let left = down(store, column, own, 4 * x, 4 * y + 1);
    let above = across(store, column, own, 4 * x + 1, 4 * y);
    let corner = sample(store, column, own, 4 * x, 4 * y);
    Neighbours4 {
        left: left_of(a, x).then_some(left),
        above: above_of(a, y).then_some(above),
        above_right: across_when(right_of(a, x, y), store, column, own, 4 * x + 5, 4 * y),
        corner: corner_of(a, x, y).then_some(corner),
    }
}
