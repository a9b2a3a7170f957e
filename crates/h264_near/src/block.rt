//! Numbers of 4x4 luma blocks (6.4.3).
#![tactic(auto)]

ghost use Rattle.std.specs.Prelude.{◌≡◌, ◌-◌, ◌<◌, IfSome, None};
ghost use Rattle.h264_plane.specs.Blocks.{number_of, column_of, row_of};
ghost use Rattle.h264_near.specs.Coded.{are_blank};

/// The column of a block in its macroblock, by its number.
#[tactic(auto, unfolding(h264_plane::specs::Blocks::column_of))]
#[inline(always)]
pub fn column(b: usize) -> usize
    requires { b < 16 }
    ensures here { result ≡ column_of b }
    ensures within { result < 4 }
{
    b / 4 % 2 * 2 + b % 2
}

/// The row of a block in its macroblock, by its number.
#[tactic(auto, unfolding(h264_plane::specs::Blocks::row_of))]
#[inline(always)]
pub fn row(b: usize) -> usize
    requires { b < 16 }
    ensures here { result ≡ row_of b }
    ensures within { result < 4 }
{
    b / 8 * 2 + b / 2 % 2
}

/// The number of a block by where it stands.
#[tactic(auto, unfolding(h264_plane::specs::Blocks::number_of))]
#[inline(always)]
pub fn number(x: usize, y: usize) -> usize
    requires column { x < 4 }
    requires row { y < 4 }
    ensures here { result ≡ number_of x y }
    ensures within { result < 16 }
{
    y / 2 * 8 + x / 2 * 4 + y % 2 * 2 + x % 2
}

/// The block to the left of another one, in the same macroblock.
#[tactic(auto, unfolding(h264_plane::specs::Blocks::column_of, h264_plane::specs::Blocks::row_of, h264_plane::specs::Blocks::number_of))]
#[inline(always)]
pub(crate) fn left_of(b: usize) -> Option<usize>
    requires { b < 16 }
    ensures some { IfSome result (λ n. 0 < column_of b) }
    ensures here { IfSome result (λ n. n ≡ number_of (column_of b - 1) (row_of b)) }
    ensures within { IfSome result (λ n. n < 16) }
    ensures none { result ≡ None → column_of b ≡ 0 }
{
    if column(b) == 0 {
        return None;
    }
    Some(b + 2 * (b % 2) - 3)
}

/// The block above another one, in the same macroblock.
#[tactic(auto, unfolding(h264_plane::specs::Blocks::column_of, h264_plane::specs::Blocks::row_of, h264_plane::specs::Blocks::number_of))]
#[inline(always)]
pub(crate) fn above_of(b: usize) -> Option<usize>
    requires { b < 16 }
    ensures some { IfSome result (λ n. 0 < row_of b) }
    ensures here { IfSome result (λ n. n ≡ number_of (column_of b) (row_of b - 1)) }
    ensures within { IfSome result (λ n. n < 16) }
    ensures none { result ≡ None → row_of b ≡ 0 }
{
    if row(b) == 0 {
        return None;
    }
    Some(b + 4 * (b / 2 % 2) - 6)
}

/// Whether no block has a coefficient, by total_coeff (9.2.1) of each. There is no branch.
#[inline(always)]
pub fn are_blank(totals: &[u8]) -> bool
    ensures { result ≡ are_blank totals.now }
{
    let mut blank = true;
    for total in totals {
        blank &= *total == 0;
    }
    blank
}
