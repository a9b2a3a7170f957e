ghost use Rattle.std.specs.Prelude.{◌≡◌, ◌+◌, ◌≤◌, length};
ghost use Rattle.h264_recon.specs.Parts.{IsRun};

use h264_plane::put_row;

/// Copies `N` samples into a list from a place on, and touches no other.
#[inline(always)]
pub fn put_run<const N: usize>(out: &mut [u8], start: usize, run: &[u8])
    requires run { length run.now ≡ N }
    requires within { start + N ≤ length out.old }
    ensures { IsRun out.old out.new start run.now }
{
    put_row::<N>(&mut out[start..start + N], run);
}
