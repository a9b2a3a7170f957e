ghost use Rattle.std.specs.Prelude.{◌≡◌};
ghost use Rattle.h264_plane.specs.Clip.{clip1 as clip1_of};

/// Clip1: the sample nearest to a number (5.7).
#[inline(always)]
pub fn clip1(z: i32) -> u8
    ensures { result ≡ clip1_of z }
{
    if z < 0 {
        0
    } else if z > 255 {
        255
    } else {
        z as u8
    }
}
