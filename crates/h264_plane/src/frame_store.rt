ghost use Rattle.std.specs.Prelude.{◌≡◌, ℕ, Option};
ghost use Rattle.std.specs.Option.{option_copied};
ghost use Rattle.h264_plane.specs.declared.frame.Frame.{Frame as OneFrame};

use crate::{Frame, Pool};

/// Keeps the frames of pictures by their places, and lends them.
pub trait FrameStore {
    /// The frame at each place where there is one.
    ghost lent: { Self → ℕ → Option OneFrame };

    /// The frame at a place, if one is lent there.
    fn frame(&self, place: usize) -> Option<&Frame>
        ensures { option_copied result ≡ lent self.now place };
}

impl FrameStore for Pool {
    ghost use Rattle.h264_plane.specs.Frames.{lent_by};

    ghost lent = { lent_by };

    fn frame(&self, place: usize) -> Option<&Frame> {
        if place < self.len() {
            return Some(Pool::frame(self, place));
        }
        None
    }
}
