ghost use Rattle.std.specs.Prelude.{◌≡◌, IsTrue, ◌+◌, ◌-◌, ◌<◌, ◌^◌, [], ◌∷◌, OnOk, OnErr};
ghost use Rattle.h264_base.specs.Call.{Tells, HasRoom, IsQuiet};
ghost use Rattle.h264_dpb.specs.Shown.{frame_call, fits};

use crate::entry::Rectangle;
use h264_base::{Elements, Failed};
use h264_plane::Frame;

/// Takes the frames of a stream in the order of output (C.4).
pub trait FrameOut: Elements {
    /// A frame, of which the samples in the rectangle are shown, with its picture order count.
    fn frame(&mut self, count: i32, frame: &Frame, rectangle: Rectangle) -> Result<(), Failed>
        requires inside { IsTrue (fits rectangle frame.now) }
        requires room { HasRoom Self.failures self.old }
        ensures ok { OnOk result (Tells Self.took self.old self.new (frame_call count frame.now rectangle ∷ [])) }
        ensures kept { OnOk result (IsQuiet Self.failures self.old self.new) }
        ensures refused { OnErr result (Tells Self.took self.old self.new []) }
        ensures failed { OnErr result (Self.failures self.new ≡ Self.failures self.old + 1) };
}
