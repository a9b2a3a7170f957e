//! Frames as bytes, and their digests.
#![tactic(auto)]

ghost use Rattle.std.specs.Prelude.{◌≡◌, ℕ, ◌+◌, ◌++◌, ◌<◌, ◌≤◌, true, IsTrue, List, OnOk, OnErr};
ghost use Rattle.md5.specs.Md5.{md5, Holds};
ghost use Rattle.h264_dpb.specs.Shown.{fits, width_in, height_in, cropped};
ghost use Rattle.h264_lines.specs.Sent.{Sends, SendsFront};
ghost use Rattle.h264_lines.specs.Frames.{shown_bytes};

use crate::device::Device;
use crate::rows::{part_at, part_count};
use crate::send::send;
use h264_base::Failed;
use h264_dpb::Rectangle;
use h264_plane::Frame;
use md5::{Digest, Md5};

/// Writes what is shown of a frame: the rows of Y, then of Cb, then of Cr.
///
/// Failed: the device failed, and it was sent a part of them, which is not the whole.
pub(crate) fn send_frame<W: Device>(
    out: &mut W,
    frame: &Frame,
    rectangle: Rectangle,
) -> Result<(), Failed>
    requires { IsTrue (fits rectangle frame.now) }
    ensures ok { OnOk result (Sends (W.contents out.old) (W.contents out.new) (shown_bytes frame.now rectangle)) }
    ensures front { OnErr result (SendsFront (W.contents out.old) (W.contents out.new) (shown_bytes frame.now rectangle)) }
    ensures quiet { OnOk result (W.has_failed out.new ≡ W.has_failed out.old) }
    ensures failed { OnErr result (W.has_failed out.new ≡ true) }
{
    for k in 0..part_count(frame, rectangle) {
        match send(out, part_at(frame, rectangle, k)) {
            Ok(()) => {}
            Err(Failed) => return Err(Failed),
        }
    }
    Ok(())
}

/// The MD5 digest of what is shown of a frame.
pub(crate) fn digest(frame: &Frame, rectangle: Rectangle) -> [u8; 16]
    requires { IsTrue (fits rectangle frame.now) }
    ensures { result ≡ md5 (shown_bytes frame.now rectangle) }
{
    let mut hasher = Md5::new();
    for k in 0..part_count(frame, rectangle) {
        hasher.update(part_at(frame, rectangle, k));
    }
    hasher.finalize()
}
