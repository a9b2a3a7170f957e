//! The list of a slice.
#![tactic(auto)]

ghost use Rattle.std.specs.Prelude.{◌≡◌, ◌≤◌, length};
ghost use Rattle.h264_lists.specs.Built.{built, list_answer};

use crate::initial::initial;
use crate::modified::modify;
use crate::slot::RefSlot;
use arrayvec::ArrayVec;
use h264_base::Stop;
use h264_header::RefPicList0;
use h264_marking::{Held, Numbering, ReferenceFrame};

/// The list, from the held frames.
pub(crate) fn list_of(
    frames: &[ReferenceFrame],
    current: &Numbering,
    list: &RefPicList0,
) -> Result<ArrayVec<RefSlot, 16>, Stop>
    requires { length frames.now ≤ 16 }
    ensures { result ≡ list_answer (built current.now list.now frames.now) }
{
    let places = list.num_ref_idx_l0_active.min(16) as usize;
    let mut slots = initial(current, places, frames);
    modify(current, frames, list.modifications.as_slice(), &mut slots)?;
    Ok(slots)
}

/// RefPicList0 of a P slice: as many places as it has active, at most 16.
///
/// No: a modification names a frame that is not held; the rule is ListCommand, at the modification's bit.
pub fn build(
    held: &Held,
    current: &Numbering,
    list: &RefPicList0,
) -> Result<ArrayVec<RefSlot, 16>, Stop>
    ensures { result ≡ list_answer (built current.now list.now held.now.frames) }
{
    list_of(held.frames(), current, list)
}
