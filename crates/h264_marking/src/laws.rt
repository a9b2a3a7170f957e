//! What the definitions imply. Nothing here runs.
#![tactic(auto)]

ghost use Rattle.std.specs.Prelude.{◌≡◌, ◌≢◌, ◌<◌, ℕ, [], false};
ghost use Rattle.h264_marking.specs.declared.frame.Numbering.{Numbering};
ghost use Rattle.h264_marking.specs.Gaps.{unused_short_term_frame_nums};
ghost use Rattle.h264_marking.specs.Unused.{IsGap};

/// The missing numbers before a picture that is no IDR picture (7.4.3): from after PrevRefFrameNum one follows another up to the
/// number before frame_num, and none is either of the two; there are none where frame_num is PrevRefFrameNum.
pub fn unused_numbers()
    ensures gap { (prev_ref_frame_num : ℕ) (n : Numbering) → prev_ref_frame_num < n.max_frame_num → n.frame_num < n.max_frame_num →
        n.frame_num ≢ prev_ref_frame_num → IsGap prev_ref_frame_num n (unused_short_term_frame_nums false prev_ref_frame_num n) }
    ensures none { (prev_ref_frame_num : ℕ) (n : Numbering) → n.frame_num ≡ prev_ref_frame_num →
        unused_short_term_frame_nums false prev_ref_frame_num n ≡ [] }
{}
