//! What holds of the steps of the buffer. Nothing here runs.
#![tactic(auto)]

ghost use Rattle.std.specs.Prelude.{◌≡◌, ℕ, ◌+◌, ◌<◌, ◌≤◌, Bool, true, List, Some, length};
ghost use Rattle.h264_sps.specs.declared.sps.FrameCropping.{FrameCropping};
ghost use Rattle.h264_sps.specs.declared.sps.Sps.{Sps};
ghost use Rattle.h264_sps.specs.Usable.{is_accepted};
ghost use Rattle.h264_dpb.specs.Bumping.{is_held, missing_in, made_room, marked, stored_reference, stored_other, flushed};
ghost use Rattle.h264_dpb.specs.Buffered.{Buffered, AreUsed, HasRoomBy, stored_by};
ghost use Rattle.h264_dpb.specs.Numbered.{AreRising, number_of};
ghost use Rattle.h264_dpb.specs.Rectangles.{rectangle_of};
ghost use Rattle.h264_dpb.specs.Renamed.{renamed, all_renamed, renamed_step};
ghost use Rattle.h264_dpb.specs.declared.entry.Entry.{Entry};
ghost use Rattle.h264_dpb.specs.declared.entry.Kind.TheVariants as kinds;
ghost use Rattle.h264_dpb.specs.declared.entry.Picture.{Picture};
ghost use Rattle.h264_dpb.specs.declared.entry.Placed.{Placed};

/// The pictures of the buffer stay in decoding order: where their numbers rise below `n`, and the picture that is stored has at least that number, they
/// rise below the next one.
pub fn numbers_rise()
    ensures reference { (p : Picture) (b : Buffered Placed) (n : ℕ) → n ≤ p.of.picture → AreRising number_of 0 b.entries n →
        AreRising number_of 0 (stored_by kinds.Reference p b).entries (p.of.picture + 1) }
    ensures other { (p : Picture) (b : Buffered Placed) (n : ℕ) → n ≤ p.of.picture → AreRising number_of 0 b.entries n →
        AreRising number_of 0 (stored_by kinds.Other p b).entries (p.of.picture + 1) }
    ensures missing { (p : Picture) (b : Buffered Placed) (n : ℕ) → AreRising number_of 0 b.entries n →
        AreRising number_of 0 (stored_by kinds.Missing p b).entries n }
{}

/// Each frame in the buffer waits or is used for reference, so a place is free as soon as its frame does neither (C.4.4, C.4.5.3).
pub fn frames_are_in_use()
    ensures reference { (p : Picture) (b : Buffered Placed) → AreUsed (stored_by kinds.Reference p b).entries }
    ensures other { (p : Picture) (b : Buffered Placed) → AreUsed b.entries → AreUsed (stored_by kinds.Other p b).entries }
    ensures missing { (p : Picture) (b : Buffered Placed) → AreUsed (stored_by kinds.Missing p b).entries }
{}

/// A picture that is used for reference finds a place, and so does a frame that does not exist, where no more are held than the buffer has places, itself
/// among them (C.4.5.3).
pub fn references_have_room()
    ensures reference { (p : Picture) (b : Buffered Placed) → AreRising number_of 0 b.entries p.of.picture → is_held p.held.now p.of.picture ≡ true →
        length p.held.now ≤ b.size → HasRoomBy kinds.Reference p b }
    ensures missing { (p : Picture) (b : Buffered Placed) (n : ℕ) → AreRising number_of 0 b.entries n → 0 < missing_in p.held.now →
        length p.held.now ≤ b.size → HasRoomBy kinds.Missing p b }
{}

/// No step looks at what names a picture: under other names it writes and leaves the same frames.
pub fn names_are_open<N, M>()
    ensures reference { (f : N → M) (places : ℕ) (e : Entry N) (es : List (Entry N)) →
        stored_reference places (renamed f e) (all_renamed f es) ≡ renamed_step f (stored_reference places e es) }
    ensures other { (f : N → M) (places : ℕ) (e : Entry N) (es : List (Entry N)) →
        stored_other places (renamed f e) (all_renamed f es) ≡ renamed_step f (stored_other places e es) }
    ensures room { (f : N → M) (places : ℕ) (es : List (Entry N)) →
        made_room (length (all_renamed f es)) places (all_renamed f es) ≡ renamed_step f (made_room (length es) places es) }
    ensures marking { (f : N → M) (held : M → Bool) (es : List (Entry N)) → marked held (all_renamed f es) ≡ all_renamed f (marked (λ n. held (f n)) es) }
    ensures all { (f : N → M) (write : Bool) (es : List (Entry N)) → flushed write (all_renamed f es) ≡ renamed_step f (flushed write es) }
{}

/// In each set that some unit gives the cropping rectangle lies in the frame, and is what is shown (7.4.2.1.1).
pub fn cropping_is_shown()
    ensures { (sps : Sps) (c : FrameCropping) → is_accepted sps ≡ true → sps.frame_cropping ≡ Some c →
        rectangle_of sps ≡ record { left = c.left; right = c.right; top = c.top; bottom = c.bottom } }
{}
