//! What the definition of the list implies. Nothing here runs.
#![tactic(auto)]

ghost use Rattle.std.specs.Prelude.{◌≡◌, Bool, true, List, length, IsPermutation, IfOk};
ghost use Rattle.std.specs.List.{AllByRecursion};
ghost use Rattle.h264_header.specs.declared.header.RefPicList0.{RefPicList0};
ghost use Rattle.h264_marking.specs.declared.frame.ReferenceFrame.{ReferenceFrame};
ghost use Rattle.h264_marking.specs.declared.frame.Numbering.{Numbering};
ghost use Rattle.h264_lists.specs.Initial.{in_order, IsInOrder, list_places};
ghost use Rattle.h264_lists.specs.Built.{AreOf, built};

/// The initial list has the held frames and no others, and each comes before the next ones.
pub fn ordered()
    ensures frames { (current : Numbering) (frames : List ReferenceFrame) → IsPermutation frames (in_order current frames) }
    ensures order { (current : Numbering) (frames : List ReferenceFrame) → IsInOrder current (in_order current frames) }
{}

/// A list has all of its places.
pub fn full()
    ensures { (current : Numbering) (list : RefPicList0) (frames : List ReferenceFrame) →
        IfOk (built current list frames) (λ slots. length slots ≡ list_places list.num_ref_idx_l0_active) }
{}

/// A list has held frames alone: what holds of each of them holds of each frame in the list, whatever its modifications.
pub fn held_alone()
    ensures { (current : Numbering) (list : RefPicList0) (frames : List ReferenceFrame) (p : ReferenceFrame → Bool) →
        AllByRecursion (λ f. p f ≡ true) frames → IfOk (built current list frames) (AreOf (λ f. p f ≡ true)) }
{}
