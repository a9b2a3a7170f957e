//! What the definitions imply. Nothing here runs.
#![tactic(auto)]

ghost use Rattle.std.specs.Prelude.{◌≡◌, ℕ, Bool, List};
ghost use Rattle.h264_base.specs.Body.{Body};
ghost use Rattle.h264_base.specs.Grammar.{Element, Derives};
ghost use Rattle.h264_near.specs.Coded.{CodedMacroblock};
ghost use Rattle.h264_vectors.specs.declared.slice.SliceContext.{SliceContext};
ghost use Rattle.h264_vectors.specs.Derived.{Derived};
ghost use Rattle.h264_vectors.specs.Inter.{motions};
ghost use Rattle.h264_mbsyntax.specs.Fit.{all_fit};
ghost use Rattle.h264_mbsyntax.specs.OfSlice.{AreOfSlice};
ghost use Rattle.h264_mbsyntax.specs.Slice.{slice_data};

/// The flag of an inter macroblock, which goes from part to part, says whether the vectors of its sixteen blocks lie in their
/// range.
pub fn one_flag()
    ensures { (width : ℕ) (slice : SliceContext) (picture : List CodedMacroblock) (bit kind : ℕ) (body : Body) (i j : ℕ) (es : List Element)
        (d : Derived) → Derives (motions width slice picture bit kind) body i es j d → d.fit ≡ all_fit slice.vector_limit d.motions }
{}

/// Slice data give the macroblocks before the slice, and then macroblocks of the slice (7.3.4): each has the slice's number; its intra modes refer to
/// sides that there are; and each of the sixteen blocks of an inter macroblock, a skipped one among them, refers to a picture that the slice's list names.
pub fn slice_macroblocks()
    ensures { (fits : CodedMacroblock → Bool) (width size : ℕ) (slice : SliceContext) (before after : List CodedMacroblock) (body : Body) (i j : ℕ)
        (es : List Element) → Derives (slice_data fits width size slice before) body i es j after → AreOfSlice width slice before after }
{}
