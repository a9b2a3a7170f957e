//! What holds of the samples of a picture. Nothing here runs.
#![tactic(auto)]

ghost use Rattle.std.specs.Prelude.{◌≡◌, ℕ, ◌+◌, ◌*◌, ◌<◌, List, length};
ghost use Rattle.h264_plane.specs.declared.frame.Component.{Component};
ghost use Rattle.h264_plane.specs.Places.{side};
ghost use Rattle.h264_near.specs.Coded.{CodedMacroblock};
ghost use Rattle.h264_recon.specs.Inter.{Setting};
ghost use Rattle.h264_recon.specs.Constructed.{IsPossible};
ghost use Rattle.h264_picture.specs.Decoded.{Parameters, macroblock_at, IsDecoded};
ghost use Rattle.std.specs.Prelude.{◌≤◌, Option, Some, None, ℤ, pos, true, max, unwrap_or};
ghost use Rattle.h264_base.specs.Body.{Body};
ghost use Rattle.h264_base.specs.Grammar.{Element, Derives};
ghost use Rattle.h264_sps.specs.declared.sps.Sps.{Sps};
ghost use Rattle.h264_sps.specs.Usable.{is_accepted, given_frames, dpb_frames};
ghost use Rattle.h264_pps.specs.declared.Pps.{Pps};
ghost use Rattle.h264_header.specs.declared.header.Header.{Header};
ghost use Rattle.h264_header.specs.declared.header.SliceUnit.{SliceUnit};
ghost use Rattle.h264_header.specs.Header.{header};
ghost use Rattle.h264_header.specs.Weights.{weights_of};
ghost use Rattle.h264_picture.specs.Buffer.{buffer_size};
ghost use Rattle.h264_picture.specs.Context.{stated_qp, slice_qp};
ghost use Rattle.h264_picture.specs.Filter.{HasOffsets};
ghost use Rattle.h264_picture.specs.Weights.{weights_at};
ghost use Rattle.h264_plane.specs.declared.frame.Frame.{Frame};
ghost use Rattle.h264_picture.specs.declared.work.Work.{Work};
ghost use Rattle.h264_picture.specs.declared.frames.TheConstants.{PLACES};
ghost use Rattle.h264_picture.specs.declared.purpose.Purpose.TheVariants.{Verdict};
ghost use Rattle.h264_picture.specs.Places.{first_place, lent, purpose_of, HasBegun};
ghost use Rattle.h264_picture.specs.Making.{RefersTo};
ghost use Rattle.h264_picture.specs.Sources.{Sources, IsDecodedFrom, AreShared};

/// A coded picture, with the parameters of its slices and its reference pictures, has at most one decoded picture (8), where its modes refer to
/// sides that there are.
pub fn one_decoded()
    ensures { (k : Setting) (place : ℕ → ℕ) (slices : ℕ → Parameters) (picture : List CodedMacroblock) (f g : Component → ℕ → ℕ → ℕ) →
        ((c r : ℕ) → c < k.across → r < k.down → IsPossible (macroblock_at slices place k.across picture (r * k.across + c)).prediction
        (macroblock_at slices place k.across picture (r * k.across + c)).available) → IsDecoded k place slices picture f →
        IsDecoded k place slices picture g → (p : Component) (x y : ℕ) → x < side p * k.across → y < side p * k.down → f p x y ≡ g p x y }
{}

/// And it has one, where it is whole.
pub fn some_decoded()
    ensures { (k : Setting) (place : ℕ → ℕ) (slices : ℕ → Parameters) (picture : List CodedMacroblock) → length picture ≡ k.down * k.across →
        ((c r : ℕ) → c < k.across → r < k.down → IsPossible (macroblock_at slices place k.across picture (r * k.across + c)).prediction
        (macroblock_at slices place k.across picture (r * k.across + c)).available) → (final : Component → ℕ → ℕ → ℕ)
        × IsDecoded k place slices picture final }
{}

/// Of what it is decoded from, a picture depends on the samples of those pictures to which its macroblocks refer, inside the picture, and on the
/// parameters of its slices, alone: not on where these pictures stand, nor on what stands elsewhere (8.4.2, 8.7).
pub fn sources_alone()
    ensures { (across down : ℕ) (s t : Sources) (picture : List CodedMacroblock) (final : Component → ℕ → ℕ → ℕ) → AreShared across down s t picture →
        IsDecodedFrom across down s picture final → IsDecodedFrom across down t picture final }
{}

/// The reference pictures of a picture that is begun are frames that the work lends, at places that are counted from the first one of the sequence.
pub fn references_are_lent()
    ensures { (work : Work) (place n : ℕ) (f : Frame) → HasBegun place work → n < PLACES → lent work (first_place work + n) ≡ Some f → RefersTo work n f }
{}

/// Where pictures are decoded for the verdict alone, no frame is lent.
pub fn nothing_is_lent()
    ensures { (work : Work) → purpose_of work ≡ Verdict → (p : ℕ) → lent work p ≡ None }
{}

/// No clamp of the definitions changes what a slice or its sets say: SliceQPY where its rule is met (7.4.3), the filter's offsets and the weights of each
/// header that some unit gives, and the size of the picture buffer by each set that some unit gives. Only a buffer of no frame counts as one place.
pub fn no_clamp_is_felt()
    ensures qp { (pps : Pps) (h : Header) (n : ℕ) → stated_qp pps h ≡ pos n → n ≤ 51 → slice_qp pps h ≡ n }
    ensures offsets { (sets : ℕ → Option (Pps × Sps)) (unit : SliceUnit) (body : Body) (i j : ℕ) (es : List Element) (h : Header) →
        Derives (header sets unit) body i es j h → HasOffsets h.deblocking }
    ensures weights { (sets : ℕ → Option (Pps × Sps)) (unit : SliceUnit) (body : Body) (i j : ℕ) (es : List Element) (h : Header) (k : ℕ) →
        Derives (header sets unit) body i es j h → weights_at h k ≡ weights_of h k }
    ensures buffer { (sps : Sps) → is_accepted sps ≡ true → buffer_size sps ≡ max 1 (unwrap_or (given_frames sps) (dpb_frames sps)) }
{}
