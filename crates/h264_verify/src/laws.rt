//! What the definitions imply. Nothing here runs.
#![tactic(auto)]

ghost use Rattle.std.specs.Prelude.{◌≡◌, ℕ, None, false, ◌⊎◌, List, ◌∷◌, ◌++◌, Some, Result};
ghost use Rattle.h264_base.specs.declared.mode.Mode.{Mode};
ghost use Rattle.h264_base.specs.declared.mode.Target.{Target};
ghost use Rattle.h264_base.specs.declared.mode.Target.TheVariants.{Baseline, MainIP};
ghost use Rattle.h264_base.specs.declared.stop.Stop.{Stop};
ghost use Rattle.h264_verify.specs.Telling.{Told, Decodes};
ghost use Rattle.h264_base.specs.declared.summary.Summary.{Summary};
ghost use Rattle.h264_verify.specs.declared.state.Extent.{Extent};
ghost use Rattle.h264_verify.specs.Units.{extent_of};
ghost use Rattle.h264_verify.specs.Pictures.{CodedPicture, goes_on, held_in, runs_of};
ghost use Rattle.h264_verify.specs.Buffering.{within_newest};
ghost use Rattle.h264_verify.specs.Held.{AreAmong};
ghost use Rattle.h264_verify.specs.Predicting.{ArePredicted};
ghost use Rattle.h264_verify.specs.Within.{DecodesWithin, EndsWithin};
ghost use Rattle.h264_verify.specs.Verdict.{Verdict, AreLegal, Holds, StopsAt};
ghost use Rattle.h264_verify.specs.Telling.{calls_of, AreDecoded};
ghost use Rattle.h264_verify.specs.History.{History};
ghost use Rattle.h264_verify.specs.Pictures.{ended_pictures};
ghost use Rattle.h264_verify.specs.Family.{AreSameOn, IsFrontOf, LeavesFramesOut};
ghost use Rattle.h264_plane.specs.declared.frame.Frame.{Frame};
ghost use Rattle.h264_base.specs.declared.mode.Mode.TheVariants as modes;
ghost use Rattle.h264_base.specs.declared.mode.Mode.TheVariants.{Full};

/// A stream has one verdict: a derivation that meets every rule, a first broken rule with its bit, and a feature with its bit
/// exclude one another, and so do two of a kind. What a sink is told up to there is one list of calls.
pub fn one_verdict()
    ensures { (extent : Extent) (bytes : List ℕ) (calls others : List Told) (one other : Result Summary Stop) → Verdict extent bytes calls one →
        Verdict extent bytes others other → (calls ≡ others) × (one ≡ other) }
{}

/// Each stream has a verdict.
pub fn some_verdict()
    ensures { (extent : Extent) (bytes : List ℕ) → (told : List Told) × (answer : Result Summary Stop) × Verdict extent bytes told answer }
{}

/// A stream has one derivation: two that meet every rule have the same units with the same contents (`whole`), and so have two that
/// stop, up to the unit, or the end, at which the verdict falls (`stop`).
pub fn one_derivation()
    ensures whole { (extent : Extent) (bytes : List ℕ) (told others : List Told) (summary other : Summary) →
        (h : Holds extent bytes told summary) (k : Holds extent bytes others other) → h.units ≡ k.units }
    ensures stop { (extent : Extent) (bytes : List ℕ) (told others : List Told) (stop other : Stop) →
        (h : StopsAt extent bytes told stop) (k : StopsAt extent bytes others other) → h.before ≡ k.before }
{}

/// Every prediction refers to a held picture (8.4.2.1): each of the sixteen blocks of an inter macroblock of a picture `p` after others, `ps`, refers
/// to a picture that is held while `p` is decoded, in a stream with a yes (`whole`), and in units that are legal, whatever follows them (`legal`).
pub fn predictions_are_held()
    ensures whole { (target : Target) (bytes : List ℕ) (told : List Told) (summary : Summary) (h : Holds (extent_of Full target) bytes told summary)
        (later : List CodedPicture) (p : CodedPicture) (ps : List CodedPicture) → runs_of h.units ≡ later ++ p ∷ ps → ArePredicted p ps }
    ensures legal { (target : Target) (before : History) (told : List Told) → AreLegal (extent_of Full target) before told →
        (later : List CodedPicture) (p : CodedPicture) (ps : List CodedPicture) → runs_of before ≡ later ++ p ∷ ps → ArePredicted p ps }
{}

/// While a picture is decoded, each picture that is held for reference has its frame in the buffer (C.4.4, C.4.5): of each picture `p` after others,
/// `ps`, of a stream with a yes (`whole`), and of units that are legal, whatever follows them (`legal`).
pub fn held_pictures_stand()
    ensures whole { (target : Target) (bytes : List ℕ) (told : List Told) (summary : Summary) (h : Holds (extent_of Full target) bytes told summary)
        (later : List CodedPicture) (p : CodedPicture) (ps : List CodedPicture) → runs_of h.units ≡ later ++ p ∷ ps →
        AreAmong (held_in (p ∷ ps)) (within_newest (p ∷ ps)).buffer }
    ensures legal { (target : Target) (before : History) (told : List Told) → AreLegal (extent_of Full target) before told →
        (later : List CodedPicture) (p : CodedPicture) (ps : List CodedPicture) → runs_of before ≡ later ++ p ∷ ps →
        AreAmong (held_in (p ∷ ps)) (within_newest (p ∷ ps)).buffer }
{}

/// The buffer stays within its places, for the frames in it and those that do not exist together (C.4.2, C.4.4, C.4.5). Each picture `p` after
/// others, `ps`, of a stream with a yes keeps it so while the missing numbers before it are filled, while it is decoded, and once it has ended
/// (`whole`); and of units that are legal, whatever follows them, each picture does while it is decoded (`decoded`), and each that has ended does
/// then (`ended`). So does each picture that ends before the verdict, whatever that is (`told`), also within the unit at which it falls. The buffer
/// has the size that the sequence of the picture that ended last gives it, at most MaxDpbFrames of that sequence's level (A.3.1, E.2.1).
pub fn buffer_stays_within()
    ensures whole { (target : Target) (bytes : List ℕ) (told : List Told) (summary : Summary) (h : Holds (extent_of Full target) bytes told summary)
        (later : List CodedPicture) (p : CodedPicture) (ps : List CodedPicture) → runs_of h.units ≡ later ++ p ∷ ps → DecodesWithin p ps × EndsWithin p ps }
    ensures decoded { (target : Target) (before : History) (told : List Told) → AreLegal (extent_of Full target) before told →
        (later : List CodedPicture) (p : CodedPicture) (ps : List CodedPicture) → runs_of before ≡ later ++ p ∷ ps → DecodesWithin p ps }
    ensures ended { (target : Target) (before : History) (told : List Told) → AreLegal (extent_of Full target) before told →
        (later : List CodedPicture) (p : CodedPicture) (ps : List CodedPicture) → ended_pictures (goes_on before) false (runs_of before) ≡ later ++ p ∷
        ps → EndsWithin p ps }
    ensures told { (target : Target) (bytes : List ℕ) (told : List Told) (answer : Result Summary Stop) →
        Verdict (extent_of Full target) bytes told answer → (first later : List Told) (p : CodedPicture) (ps : List CodedPicture) →
        told ≡ first ++ Decodes (p ∷ ps) ∷ later → EndsWithin p ps }
{}

/// A stream has one family of frames: two families, by number in decoding order, in each of which every picture is decoded from the frames that its lists
/// name, have the same sample at every place of every picture. So of the pictures of a stream with a yes (`whole`), and of those that have ended in units
/// that are legal, whatever follows them (`legal`).
pub fn one_family()
    ensures whole { (target : Target) (bytes : List ℕ) (told : List Told) (summary : Summary) (h : Holds (extent_of Full target) bytes told summary)
        (frames others : ℕ → Frame) → AreDecoded (Some frames) told → AreDecoded (Some others) told → AreSameOn frames others (runs_of h.units) }
    ensures legal { (target : Target) (before : History) (told : List Told) → AreLegal (extent_of Full target) before told →
        (frames others : ℕ → Frame) → AreDecoded (Some frames) told → AreDecoded (Some others) told →
        AreSameOn frames others (ended_pictures (goes_on before) false (runs_of before)) }
{}

/// What a sink is told of a stream up to its verdict, frames among it, is one list of calls, whichever family the frames are of
/// (`verdict`); so is what it is told of units that are legal, whatever follows them (`legal`), and any front of what it is told up
/// to the verdict (`front`). So sinks that were told two such fronts, as they are where memory is wanting or a source or a sink
/// fails, took two lists of which one begins with the other (`fronts`).
pub fn one_output()
    ensures verdict { (target : Target) (bytes : List ℕ) (told : List Told) (answer : Result Summary Stop) →
        Verdict (extent_of Full target) bytes told answer → (frames others : ℕ → Frame) → AreDecoded (Some frames) told → AreDecoded (Some others) told →
        calls_of (Some frames) told ≡ calls_of (Some others) told }
    ensures legal { (target : Target) (before : History) (told : List Told) → AreLegal (extent_of Full target) before told →
        (frames others : ℕ → Frame) → AreDecoded (Some frames) told → AreDecoded (Some others) told →
        calls_of (Some frames) told ≡ calls_of (Some others) told }
    ensures front { (target : Target) (bytes : List ℕ) (told rest : List Told) (answer : Result Summary Stop) →
        Verdict (extent_of Full target) bytes (told ++ rest) answer → (frames others : ℕ → Frame) → AreDecoded (Some frames) told →
        AreDecoded (Some others) told →
        calls_of (Some frames) told ≡ calls_of (Some others) told }
    ensures fronts { (target : Target) (bytes : List ℕ) (told rest other more : List Told) (answer another : Result Summary Stop) →
        Verdict (extent_of Full target) bytes (told ++ rest) answer → Verdict (extent_of Full target) bytes (other ++ more) another →
        (frames others : ℕ → Frame) → AreDecoded (Some frames) told → AreDecoded (Some others) other →
        IsFrontOf (calls_of (Some frames) told) (calls_of (Some others) other)
        ⊎ IsFrontOf (calls_of (Some others) other) (calls_of (Some frames) told) }
{}

/// A stream has for the verdict alone the verdict that it has for its frames (`verdict`). What a sink is told then is what it is told of any family of
/// frames, without the frames (`calls`).
pub fn verdict_without_frames()
    ensures verdict { (target : Target) (bytes : List ℕ) (told : List Told) (answer : Result Summary Stop) →
        (Verdict (extent_of modes.Verdict target) bytes told answer → Verdict (extent_of Full target) bytes told answer)
        × (Verdict (extent_of Full target) bytes told answer → Verdict (extent_of modes.Verdict target) bytes told answer) }
    ensures calls { (frames : ℕ → Frame) (told : List Told) → LeavesFramesOut (calls_of None told) (calls_of (Some frames) told) }
{}

/// A stream that is legal for the target `Baseline` is legal for `MainIP`, with the same calls, frames among them, and the same summary.
pub fn baseline_is_main_ip()
    ensures { (mode : Mode) (bytes : List ℕ) (told : List Told) (summary : Summary) → Holds (extent_of mode Baseline) bytes told summary →
        Holds (extent_of mode MainIP) bytes told summary }
{}
