//! frame_num of a slice, and the frames that are missing before its picture (7.4.3, 8.2.5.2).
#![tactic(auto)]

ghost use Rattle.std.specs.Prelude.{◌≡◌, ℕ, ◌+◌, ◌-◌, ◌%◌, ◌<◌, ◌≤◌, ◌^◌, ◌&&◌, ◌||◌, not, ◌==◌, true, false, length, [], ◌∷◌, Some, None, Ok, Err};
ghost use Rattle.h264_base.specs.Call.{HasRoom, IsQuiet, span};
ghost use Rattle.std.specs.Prelude.{OnOk, IfOk, IfErr, IsErrOf, if◌then◌else◌};
ghost use Rattle.h264_sps.specs.Usable.{has_lengths};
ghost use Rattle.std.specs.Prelude.{List};
ghost use Rattle.h264_verify.specs.declared.state.Depth.{Depth};
ghost use Rattle.h264_plane.specs.declared.frame.Frame.{Frame};
ghost use Rattle.h264_dpb.specs.Bumping.{missing_in};
ghost use Rattle.h264_marking.specs.Frames.{frame_places};
ghost use Rattle.h264_dpb.specs.Turns.{Turn, turn_then, names, missing_turn};
ghost use Rattle.h264_base.specs.declared.rule.Rule.TheVariants.{FrameNum};
ghost use Rattle.h264_base.specs.declared.stop.Stop.TheVariants.{No};
ghost use Rattle.h264_marking.specs.Gaps.{is_new_num, entered, last_or, all_filled, unused_short_term_frame_nums};
ghost use Rattle.h264_verify.specs.Telling.{with_frames, Family};
ghost use Rattle.h264_verify.specs.Outcome.{Plays};
ghost use Rattle.h264_verify.specs.Buffering.{told_frames, gaps_turn, missing_steps};
ghost use Rattle.h264_marking.specs.Steady.{IsSteady};
ghost use Rattle.h264_verify.specs.Keeping.{WhereMade, FillsFrames, KeepsSomeGap, BufferStays, HasPlaces, GoesWith, numbers_in, format_in, slice_at};
ghost use Rattle.h264_verify.specs.CourseOutcome.{outcome_of};
ghost use Rattle.h264_verify.specs.Demands.{judged};
ghost use Rattle.h264_verify.specs.Pictures.{prev_ref_frame_num_after};
ghost use Rattle.h264_header.specs.Picture.{is_idr, is_reference};
ghost use Rattle.h264_marking.specs.Ended.{resets, numbering_of};
ghost use Rattle.h264_verify.specs.Slices.{idr_num_demand};
ghost use Rattle.h264_verify.specs.Order.{gap_rules};

use crate::decoder::Decoder;
use crate::head::SliceHead;
use crate::rules::check;
use h264_base::{Rule, Stop};
use h264_dpb::FrameSink;
use h264_header::Header;
use h264_marking::gaps::{gap_before, is_new_num, number_after};
use h264_marking::{Held, Numbering, resets};

/// How many frames are held at most (7.4.2.1.1). After so many missing numbers all short-term frames are theirs.
const MOST_PLACES: u32 = 16;

/// The numbers that are missing between PrevRefFrameNum and a picture's frame_num (7.4.3): the values of UnusedShortTermFrameNum.
#[derive(Clone, Copy)]
struct Gap {
    /// PrevRefFrameNum: the number before them.
    prev_ref_frame_num: u32,
    /// How many there are.
    count: u32,
    /// What the picture's numbers go by.
    numbering: Numbering,
    /// The stream bit of the picture's frame_num.
    bit: u64,
}

/// PrevRefFrameNum after a picture, where `last` is the last missing number, or the one before.
fn prev_ref_after(reference: bool, resets: bool, frame_num: u32, last: u32) -> u32
    ensures { result ≡ (if reference then (if resets then 0 else frame_num) else last) }
{
    if !reference {
        return last;
    }
    if resets {
        return 0;
    }
    frame_num
}

/// The rule on frame_num of an IDR picture's slices.
pub(crate) fn check_idr_num(header: &Header) -> Result<(), Stop>
    ensures { result ≡ judged (idr_num_demand header.now ∷ []) }
{
    let fits = header.idr_pic_id.is_none() || header.frame_num.value == 0;
    check(fits, Rule::FrameNum, header.frame_num.bit)
}

/// The frame of a missing number takes its place, where frames are made.
fn miss<S: FrameSink>(held: &Held, decoder: &mut Option<Decoder>, sink: &mut S) -> Result<(), Stop>
    requires room { HasRoom S.failures sink.old }
    requires missing { 0 < missing_in (names held.now) }
    requires few { HasPlaces (length held.now.frames) decoder.old }
    requires kept { KeepsSomeGap decoder.old }
    ensures plays { (depth : Depth) (frames : Family) (t : Turn) (next : ℕ) → WhereMade depth (FillsFrames frames t next) decoder.old →
        Plays (with_frames frames (span S.took S.failures sink.old sink.new)) (λ x. x)
        (outcome_of (told_frames depth (missing_turn held.now t.buffer).written)) result }
    ensures keeps { (depth : Depth) (frames : Family) (t : Turn) (next : ℕ) → WhereMade depth (FillsFrames frames t next) decoder.old →
        OnOk result (WhereMade depth (FillsFrames frames (turn_then t (missing_turn held.now)) next) decoder.new) }
    ensures no_memory { IfErr result (λ e. e ≡ Stop.Write) }
    ensures sized { (n : ℕ) → HasPlaces n decoder.old → HasPlaces n decoder.new }
    ensures format { format_in decoder.new ≡ format_in decoder.old }
    ensures kept { OnOk result (IsQuiet S.failures sink.old sink.new) }
{
    match decoder {
        None => Ok(()),
        Some(decoder) => decoder.miss(held, sink),
    }
}

/// Where frames are made, whether one more of a missing number leaves the buffer as it is.
fn buffer_stays(held: &Held, decoder: &Option<Decoder>) -> bool
    ensures { result ≡ true → (depth : Depth) (frames : Family) (t : Turn) (next : ℕ) → WhereMade depth (FillsFrames frames t next) decoder.now →
        BufferStays depth held.now t.buffer }
{
    match decoder {
        None => true,
        Some(decoder) => decoder.buffer_stays(held),
    }
}

/// Whether so many missing numbers are filled that the next ones change nothing but the numbers of frames. It is tried once, after as many
/// as frames may be held.
fn may_skip(
    turn: u32,
    numbering: &Numbering,
    last: u32,
    held: &Held,
    decoder: &Option<Decoder>,
) -> bool
    requires { 0 < numbering.now.max_frame_num }
    ensures held { result ≡ true → IsSteady numbering.now last held.now.frames }
    ensures frames { result ≡ true → (depth : Depth) (frames : Family) (t : Turn) (next : ℕ) → WhereMade depth (FillsFrames frames t next) decoder.now →
        BufferStays depth held.now t.buffer }
{
    if turn != MOST_PLACES {
        return false;
    }
    if !held.is_steady(numbering, last) {
        return false;
    }
    buffer_stays(held, decoder)
}

/// Fills a gap's numbers one after another (8.2.5.2), and gives the last of them, or PrevRefFrameNum where there is none. It skips those that change
/// nothing but the numbers of frames.
fn fill_frames<S: FrameSink>(
    gap: &Gap,
    held: &mut Held,
    decoder: &mut Option<Decoder>,
    sink: &mut S,
) -> Result<u32, Stop>
    requires room { HasRoom S.failures sink.old }
    requires numbers { 0 < gap.now.numbering.max_frame_num }
    requires few { 0 < gap.now.count → length held.old.frames ≤ frame_places gap.now.numbering.max_num_ref_frames }
    requires places { 0 < gap.now.count → HasPlaces (frame_places gap.now.numbering.max_num_ref_frames) decoder.old }
    requires kept { KeepsSomeGap decoder.old }
    ensures plays { (depth : Depth) (frames : Family) (t : Turn) (next : ℕ) → WhereMade depth (FillsFrames frames t next) decoder.old →
        Plays (with_frames frames (span S.took S.failures sink.old sink.new)) (λ _. tt) (outcome_of
        (missing_steps depth gap.now.bit gap.now.numbering (numbers_in gap.now) held.old t.buffer)) result }
    ensures keeps { (depth : Depth) (frames : Family) (t : Turn) (next : ℕ) → WhereMade depth (FillsFrames frames t next) decoder.old →
        OnOk result (WhereMade depth (FillsFrames frames (turn_then t (gaps_turn gap.now.numbering (numbers_in gap.now) held.old)) next) decoder.new) }
    ensures no_memory { IsErrOf result Stop.Memory → ⊥ }
    ensures format { format_in decoder.new ≡ format_in decoder.old }
    ensures last { IfOk result (λ last. last ≡ last_or gap.now.prev_ref_frame_num (numbers_in gap.now)) }
    ensures held { OnOk result (all_filled gap.now.numbering (numbers_in gap.now) held.old ≡ Some held.new) }
    ensures kept { OnOk result (IsQuiet S.failures sink.old sink.new) }
{
    let numbering = &gap.numbering;
    let count = gap.count;
    let mut last = gap.prev_ref_frame_num;
    for turn in 0..count {
        if may_skip(turn, numbering, last, held, decoder) {
            held.skip(numbering, last, count - turn);
            return Ok(number_after(last, count - turn, numbering.max_frame_num));
        }
        let missing = Numbering {
            frame_num: number_after(last, 1, numbering.max_frame_num),
            max_frame_num: numbering.max_frame_num,
            max_num_ref_frames: numbering.max_num_ref_frames,
        };
        held.fill_gap(&missing, gap.bit)?;
        miss(held, decoder, sink)?;
        last = missing.frame_num;
    }
    Ok(last)
}

/// The rule on a gap of so many numbers: there is none, or there may be gaps.
fn check_missing(count: u32, gaps_allowed: bool, bit: u64) -> Result<(), Stop>
    ensures { result ≡ (if count == 0 || gaps_allowed then Ok tt else Err (No bit FrameNum)) }
{
    let may_miss = count == 0 || gaps_allowed;
    check(may_miss, Rule::FrameNum, bit)
}

/// The rule on the number of a reference picture that is no IDR picture, once the gap is filled.
fn check_new(
    idr: bool,
    reference: bool,
    prev: u32,
    frame_num: u32,
    held: &Held,
    bit: u64,
) -> Result<(), Stop>
    ensures { result ≡ (if idr || not reference || is_new_num prev frame_num held.now then Ok tt else Err (No bit FrameNum)) }
{
    let is_new = idr || !reference || is_new_num(prev, frame_num, held);
    check(is_new, Rule::FrameNum, bit)
}

/// The rules on a picture's frame_num, and what the picture leaves of the numbers before it: the gap is filled.
pub(crate) fn check_gap<S: FrameSink>(
    head: &SliceHead<'_>,
    prev_ref_frame_num: &mut u32,
    held: &mut Held,
    decoder: &mut Option<Decoder>,
    sink: &mut S,
) -> Result<(), Stop>
    requires lengths { has_lengths head.now.place.sps.now ≡ true }
    requires numbered { head.now.numbering ≡ numbering_of head.now.place.sps.now head.now.header.now }
    requires room { HasRoom S.failures sink.old }
    requires goes { is_idr head.now.header.now ≡ false → GoesWith head.now.place.sps.now held.old decoder.old }
    requires kept { KeepsSomeGap decoder.old }
    ensures plays { (depth : Depth) (frames : Family) (t : Turn) (next : ℕ) → WhereMade depth (FillsFrames frames t next) decoder.old →
        Plays (with_frames frames (span S.took S.failures sink.old sink.new)) (λ x. x) (outcome_of
        (gap_rules depth (slice_at head.now.place head.now.header.now []) prev_ref_frame_num.old held.old t.buffer)) result }
    ensures keeps { (depth : Depth) (frames : Family) (t : Turn) (next : ℕ) → WhereMade depth (FillsFrames frames t next) decoder.old →
        OnOk result (WhereMade depth (FillsFrames frames (turn_then t (gaps_turn (numbering_of head.now.place.sps.now head.now.header.now)
        (unused_short_term_frame_nums (is_idr head.now.header.now) prev_ref_frame_num.old
        (numbering_of head.now.place.sps.now head.now.header.now)) held.old)) next) decoder.new) }
    ensures no_memory { IsErrOf result Stop.Memory → ⊥ }
    ensures format { format_in decoder.new ≡ format_in decoder.old }
    ensures held { OnOk result (held.new ≡ entered (is_idr head.now.header.now)
        prev_ref_frame_num.old (numbering_of head.now.place.sps.now head.now.header.now) held.old) }
    ensures filled { OnOk result (all_filled (numbering_of head.now.place.sps.now head.now.header.now)
        (unused_short_term_frame_nums (is_idr head.now.header.now) prev_ref_frame_num.old
        (numbering_of head.now.place.sps.now head.now.header.now)) held.old ≡ Some held.new) }
    ensures prev { OnOk result (prev_ref_frame_num.new ≡ prev_ref_frame_num_after (is_idr head.now.header.now) (is_reference head.now.header.now)
        (resets head.now.header.now.marking) (numbering_of head.now.place.sps.now head.now.header.now) prev_ref_frame_num.old) }
    ensures kept { OnOk result (IsQuiet S.failures sink.old sink.new) }
{
    let header = head.header;
    let numbering = head.numbering;
    let idr = header.idr_pic_id.is_some();
    let reference = header.nal_ref_idc != 0;
    let bit = header.frame_num.bit;
    let prev = *prev_ref_frame_num;
    let count = gap_before(idr, prev, &numbering);
    check_missing(
        count,
        head.place.sps.gaps_in_frame_num_value_allowed_flag,
        bit,
    )?;
    let gap = Gap {
        prev_ref_frame_num: prev,
        count,
        numbering,
        bit,
    };
    let last = fill_frames(&gap, held, decoder, sink)?;
    check_new(idr, reference, prev, numbering.frame_num, held, bit)?;
    *prev_ref_frame_num = prev_ref_after(
        reference,
        resets(&header.marking),
        numbering.frame_num,
        last,
    );
    Ok(())
}
