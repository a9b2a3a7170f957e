//! The slices so far, the pictures that they begin, and the rules that a slice meets beside its own syntax.
#![tactic(auto)]

ghost use Rattle.std.specs.Prelude.{◌≡◌, ℕ, Bool, false, ◌==◌, ◌||◌, ◌+◌, ◌-◌, ◌*◌, ◌<◌, ◌≤◌, ◌^◌, true, Some, List, [], ◌∷◌, if◌then◌else◌, OnOk, Ok, IsErrOf};
ghost use Rattle.h264_base.specs.Call.{OfSlice, HasRoom, IsQuiet, span};
ghost use Rattle.h264_sps.specs.Usable.{has_lengths};
ghost use Rattle.h264_marking.specs.Gaps.{entered, all_filled, unused_short_term_frame_nums};
ghost use Rattle.h264_near.specs.Coded.{CodedMacroblock};
ghost use Rattle.h264_poc.specs.declared.picture.Picture.{Picture};
ghost use Rattle.h264_poc.specs.Counts.{Keeps as KeepsCounts};
ghost use Rattle.h264_verify.specs.Outcome.{Plays, tells};
ghost use Rattle.h264_verify.specs.Demands.{judged};
ghost use Rattle.h264_verify.specs.History.{History};
ghost use Rattle.h264_verify.specs.declared.state.Depth.{Depth};
ghost use Rattle.h264_plane.specs.declared.frame.Frame.{Frame};
ghost use Rattle.h264_dpb.specs.Turns.{Turn, turn_then};
ghost use Rattle.h264_verify.specs.Telling.{Said, with_frames, Family};
ghost use Rattle.h264_verify.specs.Buffering.{gaps_turn, ended_picture, frame_count, newest_count};
ghost use Rattle.h264_verify.specs.Keeping.{KeepsSlices, KeepsFrames, WhereMade, FillsFrames, EntersBy, KeepsSomeGap, GoesWith, KeepsSomeRules};
ghost use Rattle.h264_verify.specs.Keeping.{HoldsEnd, format_in};
ghost use Rattle.h264_verify.specs.Order.{first_slice_rules, later_slice_rules, slice_rules, told_rules};
ghost use Rattle.h264_verify.specs.Keeping.{HoldsOpen, IsLeft, pictures_by, slices_by, KeepsPictures, Entered, is_typed, slice_at};
ghost use Rattle.h264_verify.specs.CourseOutcome.{outcome_of};
ghost use Rattle.h264_verify.specs.Pictures.{CodedSlice, CodedPicture, open_of, joined_to, runs_of, goes_on, bit_after};
ghost use Rattle.h264_verify.specs.Pictures.{prev_ref_frame_num_after, begins_at, begins_after};
ghost use Rattle.h264_units.specs.UnitHeader.{ends_picture};
ghost use Rattle.h264_units.specs.UnitTypes.{type_number};
ghost use Rattle.h264_poc.specs.OfSlice.{picture_of};
ghost use Rattle.h264_marking.specs.Ended.{numbering_of, resets};
ghost use Rattle.h264_header.specs.Header.{slice_type_of};
ghost use Rattle.h264_header.specs.Picture.{is_idr, is_reference};
ghost use Rattle.h264_verify.specs.Slices.{idr_id, id_demand, count_demand, qp_demand, list_demand};
ghost use Rattle.h264_verify.specs.Lists.{list_of};

use crate::decoder::Decoder;
use crate::frame_num::{check_gap, check_idr_num};
use crate::head::{SliceHead, SlicePlace};
use crate::picture::{OpenPicture, begin, go_on};
use crate::rules::{
    build_list, check_id, check_marking, check_qp, check_same_type, check_type, idr_id,
};
use arrayvec::ArrayVec;
use h264_base::{Failed, Stop};
use h264_dpb::{Ended, FrameSink, ended_of};
use h264_header::Header;
use h264_lists::RefSlot;
use h264_marking::{Held, Numbering, numbering_of};
use h264_picture::buffer_size;
use h264_poc::{Count, Counts, picture_of};
use h264_sps::sps::Sps;
use h264_units::{NalUnit, NalUnitType};

/// What the slices so far leave for the rules of the next one.
#[derive(Drop)]
pub struct PicturesSoFar {
    /// The picture to which more slices may come.
    pub picture: Option<OpenPicture>,
    /// An IDR picture is due.
    pub due: bool,
    /// idr_pic_id of the newest picture, where it is an IDR picture.
    pub newest_idr: Option<u32>,
    /// What the picture order counts of the next picture depend on.
    pub counts: Counts,
    /// The counts of the newest picture.
    pub count: Option<Count>,
    /// How many pictures have begun.
    pub pictures: u64,
    /// PrevRefFrameNum after the newest picture.
    pub prev_ref_frame_num: u32,
    /// The reference frames.
    pub held: Held,
}

/// The newest slice. It has one place for all slices, since it is large to move.
#[derive(Drop)]
pub struct Slice {
    /// Its header.
    pub header: Header,
    /// Its reference list (8.2.4), once its rules are met; an I slice has none.
    pub list: ArrayVec<RefSlot, 16>,
}

impl Slice {
    ghost use Rattle.std.specs.Prelude.{◌≡◌, []};
    ghost use Rattle.h264_header.specs.Header.{unread_header};

    /// Before the first slice.
    pub fn unread() -> Slice
        ensures header { result.header ≡ unread_header }
        ensures list { result.list.items ≡ [] }
    {
        Slice {
            header: Header::unread(),
            list: ArrayVec::new(),
        }
    }
}

/// The counts of a picture.
fn count_picture(
    sps: &Sps,
    header: &Header,
    bit: u64,
    counts: &mut Counts,
    count: &mut Option<Count>,
) -> Result<(), Stop>
    requires { has_lengths sps.now ≡ true }
    ensures judged { (pictures : List Picture) → KeepsCounts pictures counts.old →
        result ≡ judged (count_demand (picture_of sps.now header.now ∷ pictures) bit ∷ []) }
    ensures kept { (pictures : List Picture) → KeepsCounts pictures counts.old →
        OnOk result (KeepsCounts (picture_of sps.now header.now ∷ pictures) counts.new) }
    ensures count { (pictures : List Picture) → KeepsCounts pictures counts.old →
        OnOk result (count.new ≡ newest_count (picture_of sps.now header.now ∷ pictures)) }
    ensures no_memory { IsErrOf result Stop.Memory → ⊥ }
{
    let next = counts.next(&picture_of(sps, header), bit)?;
    *count = Some(next);
    Ok(())
}

/// The rules of a picture's first slice after those on its frame_num, once the missing frames are held: on idr_pic_id, counts, QP and list.
fn check_new_picture(
    slices: &mut PicturesSoFar,
    head: &SliceHead<'_>,
    list: &mut ArrayVec<RefSlot, 16>,
) -> Result<(), Stop>
    requires lengths { has_lengths head.now.place.sps.now ≡ true }
    requires numbered { head.now.numbering ≡ numbering_of head.now.place.sps.now head.now.header.now }
    ensures judged { (pictures : List Picture) → KeepsCounts pictures slices.old.counts →
        result ≡ judged (id_demand slices.old.newest_idr head.now.header.now ∷
        count_demand (picture_of head.now.place.sps.now head.now.header.now ∷ pictures) (8 * head.now.place.unit.now.from) ∷
        qp_demand head.now.place.pps.now head.now.header.now ∷
        list_demand (list_of head.now.header.now.kind.value (numbering_of head.now.place.sps.now head.now.header.now) slices.old.held) ∷ []) }
    ensures no_memory { IsErrOf result Stop.Memory → ⊥ }
    ensures counts { (pictures : List Picture) → KeepsCounts pictures slices.old.counts →
        OnOk result (KeepsCounts (picture_of head.now.place.sps.now head.now.header.now ∷ pictures) slices.new.counts) }
    ensures count { (pictures : List Picture) → KeepsCounts pictures slices.old.counts →
        OnOk result (slices.new.count ≡ newest_count (picture_of head.now.place.sps.now head.now.header.now ∷ pictures)) }
    ensures list { OnOk result (list_of head.now.header.now.kind.value head.now.numbering slices.old.held ≡ Ok list.new.items) }
    ensures others { slices.new ≡ record slices.old { counts = slices.new.counts; count = slices.new.count } }
{
    let header = head.header;
    let SlicePlace { unit, pps, sps, .. } = head.place;
    let bit = 8 * unit.from();
    check_id(slices.newest_idr, header)?;
    count_picture(sps, header, bit, &mut slices.counts, &mut slices.count)?;
    check_qp(pps, header)?;
    build_list(&header.kind.value, &head.numbering, &slices.held, list)
}

/// The rules of a picture's first slice from its type on, where the picture before has ended; and what the picture leaves.
fn check_first_slice<S: FrameSink>(
    slices: &mut PicturesSoFar,
    head: &SliceHead<'_>,
    list: &mut ArrayVec<RefSlot, 16>,
    decoder: &mut Option<Decoder>,
    sink: &mut S,
) -> Result<(), Stop>
    requires lengths { has_lengths head.now.place.sps.now ≡ true }
    requires numbered { head.now.numbering ≡ numbering_of head.now.place.sps.now head.now.header.now }
    requires room { HasRoom S.failures sink.old }
    requires goes { is_idr head.now.header.now ≡ false → GoesWith head.now.place.sps.now slices.old.held decoder.old }
    requires kept { KeepsSomeGap decoder.old }
    ensures plays { (depth : Depth) (frames : Family) (t : Turn) (next : ℕ) (pictures : List Picture) →
        WhereMade depth (FillsFrames frames t next) decoder.old → KeepsCounts pictures slices.old.counts →
        Plays (with_frames frames (span S.took S.failures sink.old sink.new)) (λ x. x)
        (outcome_of (first_slice_rules depth (pictures_by slices.old pictures t.buffer) (slice_at head.now.place head.now.header.now []))) result }
    ensures gap { (depth : Depth) (frames : Family) (t : Turn) (next : ℕ) → WhereMade depth (FillsFrames frames t next) decoder.old →
        OnOk result (WhereMade depth (FillsFrames frames (turn_then t (gaps_turn (numbering_of head.now.place.sps.now head.now.header.now)
        (unused_short_term_frame_nums (is_idr head.now.header.now) slices.old.prev_ref_frame_num
        (numbering_of head.now.place.sps.now head.now.header.now)) slices.old.held)) next) decoder.new) }
    ensures no_memory { IsErrOf result Stop.Memory → ⊥ }
    ensures format { format_in decoder.new ≡ format_in decoder.old }
    ensures counts { (pictures : List Picture) → KeepsCounts pictures slices.old.counts →
        OnOk result (KeepsCounts (picture_of head.now.place.sps.now head.now.header.now ∷ pictures) slices.new.counts) }
    ensures count { (pictures : List Picture) → KeepsCounts pictures slices.old.counts →
        OnOk result (slices.new.count ≡ newest_count (picture_of head.now.place.sps.now head.now.header.now ∷ pictures)) }
    ensures held { OnOk result (slices.new.held ≡ entered (is_idr head.now.header.now) slices.old.prev_ref_frame_num
        (numbering_of head.now.place.sps.now head.now.header.now) slices.old.held) }
    ensures filled { OnOk result (all_filled (numbering_of head.now.place.sps.now head.now.header.now)
        (unused_short_term_frame_nums (is_idr head.now.header.now) slices.old.prev_ref_frame_num
        (numbering_of head.now.place.sps.now head.now.header.now)) slices.old.held ≡ Some
        slices.new.held) }
    ensures typed { OnOk result (is_typed head.now.header.now ≡ true) }
    ensures prev { OnOk result (slices.new.prev_ref_frame_num ≡ prev_ref_frame_num_after (is_idr head.now.header.now) (is_reference head.now.header.now)
        (resets head.now.header.now.marking) (numbering_of head.now.place.sps.now head.now.header.now) slices.old.prev_ref_frame_num) }
    ensures others { slices.new ≡ record slices.old {
      counts = slices.new.counts;
      count = slices.new.count;
      prev_ref_frame_num =
          slices.new.prev_ref_frame_num;
      held = slices.new.held;
    } }
    ensures list { OnOk result (list_of head.now.header.now.kind.value head.now.numbering slices.new.held ≡ Ok list.new.items) }
    ensures kept { OnOk result (IsQuiet S.failures sink.old sink.new) }
{
    check_type(head.place.sps, head.header)?;
    check_idr_num(head.header)?;
    check_gap(
        head,
        &mut slices.prev_ref_frame_num,
        &mut slices.held,
        decoder,
        sink,
    )?;
    check_new_picture(slices, head, list)
}

/// The rules of a picture's later slice from its type on.
fn check_later_slice(
    slices: &PicturesSoFar,
    head: &SliceHead<'_>,
    list: &mut ArrayVec<RefSlot, 16>,
) -> Result<(), Stop>
    requires lengths { has_lengths head.now.place.sps.now ≡ true }
    requires numbered { head.now.numbering ≡ numbering_of head.now.place.sps.now head.now.header.now }
    ensures judged { result ≡ judged (later_slice_rules (slices_by slices.now) (slice_at head.now.place head.now.header.now [])) }
    ensures list { OnOk result (list_of head.now.header.now.kind.value head.now.numbering slices.now.held ≡ Ok list.new.items) }
    ensures typed { OnOk result (is_typed head.now.header.now ≡ true) }
    ensures no_memory { IsErrOf result Stop.Memory → ⊥ }
{
    let header = head.header;
    check_type(head.place.sps, header)?;
    check_same_type(&slices.picture, header)?;
    check_idr_num(header)?;
    check_qp(head.place.pps, header)?;
    build_list(&header.kind.value, &head.numbering, &slices.held, list)?;
    check_marking(&slices.picture, header)
}

/// The rules of a slice from its type on, its list, and what a picture that begins leaves.
fn check_rules<S: FrameSink>(
    slices: &mut PicturesSoFar,
    head: &SliceHead<'_>,
    list: &mut ArrayVec<RefSlot, 16>,
    decoder: &mut Option<Decoder>,
    sink: &mut S,
) -> Result<(), Stop>
    requires lengths { has_lengths head.now.place.sps.now ≡ true }
    requires numbered { head.now.numbering ≡ numbering_of head.now.place.sps.now head.now.header.now }
    requires room { HasRoom S.failures sink.old }
    requires pictures { slices.old.pictures < 2 ^ 42 }
    requires goes { head.now.place.begins ≡ true → is_idr head.now.header.now ≡ false →
        GoesWith head.now.place.sps.now slices.old.held decoder.old }
    requires kept { KeepsSomeRules head.now.place.begins slices.old decoder.old }
    ensures plays { (depth : Depth) (frames : Family) (before : History) → KeepsSlices before head.now.place.begins slices.old →
        head.now.place.begins ≡ begins_at before head.now.header.now →
        WhereMade depth (KeepsFrames frames (goes_on before) head.now.place.begins (runs_of before)) decoder.old →
        Plays (with_frames frames (span S.took S.failures sink.old sink.new)) (λ x. x) (outcome_of
        (slice_rules depth head.now.place.begins (runs_of before) (slice_at head.now.place head.now.header.now []))) result }
    ensures entered { (before : History) (macroblocks : List CodedMacroblock) → KeepsSlices before head.now.place.begins slices.old →
        head.now.place.begins ≡ begins_at before head.now.header.now →
        OnOk result (Entered before head.now.place.begins (slice_at head.now.place head.now.header.now macroblocks) slices.new) }
    ensures frames { (depth : Depth) (frames : Family) (before : History) → KeepsSlices before head.now.place.begins slices.old →
        head.now.place.begins ≡ begins_at before head.now.header.now →
        WhereMade depth (KeepsFrames frames (goes_on before) head.now.place.begins (runs_of before)) decoder.old →
        OnOk result (WhereMade depth (EntersBy frames head.now.place.begins (slice_at head.now.place head.now.header.now []) (goes_on before)
        (runs_of before)) decoder.new) }
    ensures filled { head.now.place.begins ≡ true → OnOk result (all_filled (numbering_of head.now.place.sps.now head.now.header.now)
        (unused_short_term_frame_nums (is_idr head.now.header.now) slices.old.prev_ref_frame_num
        (numbering_of head.now.place.sps.now head.now.header.now)) slices.old.held ≡ Some
        slices.new.held) }
    ensures list { OnOk result (list_of head.now.header.now.kind.value head.now.numbering slices.new.held ≡ Ok list.new.items) }
    ensures typed { OnOk result (is_typed head.now.header.now ≡ true) }
    ensures format { format_in decoder.new ≡ format_in decoder.old }
    ensures pictures { slices.new.pictures ≡ slices.old.pictures }
    ensures no_memory { IsErrOf result Stop.Memory → ⊥ }
    ensures kept { OnOk result (IsQuiet S.failures sink.old sink.new) }
{
    if head.place.begins {
        check_first_slice(slices, head, list, decoder, sink)
    } else {
        check_later_slice(slices, head, list)
    }
}

/// The first stream bit after a unit.
fn bit_after(unit: &NalUnit) -> u64
    ensures { result ≡ bit_after unit.now }
{
    8 * (unit.from() + unit.body().len() as u64)
}

/// Tells a slice of a picture with these counts.
fn tell_slice<S: FrameSink>(
    byte: u64,
    header: &Header,
    count: Option<Count>,
    sink: &mut S,
) -> Result<(), Stop>
    requires { HasRoom S.failures sink.old }
    ensures plays { (frames : Family) → Plays (with_frames frames (span S.took S.failures sink.old sink.new)) (λ x. x)
        (tells (Said (OfSlice byte header.now.first_mb_in_slice.value (slice_type_of header.now.kind.value) header.now.frame_num.value
        (frame_count count)))) result }
    ensures no_memory { IsErrOf result Stop.Memory → ⊥ }
{
    let count = frame_count(count);
    let mb = header.first_mb_in_slice.value;
    match sink.slice(
        byte,
        mb,
        header.kind.value.slice_type(),
        header.frame_num.value,
        count,
    ) {
        Ok(()) => Ok(()),
        Err(Failed) => Err(Stop::Write),
    }
}

/// The lesser of the counts of a frame's fields.
fn frame_count(count: Option<Count>) -> i32
    ensures { result ≡ frame_count count }
{
    match count {
        None => 0,
        Some(count) => count.top.min(count.bottom),
    }
}

/// Keeps what a slice leaves that begins a picture, or goes on with one, where its unit ends before the bit `following`. Its marking may leave
/// the header.
fn enter(
    slices: &mut PicturesSoFar,
    begins: bool,
    header: &mut Header,
    numbering: Numbering,
    ended: Ended,
    following: u64,
)
    requires { slices.old.pictures < 2 ^ 42 }
    ensures picture { (on : Bool) (pictures : List CodedPicture) (slice : CodedSlice) → slice.header ≡ header.old →
        HoldsOpen (open_of on pictures) slices.old.picture → begins ≡ begins_after (open_of on pictures) header.old →
        numbering ≡ numbering_of slice.sps slice.header → following ≡ bit_after slice.unit →
        HoldsOpen (open_of true (joined_to begins slice pictures)) slices.new.picture }
    ensures end { (on : Bool) (pictures : List CodedPicture) (slice : CodedSlice) →
        (begins ≡ true → ended ≡ ended_picture (record { first = slice; later = [] }) pictures) → HoldsOpen (open_of on pictures) slices.old.picture →
        HoldsEnd pictures slices.old.picture → begins ≡ begins_after (open_of on pictures) header.old →
        HoldsEnd (joined_to begins slice pictures) slices.new.picture }
    ensures newest { slices.new.newest_idr ≡ (if begins then idr_id header.old.idr_pic_id else slices.old.newest_idr) }
    ensures pictures { slices.new.pictures ≡ (if begins then slices.old.pictures + 1 else slices.old.pictures) }
    ensures due { slices.new.due ≡ false }
    ensures others { slices.new ≡ record slices.old {
      picture = slices.new.picture;
      newest_idr = slices.new.newest_idr;
      pictures =
          slices.new.pictures;
      due = slices.new.due;
    } }
    ensures header { header.new ≡ record header.old { marking = header.new.marking } }
{
    slices.due = false;
    if begins {
        slices.pictures += 1;
        slices.newest_idr = idr_id(header.idr_pic_id);
        begin(&mut slices.picture, header, numbering, ended, following);
        return;
    }
    if let Some(picture) = &mut slices.picture {
        go_on(picture, header, following);
    }
}

/// The rules of a slice from its type on (7.4.3, 8.2), what the sink is told of it, and what it leaves, with its list. The header is to be
/// read anew for the next slice.
///
/// Err: the first that is not met of SliceType, FrameNum, IdrPicId, Count, Qp, ListCommand and MarkDiffers, at its element's bit (Count at the
/// first of the unit), or Write where the sink failed. What is kept is then of no use.
pub(crate) fn judge_rules<S: FrameSink>(
    place: &SlicePlace<'_>,
    slices: &mut PicturesSoFar,
    slice: &mut Slice,
    decoder: &mut Option<Decoder>,
    sink: &mut S,
) -> Result<(), Stop>
    requires lengths { has_lengths place.now.sps.now ≡ true }
    requires room { HasRoom S.failures sink.old }
    requires pictures { slices.old.pictures < 2 ^ 42 }
    requires goes { place.now.begins ≡ true → is_idr slice.old.header ≡ false → GoesWith place.now.sps.now slices.old.held decoder.old }
    requires kept { KeepsSomeRules place.now.begins slices.old decoder.old }
    ensures plays { (depth : Depth) (frames : Family) (before : History) → KeepsSlices before place.now.begins slices.old →
        place.now.begins ≡ begins_at before slice.old.header →
        WhereMade depth (KeepsFrames frames (goes_on before) place.now.begins (runs_of before)) decoder.old →
        Plays (with_frames frames (span S.took S.failures sink.old sink.new)) (λ x. x) (outcome_of
        (told_rules depth place.now.begins (runs_of before) (slice_at place.now slice.old.header []))) result }
    ensures entered { (before : History) (macroblocks : List CodedMacroblock) → KeepsSlices before place.now.begins slices.old →
        place.now.begins ≡ begins_at before slice.old.header → OnOk result (KeepsPictures true false
        (joined_to place.now.begins (slice_at place.now slice.old.header macroblocks) (runs_of before)) slices.new) }
    ensures frames { (depth : Depth) (frames : Family) (before : History) → KeepsSlices before place.now.begins slices.old →
        place.now.begins ≡ begins_at before slice.old.header →
        WhereMade depth (KeepsFrames frames (goes_on before) place.now.begins (runs_of before)) decoder.old →
        OnOk result (WhereMade depth (EntersBy frames place.now.begins (slice_at place.now slice.old.header []) (goes_on before) (runs_of before))
        decoder.new) }
    ensures filled { place.now.begins ≡ true → OnOk result (all_filled (numbering_of place.now.sps.now slice.old.header)
        (unused_short_term_frame_nums (is_idr slice.old.header) slices.old.prev_ref_frame_num (numbering_of place.now.sps.now slice.old.header))
        slices.old.held ≡ Some slices.new.held) }
    ensures list { OnOk result (list_of slice.old.header.kind.value (numbering_of place.now.sps.now slice.old.header) slices.new.held ≡
        Ok slice.new.list.items) }
    ensures due { OnOk result (slices.new.due ≡ false) }
    ensures header { slice.new.header ≡ record slice.old.header { marking = slice.new.header.marking } }
    ensures typed { OnOk result (is_typed slice.old.header ≡ true) }
    ensures format { format_in decoder.new ≡ format_in decoder.old }
    ensures pictures { slices.new.pictures ≤ slices.old.pictures + 1 }
    ensures no_memory { IsErrOf result Stop.Memory → ⊥ }
    ensures kept { OnOk result (IsQuiet S.failures sink.old sink.new) }
{
    let SlicePlace {
        unit,
        sps,
        begins,
        ..
    } = *place;
    let numbering = numbering_of(sps, &slice.header);
    let head = SliceHead {
        place: *place,
        header: &slice.header,
        numbering,
    };
    check_rules(slices, &head, &mut slice.list, decoder, sink)?;
    tell_slice(unit.from(), &slice.header, slices.count, sink)?;
    let ended = ended_of(
        sps,
        &slice.header,
        slices.pictures,
        frame_count(slices.count),
        buffer_size(sps),
    );
    let following = bit_after(unit);
    enter(
        slices,
        begins,
        &mut slice.header,
        numbering,
        ended,
        following,
    );
    Ok(())
}

/// Before the first slice, when an IDR picture is due (7.4.1.2.1).
pub fn no_slices() -> PicturesSoFar
    ensures { KeepsSlices [] false result }
{
    PicturesSoFar {
        picture: None,
        due: true,
        newest_idr: None,
        counts: Counts::new(),
        count: None,
        pictures: 0,
        prev_ref_frame_num: 0,
        held: Held::new(),
    }
}

/// A unit of this type that is no slice ends the picture before it, or does not (7.4.1.2.3); after the end of a sequence or of the
/// stream an IDR picture is due.
pub fn pass_by(slices: &mut PicturesSoFar, kind: NalUnitType)
    ensures picture { IsLeft (ends_picture (type_number kind)) slices.old.picture slices.new.picture }
    ensures due { slices.new.due ≡ ((type_number kind == 10 || type_number kind == 11) || slices.old.due) }
    ensures others { slices.new ≡ record slices.old { picture = slices.new.picture; due = slices.new.due } }
{
    if matches!(kind, NalUnitType::EndOfSequence | NalUnitType::EndOfStream) {
        slices.due = true;
    }
    if kind.ends_picture() {
        slices.picture = None;
    }
}
