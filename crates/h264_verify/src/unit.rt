//! A unit, and the end of the input: how they are judged, and what the sink is told of them.
#![tactic(auto)]

ghost use Rattle.std.specs.Prelude.{◌≡◌, true, false, ℕ, ◌+◌, ◌-◌, ◌*◌, ◌<◌, ◌≤◌, ◌^◌, List, length, ◌==◌, ◌||◌, OnOk, IfErr};
ghost use Rattle.h264_base.specs.Call.{HasRoom, IsQuiet, span};
ghost use Rattle.std.specs.Prelude.{IsErrOf, Ok, Err};
ghost use Rattle.h264_rbsp.specs.Rbsp.{body_of};
ghost use Rattle.h264_verify.specs.Outcome.{Plays, tells};
ghost use Rattle.h264_verify.specs.Demands.{judged};
ghost use Rattle.h264_units.specs.UnitHeader.{header_of, nal_unit_type, nal_ref_idc, is_slice};
ghost use Rattle.h264_units.specs.UnitTypes.{type_number};
ghost use Rattle.h264_units.specs.UnitHeader.{fits_kind};
ghost use Rattle.h264_verify.specs.Order.{header_demands};
ghost use Rattle.h264_verify.specs.History.{History};
ghost use Rattle.h264_dpb.specs.Turns.{Turn, last_turn};
ghost use Rattle.h264_verify.specs.Telling.{Said, with_frames, frame_span, Family};
ghost use Rattle.h264_verify.specs.Buffering.{told_frames, after_all, frames_written};
ghost use Rattle.h264_verify.specs.KeepingUnits.{Keeps, KeepsWithin, KeepsSome};
ghost use Rattle.h264_verify.specs.Keeping.{WhereMade, FillsFrames, HasWritten, KeepsSomeGap, KeepsSomeSlice, IsLeft, ended_in};
ghost use Rattle.h264_verify.specs.Pictures.{CodedPicture};
ghost use Rattle.h264_units.specs.UnitHeader.{ends_picture};
ghost use Rattle.h264_verify.specs.Turning.{Turns, Joins, Pauses, EndsAll, is_ending, ended_before};
ghost use Rattle.h264_verify.specs.UnitOutcome.{content_to_data, unit_to_data};
ghost use Rattle.h264_verify.specs.Units.{unit_call, slice_unit, has_pictures};
ghost use Rattle.h264_verify.specs.Memory.{bytes_of, reads_slices, ChangesFormat};
ghost use Rattle.h264_verify.specs.CourseOutcome.{outcome_of};
ghost use Rattle.h264_verify.specs.declared.state.Depth.{Depth};

use crate::close::{close, close_if};
use crate::data::read_data;
use crate::decoder::Decoder;
use crate::head::{SlicePlace, sets_named};
use crate::nal_header::NalHeader;
use crate::picture::begins;
use crate::rules::check;
use crate::slice::place_slice;
use crate::slices::{judge_rules, pass_by};
use crate::state::{Depth, Extent, State};
use h264_base::{Failed, Rule, Stop, Summary};
use h264_bits::Bits;
use h264_dpb::FrameSink;
use h264_header::{Header, SliceUnit, read_header};
use h264_pps::read_pps;
use h264_rbsp::{Rbsp, check_emulation};
use h264_sets::Sets;
use h264_sps::read::read_sps;
use h264_units::{NalUnit, NalUnitType};
use std::alloc::Global;

/// The rules of a unit's first byte.
fn check_header(unit: &NalUnit) -> Result<(), Stop>
    ensures { result ≡ judged (header_demands (8 * unit.now.from) (header_of unit.now)) }
{
    let bit = 8 * unit.from();
    let header = NalHeader::of(unit);
    let kind = header.nal_unit_type();
    check(header.forbidden_zero_bit() == 0, Rule::ForbiddenBit, bit)?;
    check(kind.fits(header.nal_ref_idc()), Rule::RefIdc, bit)?;
    check(!kind.is_partition(), Rule::Partition, bit)
}

/// Tells the sink a unit.
fn tell_unit<S: FrameSink>(unit: &NalUnit, sink: &mut S) -> Result<(), Stop>
    requires { HasRoom S.failures sink.old }
    ensures plays { (frames : Family) → Plays (with_frames frames (span S.took S.failures sink.old sink.new)) (λ x. x)
        (tells (Said (unit_call unit.now.from (header_of unit.now) (length unit.now.body)))) result }
    ensures no_memory { IsErrOf result Stop.Memory → ⊥ }
{
    let header = NalHeader::of(unit);
    let (kind, nal_ref_idc) = (header.nal_unit_type(), header.nal_ref_idc());
    match sink.unit(unit.from(), kind, nal_ref_idc, unit.body().len() as u64) {
        Ok(()) => Ok(()),
        Err(Failed) => Err(Stop::Write),
    }
}

/// Whether the picture that may go on ends before what is in this unit (7.4.1.2.3).
fn is_ending(unit: &NalUnit) -> bool
    ensures { result ≡ is_ending unit.now }
{
    NalHeader::of(unit).nal_unit_type().ends_picture()
}

/// What a unit's first byte says of the slice in it.
fn slice_unit(unit: &NalUnit) -> SliceUnit
    ensures { result ≡ slice_unit unit.now }
{
    let header = NalHeader::of(unit);
    SliceUnit {
        idr_pic_flag: matches!(header.nal_unit_type(), NalUnitType::IdrSlice),
        nal_ref_idc: header.nal_ref_idc() as u32,
    }
}

/// Adds a unit that is no slice to those before it.
fn pass(state: &mut State, kind: NalUnitType)
    requires { state.old.units ≤ 2 ^ 40 }
    ensures units { state.new.units ≡ state.old.units + 1 }
    ensures sets { state.new.sets ≡ state.old.sets }
    ensures picture { IsLeft (ends_picture (type_number kind)) state.old.slices.picture state.new.slices.picture }
    ensures due { state.new.slices.due ≡ ((type_number kind == 10 || type_number kind == 11) || state.old.slices.due) }
    ensures decoder { state.new.decoder ≡ state.old.decoder }
    ensures others { state.new.slices ≡ record state.old.slices { picture = state.new.slices.picture; due = state.new.slices.due } }
{
    pass_by(&mut state.slices, kind);
    state.units += 1;
}

/// Reads a sequence parameter set, and keeps it. It stands apart, so that a slice does not pay for the place of a set.
#[inline(never)]
fn join_sps<S: FrameSink>(
    extent: Extent,
    state: &mut State,
    unit: &NalUnit,
    rbsp: &Rbsp,
    sink: &mut S,
) -> Result<(), Stop>
    requires room { HasRoom S.failures sink.old }
    requires units { state.old.units ≤ 2 ^ 40 }
    requires pictures { state.old.slices.pictures ≤ state.old.units }
    requires kind { nal_unit_type (header_of unit.now) ≡ 7 }
    requires rbsp { rbsp.now ≡ body_of unit.now }
    ensures joins { (frames : Family) (before : History) → KeepsWithin extent.depth frames before (is_ending unit.now) state.old →
        Joins extent (frame_span S.took S.failures frames sink.old sink.new) before unit.now state.new result }
    ensures counts { OnOk result (state.new.units ≡ state.old.units + 1) }
    ensures pictures { OnOk result (state.new.slices.pictures ≤ state.new.units) }
    ensures no_memory { IsErrOf result Stop.Memory → ⊥ }
    ensures kept { OnOk result (IsQuiet S.failures sink.old sink.new) }
{
    let mut bits = Bits::new(rbsp);
    let set = read_sps(extent.target, &mut bits, sink)?;
    state.sets.put_sps(set);
    pass(state, NalUnitType::SequenceSet);
    Ok(())
}

/// Reads a picture parameter set, and keeps it.
fn join_pps<S: FrameSink>(
    extent: Extent,
    state: &mut State,
    unit: &NalUnit,
    rbsp: &Rbsp,
    sink: &mut S,
) -> Result<(), Stop>
    requires room { HasRoom S.failures sink.old }
    requires units { state.old.units ≤ 2 ^ 40 }
    requires pictures { state.old.slices.pictures ≤ state.old.units }
    requires kind { nal_unit_type (header_of unit.now) ≡ 8 }
    requires rbsp { rbsp.now ≡ body_of unit.now }
    ensures joins { (frames : Family) (before : History) → KeepsWithin extent.depth frames before (is_ending unit.now) state.old →
        Joins extent (frame_span S.took S.failures frames sink.old sink.new) before unit.now state.new result }
    ensures counts { OnOk result (state.new.units ≡ state.old.units + 1) }
    ensures pictures { OnOk result (state.new.slices.pictures ≤ state.new.units) }
    ensures no_memory { IsErrOf result Stop.Memory → ⊥ }
    ensures kept { OnOk result (IsQuiet S.failures sink.old sink.new) }
{
    let mut bits = Bits::new(rbsp);
    let set = read_pps(extent.target, &mut bits, sink)?;
    state.sets.put_pps(set);
    pass(state, NalUnitType::PictureSet);
    Ok(())
}

/// Reads and judges a slice from the first bit of its unit on, with its slice data where pictures are decoded, and adds it to the units before it.
fn join_slice<S: FrameSink>(
    alloc: Global,
    state: &mut State,
    unit: &NalUnit,
    bits: &mut Bits,
    sink: &mut S,
) -> Result<(), Stop>
    requires first { bits.old ≡ record { body = body_of unit.now; at = 0 } }
    requires room { HasRoom S.failures sink.old }
    requires units { state.old.units ≤ 2 ^ 40 }
    requires pictures { state.old.slices.pictures ≤ state.old.units }
    requires slice { is_slice (nal_unit_type (header_of unit.now)) ≡ true }
    requires fits { fits_kind (nal_unit_type (header_of unit.now)) (nal_ref_idc (header_of unit.now)) ≡ true }
    requires kept { KeepsSomeSlice state.old.slices state.old.sets state.old.decoder }
    ensures joins { (extent : Extent) (frames : Family) (before : History) → reads_slices extent.depth ≡ true →
        KeepsWithin extent.depth frames before (is_ending unit.now) state.old →
        Joins extent (frame_span S.took S.failures frames sink.old sink.new) before unit.now state.new result }
    ensures counts { OnOk result (state.new.units ≡ state.old.units + 1) }
    ensures pictures { OnOk result (state.new.slices.pictures ≤ state.new.units) }
    ensures no_memory { (depth : Depth) (frames : Family) (before : History) → KeepsWithin depth frames before (is_ending unit.now) state.old →
        IsErrOf result Stop.Memory → ChangesFormat depth before unit.now }
    ensures pauses { (extent : Extent) (frames : Family) (before : History) → reads_slices extent.depth ≡ true →
        KeepsWithin extent.depth frames before (is_ending unit.now) state.old → IsErrOf result Stop.Memory →
        Pauses (frame_span S.took S.failures frames sink.old sink.new) (ended_before before unit.now) (content_to_data extent before unit.now) }
    ensures kept { OnOk result (IsQuiet S.failures sink.old sink.new) }
{
    let slice_unit = slice_unit(unit);
    read_header(bits, &state.sets, slice_unit, &mut state.slice.header, sink)?;
    let begins = begins(&state.slices.picture, &state.slice.header);
    place_slice(begins, state, unit, sink)?;
    let (pps, sps) = sets_named(&state.sets, &state.slice.header);
    let place = SlicePlace {
        unit,
        pps,
        sps,
        begins,
    };
    judge_rules(
        &place,
        &mut state.slices,
        &mut state.slice,
        &mut state.decoder,
        sink,
    )?;
    state.units += 1;
    match &mut state.decoder {
        None => Ok(()),
        Some(decoder) => read_data(alloc, &place, &state.slice, decoder, bits, sink),
    }
}

/// Reads and judges a unit by its type, and adds it to those before it.
fn join<S: FrameSink>(
    alloc: Global,
    extent: Extent,
    state: &mut State,
    unit: &NalUnit,
    rbsp: &Option<Rbsp>,
    sink: &mut S,
) -> Result<(), Stop>
    requires room { HasRoom S.failures sink.old }
    requires units { state.old.units ≤ 2 ^ 40 }
    requires pictures { state.old.slices.pictures ≤ state.old.units }
    requires bytes { rbsp.now ≡ bytes_of extent.depth unit.now }
    requires fits { fits_kind (nal_unit_type (header_of unit.now)) (nal_ref_idc (header_of unit.now)) ≡ true }
    requires kept { KeepsSome extent.depth (is_ending unit.now) state.old }
    ensures joins { (frames : Family) (before : History) → KeepsWithin extent.depth frames before (is_ending unit.now) state.old →
        Joins extent (frame_span S.took S.failures frames sink.old sink.new) before unit.now state.new result }
    ensures counts { OnOk result (state.new.units ≡ state.old.units + 1) }
    ensures pictures { OnOk result (state.new.slices.pictures ≤ state.new.units) }
    ensures no_memory { (frames : Family) (before : History) → KeepsWithin extent.depth frames before (is_ending unit.now) state.old →
        IsErrOf result Stop.Memory → ChangesFormat extent.depth before unit.now }
    ensures pauses { (frames : Family) (before : History) → KeepsWithin extent.depth frames before (is_ending unit.now) state.old →
        IsErrOf result Stop.Memory → Pauses (frame_span S.took S.failures frames sink.old sink.new) (ended_before before unit.now)
        (content_to_data extent before unit.now) }
    ensures kept { OnOk result (IsQuiet S.failures sink.old sink.new) }
{
    let kind = NalHeader::of(unit).nal_unit_type();
    let Some(rbsp) = rbsp else {
        pass(state, kind);
        return Ok(());
    };
    match kind {
        NalUnitType::SequenceSet => join_sps(extent, state, unit, rbsp, sink),
        NalUnitType::PictureSet => join_pps(extent, state, unit, rbsp, sink),
        _ => {
            let mut bits = Bits::new(rbsp);
            join_slice(alloc, state, unit, &mut bits, sink)
        }
    }
}

/// What comes of a unit, with the RBSP that `read_bytes` made of it: the sink is told of the unit and of what is in it, and it joins
/// those before it. The allocator is lent to a picture of another format alone.
///
/// Err: the first check of the unit's course that fails, with its bit; Memory where a growth was refused, which is only where a slice
/// begins a picture of another format than the one before it, before the first element of its data; Write where the sink failed. After an Err
/// what is kept is of no use.
pub fn judge_unit<S: FrameSink>(
    alloc: Global,
    extent: Extent,
    state: &mut State,
    unit: &NalUnit,
    rbsp: &Option<Rbsp>,
    sink: &mut S,
) -> Result<(), Stop>
    requires count { HasRoom S.failures sink.old }
    requires units { state.old.units ≤ 2 ^ 40 }
    requires pictures { state.old.slices.pictures ≤ state.old.units }
    requires bytes { rbsp.now ≡ bytes_of extent.depth unit.now }
    requires kept { KeepsSome extent.depth false state.old }
    ensures turns { (frames : Family) (before : History) → Keeps extent.depth frames before state.old →
        Turns extent (frame_span S.took S.failures frames sink.old sink.new) before unit.now state.new result }
    ensures counts { OnOk result (state.new.units ≡ state.old.units + 1) }
    ensures pictures { OnOk result (state.new.slices.pictures ≤ state.new.units) }
    ensures no_memory { (frames : Family) (before : History) → Keeps extent.depth frames before state.old → IsErrOf result Stop.Memory →
        ChangesFormat extent.depth before unit.now }
    ensures pauses { (frames : Family) (before : History) → Keeps extent.depth frames before state.old → IsErrOf result Stop.Memory →
        Pauses (frame_span S.took S.failures frames sink.old sink.new) (ended_in before) (unit_to_data extent before unit.now) }
    ensures kept { OnOk result (IsQuiet S.failures sink.old sink.new) }
{
    check_emulation(unit)?;
    check_header(unit)?;
    tell_unit(unit, sink)?;
    close_if(is_ending(unit), &mut state.slices, &mut state.decoder, sink)?;
    join(alloc, extent, state, unit, rbsp, sink)
}

/// Whether a stream that is judged so has the pictures that it must have.
fn has_pictures(depth: Depth, pictures: u64) -> bool
    ensures { (of : List CodedPicture) → pictures ≡ length of → result ≡ has_pictures depth of }
{
    match depth {
        Depth::Units => true,
        Depth::Headers => pictures != 0,
        Depth::Full => pictures != 0,
    }
}

/// Writes all frames that wait at the end of the input, where frames are made.
fn finish_frames<S: FrameSink>(decoder: &mut Option<Decoder>, sink: &mut S) -> Result<(), Stop>
    requires room { HasRoom S.failures sink.old }
    requires kept { KeepsSomeGap decoder.old }
    ensures plays { (depth : Depth) (frames : Family) (t : Turn) (next : ℕ) → WhereMade depth (FillsFrames frames t next) decoder.old →
        Plays (with_frames frames (span S.took S.failures sink.old sink.new)) (λ x. x) (outcome_of (told_frames depth (last_turn t.buffer).written)) result }
    ensures written { (depth : Depth) (frames : Family) (t : Turn) (next : ℕ) → WhereMade depth (FillsFrames frames t next) decoder.old →
        OnOk result (WhereMade depth (HasWritten t) decoder.new) }
    ensures no_memory { IfErr result (λ e. e ≡ Stop.Write) }
{
    match decoder {
        None => Ok(()),
        Some(decoder) => decoder.finish(sink),
    }
}

/// How many frames were written; 0 where none are made.
fn frames_told(decoder: &Option<Decoder>) -> u64
    ensures { (depth : Depth) (pictures : List CodedPicture) → WhereMade depth (HasWritten (after_all pictures)) decoder.now →
        result ≡ frames_written depth pictures }
{
    match decoder {
        None => 0,
        Some(decoder) => decoder.output.frames(),
    }
}

/// What comes of the end of the input, at this bit: the last picture ends, there is one where slices are read, and the frames that
/// wait are written.
///
/// Err: Incomplete, MarkCommand or NoPicture, with its bit, or Write where the sink failed.
pub fn judge_end<S: FrameSink>(
    depth: Depth,
    state: &mut State,
    bit: u64,
    sink: &mut S,
) -> Result<Summary, Stop>
    requires room { HasRoom S.failures sink.old }
    requires units { state.old.units ≤ 2 ^ 41 }
    requires pictures { state.old.slices.pictures ≤ state.old.units }
    requires kept { KeepsSome depth false state.old }
    ensures ends { (frames : Family) (before : History) → Keeps depth frames before state.old →
        EndsAll depth (frame_span S.took S.failures frames sink.old sink.new) before bit (λ x. x) result }
    ensures no_memory { IsErrOf result Stop.Memory → ⊥ }
{
    close(&mut state.slices, &mut state.decoder, sink)?;
    let pictures = state.slices.pictures;
    check(has_pictures(depth, pictures), Rule::NoPicture, bit)?;
    finish_frames(&mut state.decoder, sink)?;
    Ok(Summary {
        units: state.units,
        pictures,
        frames: frames_told(&state.decoder),
    })
}
