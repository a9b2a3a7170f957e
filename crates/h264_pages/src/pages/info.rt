//! What a stream has: its sets, pictures and macroblocks.
#![tactic(auto)]

ghost use Rattle.std.specs.Prelude.{◌≡◌, ◌+◌, ◌-◌, ◌*◌, ◌^◌, ◌<◌, ◌/◌, max, codes, Option, flat_map};
ghost use Rattle.h264_pages.specs.Info.{profile_part, set_line, sides, shown_sides, coded_sides, size_line, is_uncropped, offsets_line, cropping_line};
ghost use Rattle.h264_pages.specs.Info.{rate_line, buffer_line, set_lines};
ghost use Rattle.h264_pages.specs.Info.{kinds_line, bytes_line, intra_text, inter_text, macroblocks_line, count_lines, declared_line, last_set_line};
ghost use Rattle.h264_pages.specs.Info.{why_none, no_pictures_line, picture_lines, info_lines, profile_fields, shown_fields, side_fields, buffer_fields};
ghost use Rattle.h264_pages.specs.Info.{timing_fields};
ghost use Rattle.h264_pages.specs.Info.{rate_field, time_fields, set_object, declared_field, last_set_field, kind_fields, intra_fields, inter_fields};
ghost use Rattle.h264_pages.specs.Info.{macroblocks_field, sum_fields, count_fields, after_comma, set_objects, sets_field, info_object};
ghost use Rattle.h264_pages.specs.Pages.{Adds, numbered};
ghost use Rattle.h264_pages.specs.Starts.{IsOfProfileRead};
ghost use Rattle.h264_pages.specs.declared.pages.glance.Declared.{Declared};
ghost use Rattle.h264_pages.specs.Rates.{product, rate_in, shown_side};
ghost use Rattle.h264_pages.specs.Summed.{and_picture, summed};

use crate::pages::container::Start;
use crate::pages::finding::Finding;
use crate::pages::glance::{Declared, put_size_after};
use crate::pages::object::put_size;
use crate::pages::page::Page;
use crate::pages::profile::{profile_of, put_level};
use crate::pages::reason::put_cause_text;
use crate::survey::{Cropping, MacroblockCounts, Picture, PictureKind, Sequence, Survey, Timing};

/// Samples in a row of a macroblock.
const SIDE: u64 = 16;

/// How many pictures there are of each kind, and their bytes.
#[derive(Clone, Copy, Default)]
pub struct PictureCounts {
    pub idr: u64,
    pub intra: u64,
    pub predicted: u64,
    pub bytes: u64,
    /// The bytes of the largest picture.
    pub largest: u64,
}

/// Counts pictures by kind.
pub fn count_pictures(pictures: &[Picture]) -> PictureCounts
    ensures { result ≡ summed pictures.now }
{
    let mut counts = PictureCounts::default();
    for picture in pictures {
        counts.add(*picture);
    }
    counts
}

impl PictureCounts {
    /// Counts one more picture.
    fn add(&mut self, picture: Picture)
        ensures { self.new ≡ and_picture self.old picture }
    {
        match picture.kind {
            PictureKind::Idr => self.idr = self.idr.saturating_add(1),
            PictureKind::I => self.intra = self.intra.saturating_add(1),
            PictureKind::P => self.predicted = self.predicted.saturating_add(1),
        }
        self.bytes = self.bytes.saturating_add(picture.bytes);
        self.largest = self.largest.max(picture.bytes);
    }
}

/// The width of what is shown, in luma samples.
pub fn shown_width(set: &Sequence) -> u64
    ensures side { result ≡ shown_side set.now.width set.now.cropping.left set.now.cropping.right }
    ensures fits { 16 * set.now.width < 2 ^ 64 → 2 * (set.now.cropping.left + set.now.cropping.right) < 2 ^ 64 →
        result ≡ 16 * set.now.width - 2 * (set.now.cropping.left + set.now.cropping.right) }
{
    let cut = set.cropping.left.saturating_add(set.cropping.right);
    set.width
        .saturating_mul(SIDE)
        .saturating_sub(cut.saturating_mul(2))
}

/// The height of what is shown, in luma samples.
pub fn shown_height(set: &Sequence) -> u64
    ensures side { result ≡ shown_side set.now.height set.now.cropping.top set.now.cropping.bottom }
    ensures fits { 16 * set.now.height < 2 ^ 64 → 2 * (set.now.cropping.top + set.now.cropping.bottom) < 2 ^ 64 →
        result ≡ 16 * set.now.height - 2 * (set.now.cropping.top + set.now.cropping.bottom) }
{
    let cut = set.cropping.top.saturating_add(set.cropping.bottom);
    set.height
        .saturating_mul(SIDE)
        .saturating_sub(cut.saturating_mul(2))
}

/// The frame rate in thousandths of a frame a second; none where no timing is given (E.2.1).
pub fn rate_of(set: &Sequence) -> Option<u64>
    ensures { result ≡ rate_in set.now.timing }
{
    let timing = set.timing?;
    let ticks = timing.num_units_in_tick.saturating_mul(2);
    if ticks == 0 {
        return None;
    }
    Some(timing.time_scale.saturating_mul(1000) / ticks)
}

/// Adds a profile by its number, with its name.
fn put_profile(page: &mut Page, profile_idc: u64, name: &str)
    ensures { Adds page.old page.new (profile_part profile_idc name.now) }
{
    page.numbered(" profile ", profile_idc);
    page.put(" (");
    page.put(name);
    page.put(")");
}

/// Adds the line of a sequence parameter set with its profile and level.
fn put_set_line(page: &mut Page, set: &Sequence)
    ensures { Adds page.old page.new (set_line set.now) }
{
    page.numbered("info set ", set.seq_parameter_set_id);
    put_profile(page, set.profile_idc, profile_of(set));
    page.put(" level ");
    put_level(page, set);
    page.put("\n");
}

/// Adds two numbers after a text, as of a width and a height.
fn put_sides(page: &mut Page, before: &str, width: u64, height: u64)
    ensures { Adds page.old page.new (sides before.now width height) }
{
    page.numbered(before, width);
    page.numbered("x", height);
}

/// Adds the size that is shown, after a text.
fn put_shown(page: &mut Page, before: &str, set: &Sequence)
    ensures { Adds page.old page.new (shown_sides before.now set.now) }
{
    put_sides(page, before, shown_width(set), shown_height(set));
}

/// Adds the size that is coded, after a text.
fn put_coded(page: &mut Page, before: &str, set: &Sequence)
    ensures { Adds page.old page.new (coded_sides before.now set.now) }
{
    put_sides(
        page,
        before,
        set.width.saturating_mul(SIDE),
        set.height.saturating_mul(SIDE),
    );
}

/// Adds the line of the size: what is shown, what is coded, and the macroblocks.
fn put_size_line(page: &mut Page, set: &Sequence)
    ensures { Adds page.old page.new (size_line set.now) }
{
    put_shown(page, "info size ", set);
    put_coded(page, " coded ", set);
    put_sides(page, " macroblocks ", set.width, set.height);
    page.put("\n");
}

/// Whether nothing is cut off.
fn is_uncropped(cropping: Cropping) -> bool
    ensures { result ≡ is_uncropped cropping }
{
    cropping.left == 0 && cropping.right == 0 && cropping.top == 0 && cropping.bottom == 0
}

/// Adds after a text what an offset cuts off.
fn put_cut(page: &mut Page, before: &str, offset: u64)
    ensures { Adds page.old page.new (numbered before.now (product offset 2)) }
{
    page.numbered(before, offset.saturating_mul(2));
}

/// Adds the line of what is cut off.
fn put_offsets(page: &mut Page, cropping: Cropping)
    ensures { Adds page.old page.new (offsets_line cropping) }
{
    put_cut(page, "info cropping left ", cropping.left);
    put_cut(page, " right ", cropping.right);
    put_cut(page, " top ", cropping.top);
    put_cut(page, " bottom ", cropping.bottom);
    page.put("\n");
}

/// Adds the line of what is cut off, where something is.
fn put_cropping(page: &mut Page, cropping: Cropping)
    ensures { Adds page.old page.new (cropping_line cropping) }
{
    if !is_uncropped(cropping) {
        put_offsets(page, cropping);
    }
}

/// Adds the line of the frame rate, where it is given.
fn put_rate(page: &mut Page, set: &Sequence)
    ensures { Adds page.old page.new (rate_line (rate_in set.now.timing)) }
{
    if let Some(rate) = rate_of(set) {
        page.put("info rate ");
        page.thousandths(rate);
        page.put("\n");
    }
}

/// Adds the line of reference frames and picture buffer.
fn put_buffer(page: &mut Page, set: &Sequence)
    ensures { Adds page.old page.new (buffer_line set.now) }
{
    page.numbered("info reference frames ", set.max_num_ref_frames);
    page.number_after(" buffer ", set.max_dec_frame_buffering);
    page.number_after(" reorder ", set.max_num_reorder_frames);
    page.put("\n");
}

/// Adds the lines of a sequence parameter set.
fn put_set(page: &mut Page, set: &Sequence)
    ensures { Adds page.old page.new (set_lines set.now) }
{
    put_set_line(page, set);
    put_size_line(page, set);
    put_cropping(page, set.cropping);
    put_rate(page, set);
    put_buffer(page, set);
}

/// Adds the lines of sequence parameter sets.
fn put_sets(page: &mut Page, sets: &[Sequence])
    ensures { Adds page.old page.new (flat_map set_lines sets.now) }
{
    for set in sets {
        put_set(page, set);
    }
}

/// Adds the line of how many pictures there are of each kind.
fn put_kinds(page: &mut Page, pictures: u64, counts: PictureCounts)
    ensures { Adds page.old page.new (kinds_line pictures counts) }
{
    page.numbered("info pictures ", pictures);
    page.numbered(" idr ", counts.idr);
    page.numbered(" i ", counts.intra);
    page.numbered(" p ", counts.predicted);
    page.put("\n");
}

/// Adds how many of so many bytes a picture has, of so many pictures.
fn put_mean(page: &mut Page, bytes: u64, pictures: u64)
    ensures { Adds page.old page.new (numbered (codes " a picture ") (bytes / max pictures 1)) }
{
    page.numbered(" a picture ", bytes / pictures.max(1));
}

/// Adds the line of their bytes.
fn put_bytes(page: &mut Page, pictures: u64, counts: PictureCounts)
    ensures { Adds page.old page.new (bytes_line pictures counts) }
{
    page.numbered("info bytes ", counts.bytes);
    put_mean(page, counts.bytes, pictures);
    page.numbered(" largest ", counts.largest);
    page.put("\n");
}

/// Adds the macroblocks of intra prediction, by type.
fn put_intra(page: &mut Page, counts: MacroblockCounts)
    ensures { Adds page.old page.new (intra_text counts) }
{
    page.numbered("info macroblocks i4x4 ", counts.intra_4x4);
    page.numbered(" i16x16 ", counts.intra_16x16);
    page.numbered(" pcm ", counts.pcm);
}

/// Adds the macroblocks of inter prediction, by type.
fn put_inter(page: &mut Page, counts: MacroblockCounts)
    ensures { Adds page.old page.new (inter_text counts) }
{
    page.numbered(" p16x16 ", counts.inter_16x16);
    page.numbered(" p16x8 ", counts.inter_16x8);
    page.numbered(" p8x16 ", counts.inter_8x16);
    page.numbered(" p8x8 ", counts.inter_8x8);
}

/// Adds the line of macroblocks by type.
fn put_macroblocks(page: &mut Page, counts: MacroblockCounts)
    ensures { Adds page.old page.new (macroblocks_line counts) }
{
    put_intra(page, counts);
    put_inter(page, counts);
    page.numbered(" skip ", counts.skipped);
    page.put("\n");
}

/// Adds the lines of so many pictures and of their macroblocks.
fn put_counts(page: &mut Page, pictures: u64, counts: PictureCounts, macroblocks: MacroblockCounts)
    ensures { Adds page.old page.new (count_lines pictures counts macroblocks) }
{
    put_kinds(page, pictures, counts);
    put_bytes(page, pictures, counts);
    put_macroblocks(page, macroblocks);
}

/// What the sequence parameter set says that was read last, where no unit came after it. None: its profile was not read.
fn last_set(survey: &Survey, start: &Start) -> Option<Declared>
    ensures { IsOfProfileRead result survey.now }
{
    let set = Declared::of_last(survey, start)?;
    if set.profile_idc == 0 {
        return None;
    }
    Some(set)
}

/// Adds the line of the set that was read last: its profile, and its level and size where they are known.
fn put_declared(page: &mut Page, set: &Declared)
    ensures { Adds page.old page.new (declared_line set.now) }
{
    page.put("info last set");
    put_profile(page, set.profile_idc, set.profile());
    set.put_level(page, " level ");
    put_size_after(page, " size ", set.size);
    page.put("\n");
}

/// Adds the line of the set that was read last, where it is known.
fn put_last_set(page: &mut Page, set: Option<Declared>)
    ensures { Adds page.old page.new (last_set_line set) }
{
    if let Some(set) = set {
        put_declared(page, &set);
    }
}

/// Adds why there is no picture, where an answer says it.
fn put_why_none(page: &mut Page, finding: Option<Finding>)
    ensures { Adds page.old page.new (why_none finding) }
{
    if let Some(finding) = finding {
        page.put(": ");
        put_cause_text(page, finding.reason, "check --explain says why");
    }
}

/// Adds the line that there is no picture: what the input is, where it is no stream for this program.
fn put_no_pictures(page: &mut Page, finding: Option<Finding>)
    ensures { Adds page.old page.new (no_pictures_line finding) }
{
    page.put("info no pictures");
    put_why_none(page, finding);
    page.put("\n");
}

/// Adds the lines on pictures and macroblocks. Where there is no picture one line says so.
fn put_picture_lines(
    page: &mut Page,
    pictures: &[Picture],
    macroblocks: MacroblockCounts,
    finding: Option<Finding>,
)
    ensures { Adds page.old page.new (picture_lines pictures.now macroblocks finding) }
{
    if pictures.is_empty() {
        put_no_pictures(page, finding);
    } else {
        let counts = count_pictures(pictures);
        put_counts(page, pictures.len() as u64, counts, macroblocks);
    }
}

/// Adds the lines of what a stream has. Where it has no picture one line says so in the place of those on pictures and macroblocks.
pub fn put_info(page: &mut Page, survey: &Survey, start: &Start, finding: Option<Finding>)
    ensures { (last : Option Declared) × IsOfProfileRead last survey.now × Adds page.old page.new (info_lines survey.now.sets.sequences.items last
        survey.now.pictures.list.items survey.now.macroblocks finding) }
{
    put_sets(page, survey.sets.sequences.as_slice());
    put_last_set(page, last_set(survey, start));
    put_picture_lines(
        page,
        survey.pictures.list.as_slice(),
        survey.macroblocks,
        finding,
    );
}

/// Adds the fields of a set's profile and level.
fn put_profile_fields(page: &mut Page, set: &Sequence)
    ensures { Adds page.old page.new (profile_fields set.now) }
{
    page.number_field("profile_idc", set.profile_idc);
    page.text_field("profile", profile_of(set));
    page.number_field("level_idc", set.level_idc);
}

/// Adds the fields of the size that is shown.
fn put_shown_fields(page: &mut Page, set: &Sequence)
    ensures { Adds page.old page.new (shown_fields set.now) }
{
    page.number_field("width", shown_width(set));
    page.number_field("height", shown_height(set));
}

/// Adds the fields of a set's size.
fn put_side_fields(page: &mut Page, set: &Sequence)
    ensures { Adds page.old page.new (side_fields set.now) }
{
    put_shown_fields(page, set);
    page.number_field("width_in_macroblocks", set.width);
    page.number_field("height_in_macroblocks", set.height);
}

/// Adds the fields of reference frames and picture buffer.
fn put_buffer_fields(page: &mut Page, set: &Sequence)
    ensures { Adds page.old page.new (buffer_fields set.now) }
{
    page.number_field("max_num_ref_frames", set.max_num_ref_frames);
    page.maybe_field("max_dec_frame_buffering", set.max_dec_frame_buffering);
    page.maybe_field("max_num_reorder_frames", set.max_num_reorder_frames);
}

/// Adds the fields of the timing, where it is given.
fn put_timing_fields(page: &mut Page, timing: Option<Timing>)
    ensures { Adds page.old page.new (timing_fields timing) }
{
    if let Some(timing) = timing {
        page.number_field("num_units_in_tick", timing.num_units_in_tick);
        page.number_field("time_scale", timing.time_scale);
    }
}

/// Adds the field of the frame rate, where it is given.
fn put_rate_field(page: &mut Page, set: &Sequence)
    ensures { Adds page.old page.new (rate_field (rate_in set.now.timing)) }
{
    if let Some(rate) = rate_of(set) {
        page.name("frame_rate");
        page.thousandths(rate);
    }
}

/// Adds the fields of the timing and of the frame rate, where they are given.
fn put_time_fields(page: &mut Page, set: &Sequence)
    ensures { Adds page.old page.new (time_fields set.now.timing) }
{
    put_timing_fields(page, set.timing);
    put_rate_field(page, set);
}

/// Adds the object of a sequence parameter set.
fn put_set_object(page: &mut Page, set: &Sequence)
    ensures { Adds page.old page.new (set_object set.now) }
{
    page.numbered("{\"seq_parameter_set_id\":", set.seq_parameter_set_id);
    put_profile_fields(page, set);
    put_side_fields(page, set);
    put_buffer_fields(page, set);
    put_time_fields(page, set);
    page.put("}");
}

/// Adds the field of the set that was read last: its profile, and its level and size where they are known.
fn put_declared_field(page: &mut Page, set: &Declared)
    ensures { Adds page.old page.new (declared_field set.now) }
{
    page.name("last_set");
    page.numbered("{\"profile_idc\":", set.profile_idc);
    page.text_field("profile", set.profile());
    page.maybe_field("level_idc", set.level_idc);
    put_size(page, set.size);
    page.put("}");
}

/// Adds the field of the set that was read last, where it is known.
fn put_last_set_field(page: &mut Page, set: Option<Declared>)
    ensures { Adds page.old page.new (last_set_field set) }
{
    if let Some(set) = set {
        put_declared_field(page, &set);
    }
}

/// Adds the fields of how many pictures there are of each kind.
fn put_kind_fields(page: &mut Page, pictures: u64, counts: PictureCounts)
    ensures { Adds page.old page.new (kind_fields pictures counts) }
{
    page.number_field("pictures", pictures);
    page.number_field("idr", counts.idr);
    page.number_field("i", counts.intra);
    page.number_field("p", counts.predicted);
}

/// Adds the macroblocks of intra prediction, by type.
fn put_intra_fields(page: &mut Page, counts: MacroblockCounts)
    ensures { Adds page.old page.new (intra_fields counts) }
{
    page.numbered("{\"i4x4\":", counts.intra_4x4);
    page.number_field("i16x16", counts.intra_16x16);
    page.number_field("pcm", counts.pcm);
}

/// Adds the macroblocks of inter prediction, by type.
fn put_inter_fields(page: &mut Page, counts: MacroblockCounts)
    ensures { Adds page.old page.new (inter_fields counts) }
{
    page.number_field("p16x16", counts.inter_16x16);
    page.number_field("p16x8", counts.inter_16x8);
    page.number_field("p8x16", counts.inter_8x16);
    page.number_field("p8x8", counts.inter_8x8);
}

/// Adds the field of the macroblocks.
fn put_macroblocks_field(page: &mut Page, counts: MacroblockCounts)
    ensures { Adds page.old page.new (macroblocks_field counts) }
{
    page.name("macroblocks");
    put_intra_fields(page, counts);
    put_inter_fields(page, counts);
    page.number_field("skip", counts.skipped);
    page.put("}");
}

/// Adds the fields of so many pictures and of their macroblocks.
fn put_sum_fields(
    page: &mut Page,
    pictures: u64,
    counts: PictureCounts,
    macroblocks: MacroblockCounts,
)
    ensures { Adds page.old page.new (sum_fields pictures counts macroblocks) }
{
    put_kind_fields(page, pictures, counts);
    page.number_field("bytes", counts.bytes);
    page.number_field("largest", counts.largest);
    put_macroblocks_field(page, macroblocks);
}

/// Adds the fields of pictures and macroblocks; only that there is no picture, where there is none.
fn put_count_fields(page: &mut Page, pictures: &[Picture], macroblocks: MacroblockCounts)
    ensures { Adds page.old page.new (count_fields pictures.now macroblocks) }
{
    if pictures.is_empty() {
        page.number_field("pictures", 0);
    } else {
        let counts = count_pictures(pictures);
        put_sum_fields(page, pictures.len() as u64, counts, macroblocks);
    }
}

/// Adds the object of a further sequence parameter set, with a comma before it.
fn put_after_comma(page: &mut Page, set: &Sequence)
    ensures { Adds page.old page.new (after_comma set.now) }
{
    page.put(",");
    put_set_object(page, set);
}

/// Adds the objects of further sequence parameter sets, a comma before each.
fn put_more_sets(page: &mut Page, sets: &[Sequence])
    ensures { Adds page.old page.new (flat_map after_comma sets.now) }
{
    for set in sets {
        put_after_comma(page, set);
    }
}

/// Adds the objects of sequence parameter sets, with commas between them.
fn put_set_objects(page: &mut Page, sets: &[Sequence])
    ensures { Adds page.old page.new (set_objects sets.now) }
{
    if let Some((set, more)) = sets.split_first() {
        put_set_object(page, set);
        put_more_sets(page, more);
    }
}

/// Adds the field of the sequence parameter sets.
fn put_sets_field(page: &mut Page, sets: &[Sequence])
    ensures { Adds page.old page.new (sets_field sets.now) }
{
    page.name("sets");
    page.put("[");
    put_set_objects(page, sets);
    page.put("]");
}

/// Adds the object of what a stream has, on a line of its own.
pub fn put_info_object(page: &mut Page, file: &str, survey: &Survey, start: &Start)
    ensures { (last : Option Declared) × IsOfProfileRead last survey.now × Adds page.old page.new (info_object file.now survey.now.sets.sequences.items last
        survey.now.pictures.list.items survey.now.macroblocks) }
{
    page.open_object(file, "info");
    put_sets_field(page, survey.sets.sequences.as_slice());
    put_last_set_field(page, last_set(survey, start));
    put_count_fields(page, survey.pictures.list.as_slice(), survey.macroblocks);
    page.close_object();
}
