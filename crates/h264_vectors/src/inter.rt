//! References and vectors of inter macroblocks (7.3.5.1, 7.3.5.2, 8.4.1).
#![tactic(auto)]

ghost use Rattle.std.specs.Prelude.{◌≡◌, ℕ, ◌+◌, ◌-◌, ◌<◌, ◌≤◌, ◌^◌, ◌||◌, not, Bool, true, false, List, [], ◌∷◌, None, replicate, slice_index, OnOk, IfOk};
ghost use Rattle.h264_base.specs.Call.{HasRoom, IsQuiet, span};
ghost use Rattle.h264_base.specs.Meets.{Meets, Is};
ghost use Rattle.h264_near.specs.Coded.{CodedMacroblock};
ghost use Rattle.h264_near.specs.Keeps.{Keeps};
ghost use Rattle.h264_vectors.specs.declared.part.Direction.TheVariants as direction;
ghost use Rattle.h264_vectors.specs.Vectors.{whole};
ghost use Rattle.h264_vectors.specs.Derived as derived;
ghost use Rattle.h264_vectors.specs.Derived.{Derived};
ghost use Rattle.h264_vectors.specs.Agrees.{Agrees, Usable, StayAlike, places_with, places_after};
ghost use Rattle.h264_vectors.specs.Partitions.{sub_partition_of, IsOfType};
ghost use Rattle.h264_near.specs.Partition.{MovesByPartition};
ghost use Rattle.h264_near.specs.declared.partition.SubPartition.TheVariants as sub_partition;
ghost use Rattle.h264_near.specs.declared.partition.Partition.TheVariants as partitions;
ghost use Rattle.h264_vectors.specs.Inter as syntax;

use crate::derived::derive;
use crate::part::{Halves, Part, PredictedPart, SubMacroblock, VectorDifference};
use crate::slice::{SliceContext, Surroundings, has_picture};
use h264_base::{ElementName, Elements, Rule, Stop};
use h264_bits::forms::ue_up_to;
use h264_bits::{Bits, Found, check, read_se, read_te};
use h264_near::{Motion, Partition, SubPartition};

/// Reads ref_idx_l0.
fn read_ref_idx<S: Elements>(
    bits: &mut Bits,
    slice: &SliceContext,
    sink: &mut S,
) -> Result<u32, Stop>
    requires some { 1 < slice.now.active }
    requires room { HasRoom S.failures sink.old }
    ensures meets { Meets (span S.took S.failures sink.old sink.new) (Is (λ x. x)) (syntax.read_ref_idx slice.now) bits.old bits.new result }
    ensures within { IfOk result (λ i. i < slice.now.active) }
    ensures quiet { OnOk result (IsQuiet S.failures sink.old sink.new) }
{
    let index = read_te(bits, ElementName::RefIdxL0, slice.active - 1, sink)?;
    check(index.value < slice.active, Rule::Range, index.bit)?;
    check(
        has_picture(slice, index.value),
        Rule::NoReference,
        index.bit,
    )?;
    Ok(index.value)
}

/// Reads the index of a part, if it is not inferred.
#[inline]
fn read_ref_index<S: Elements>(
    bits: &mut Bits,
    slice: &SliceContext,
    inferred: bool,
    sink: &mut S,
) -> Result<u32, Stop>
    requires usable { Usable slice.now }
    requires some { inferred ≡ false → 1 < slice.now.active }
    requires room { HasRoom S.failures sink.old }
    ensures meets { Meets (span S.took S.failures sink.old sink.new) (Is (λ x. x)) (syntax.ref_index slice.now inferred) bits.old bits.new result }
    ensures within { IfOk result (λ i. i < 16) }
    ensures quiet { OnOk result (IsQuiet S.failures sink.old sink.new) }
{
    if inferred {
        return Ok(0);
    }
    read_ref_idx(bits, slice, sink)
}

/// Reads mvd_l0 of a part, and derives what it is predicted from.
fn read_part<S: Elements>(
    bits: &mut Bits,
    around: Surroundings,
    part: PredictedPart,
    fits: bool,
    motions: &mut [Option<Motion>; 16],
    sink: &mut S,
) -> Result<bool, Stop>
    requires columns { part.place.x + part.place.wide ≤ 4 }
    requires rows { part.place.y + part.place.high ≤ 4 }
    requires high { 0 < part.place.high }
    requires index { part.ref_idx < 16 }
    requires usable { Usable around.slice.now }
    requires room { HasRoom S.failures sink.old }
    ensures meets { (width : ℕ) (picture : List CodedMacroblock) (places : List Bool) (d : Derived) → Keeps width picture around.entry.near.now →
        Agrees fits motions.old places d → Meets (span S.took S.failures sink.old sink.new)
        (λ w next. Agrees w motions.new (places_with places part.place) next)
        (syntax.part_motion width around.entry.slice.now picture part.place part.ref_idx d) bits.old bits.new result }
    ensures alike { OnOk result (StayAlike (part.place ∷ []) motions.old motions.new) }
    ensures quiet { OnOk result (IsQuiet S.failures sink.old sink.new) }
{
    let across = read_se(bits, ElementName::MvdL0, sink)?;
    let down = read_se(bits, ElementName::MvdL0, sink)?;
    let mvd = VectorDifference {
        across: across.value,
        down: down.value,
    };
    Ok(derive(around, part, mvd, fits, motions))
}

/// Reads the vectors of a sub-macroblock of four 4x4 blocks.
fn read_four<S: Elements>(
    bits: &mut Bits,
    around: Surroundings,
    sub: SubMacroblock,
    fits: bool,
    motions: &mut [Option<Motion>; 16],
    sink: &mut S,
) -> Result<bool, Stop>
    requires column { sub.x + 2 ≤ 4 }
    requires row { sub.y + 2 ≤ 4 }
    requires index { sub.ref_idx < 16 }
    requires usable { Usable around.slice.now }
    requires room { HasRoom S.failures sink.old }
    ensures meets { (width : ℕ) (picture : List CodedMacroblock) (places : List Bool) (d : Derived) → Keeps width picture around.entry.near.now →
        Agrees fits motions.old places d → Meets (span S.took S.failures sink.old sink.new)
        (λ w next. Agrees w motions.new (places_after places (derived.sub_parts_of sub.x sub.y 3)) next)
        (syntax.part_motions width around.entry.slice.now picture sub.ref_idx (derived.sub_parts_of sub.x sub.y 3) d) bits.old bits.new result }
    ensures alike { OnOk result (StayAlike (derived.sub_parts_of sub.x sub.y 3) motions.old motions.new) }
    ensures quiet { OnOk result (IsQuiet S.failures sink.old sink.new) }
{
    let SubMacroblock { x, y, .. } = sub;
    let a = sub.part(x, y, 1, 1);
    let b = sub.part(x + 1, y, 1, 1);
    let c = sub.part(x, y + 1, 1, 1);
    let d = sub.part(x + 1, y + 1, 1, 1);
    let first = read_part(bits, around, a, fits, motions, sink)?;
    let second = read_part(bits, around, b, first, motions, sink)?;
    let third = read_part(bits, around, c, second, motions, sink)?;
    read_part(bits, around, d, third, motions, sink)
}

/// Reads the vectors of a sub-macroblock by its sub_mb_type (Table 7-17).
fn read_sub_macroblock<S: Elements>(
    bits: &mut Bits,
    around: Surroundings,
    sub: SubMacroblock,
    fits: bool,
    motions: &mut [Option<Motion>; 16],
    sink: &mut S,
) -> Result<bool, Stop>
    requires column { sub.x + 2 ≤ 4 }
    requires row { sub.y + 2 ≤ 4 }
    requires index { sub.ref_idx < 16 }
    requires usable { Usable around.slice.now }
    requires room { HasRoom S.failures sink.old }
    ensures meets { (width : ℕ) (picture : List CodedMacroblock) (places : List Bool) (d : Derived) → Keeps width picture around.entry.near.now →
        Agrees fits motions.old places d → Meets (span S.took S.failures sink.old sink.new)
        (λ w next. Agrees w motions.new (places_after places (derived.sub_parts_of sub.x sub.y sub.sub_mb_type)) next)
        (syntax.part_motions width around.entry.slice.now picture sub.ref_idx (derived.sub_parts_of sub.x sub.y sub.sub_mb_type) d) bits.old bits.new result }
    ensures alike { OnOk result (StayAlike (derived.sub_parts_of sub.x sub.y sub.sub_mb_type) motions.old motions.new) }
    ensures quiet { OnOk result (IsQuiet S.failures sink.old sink.new) }
{
    let SubMacroblock {
        x,
        y,
        sub_mb_type,
        ..
    } = sub;
    if sub_mb_type == 0 {
        let whole = sub.part(x, y, 2, 2);
        return read_part(bits, around, whole, fits, motions, sink);
    }
    if sub_mb_type == 1 {
        let upper = sub.part(x, y, 2, 1);
        let lower = sub.part(x, y + 1, 2, 1);
        let upper_fits = read_part(bits, around, upper, fits, motions, sink)?;
        return read_part(bits, around, lower, upper_fits, motions, sink);
    }
    if sub_mb_type == 2 {
        let left = sub.part(x, y, 1, 2);
        let right = sub.part(x + 1, y, 1, 2);
        let left_fits = read_part(bits, around, left, fits, motions, sink)?;
        return read_part(bits, around, right, left_fits, motions, sink);
    }
    read_four(bits, around, sub, fits, motions, sink)
}

/// Reads the vectors of four sub-macroblocks, by sub_mb_type and refIdxL0 of each.
fn read_sub_macroblocks<S: Elements>(
    bits: &mut Bits,
    around: Surroundings,
    types: [u32; 4],
    indices: [u32; 4],
    motions: &mut [Option<Motion>; 16],
    sink: &mut S,
) -> Result<bool, Stop>
    requires none { motions.old ≡ replicate 16 None }
    requires indices { (k : ℕ) → k < 4 → slice_index indices k < 16 }
    requires usable { Usable around.slice.now }
    requires room { HasRoom S.failures sink.old }
    ensures meets { (width : ℕ) (picture : List CodedMacroblock) → Keeps width picture around.entry.near.now →
        Meets (span S.took S.failures sink.old sink.new) (λ w next. Agrees w motions.new (replicate 16 true) next)
        (syntax.quarters width around.entry.slice.now picture
        types indices) bits.old bits.new result }
    ensures alike { OnOk result (MovesByPartition (partitions.P8x8 (sub_partition_of (slice_index types 0) ∷ sub_partition_of (slice_index types 1) ∷
        sub_partition_of (slice_index types 2) ∷ sub_partition_of (slice_index types 3) ∷ [])) motions.new) }
    ensures quiet { OnOk result (IsQuiet S.failures sink.old sink.new) }
{
    let first = SubMacroblock::new(0, 0, types[0], indices[0]);
    let second = SubMacroblock::new(2, 0, types[1], indices[1]);
    let third = SubMacroblock::new(0, 2, types[2], indices[2]);
    let fourth = SubMacroblock::new(2, 2, types[3], indices[3]);
    let a = read_sub_macroblock(bits, around, first, true, motions, sink)?;
    let b = read_sub_macroblock(bits, around, second, a, motions, sink)?;
    let c = read_sub_macroblock(bits, around, third, b, motions, sink)?;
    read_sub_macroblock(bits, around, fourth, c, motions, sink)
}

/// How a sub-macroblock of this sub_mb_type is partitioned (Table 7-17).
fn sub_partition(sub_mb_type: u32) -> SubPartition
    ensures { result ≡ sub_partition_of sub_mb_type }
{
    match sub_mb_type {
        0 => SubPartition::P8x8,
        1 => SubPartition::P8x4,
        2 => SubPartition::P4x8,
        _ => SubPartition::P4x4,
    }
}

/// Reads a macroblock of four sub-macroblocks.
fn read_split<S: Elements>(
    bits: &mut Bits,
    around: Surroundings,
    inferred: bool,
    partition: &mut Partition,
    motions: &mut [Option<Motion>; 16],
    sink: &mut S,
) -> Result<bool, Stop>
    requires none { motions.old ≡ replicate 16 None }
    requires some { inferred ≡ false → 1 < around.slice.now.active }
    requires usable { Usable around.slice.now }
    requires room { HasRoom S.failures sink.old }
    ensures meets { (width : ℕ) (picture : List CodedMacroblock) → Keeps width picture around.entry.near.now →
        Meets (span S.took S.failures sink.old sink.new) (λ w next. Agrees w motions.new (replicate 16 true) next)
        (syntax.split_parts width around.entry.slice.now picture inferred) bits.old bits.new result }
    ensures partition { OnOk result (IsOfType 3 partition.new) }
    ensures alike { OnOk result (MovesByPartition partition.new motions.new) }
    ensures quiet { OnOk result (IsQuiet S.failures sink.old sink.new) }
{
    let t0 = ue_up_to(bits, ElementName::SubMbType, 3, sink)?;
    let t1 = ue_up_to(bits, ElementName::SubMbType, 3, sink)?;
    let t2 = ue_up_to(bits, ElementName::SubMbType, 3, sink)?;
    let t3 = ue_up_to(bits, ElementName::SubMbType, 3, sink)?;
    *partition = Partition::P8x8([
        sub_partition(t0),
        sub_partition(t1),
        sub_partition(t2),
        sub_partition(t3),
    ]);
    let i0 = read_ref_index(bits, around.slice, inferred, sink)?;
    let i1 = read_ref_index(bits, around.slice, inferred, sink)?;
    let i2 = read_ref_index(bits, around.slice, inferred, sink)?;
    let i3 = read_ref_index(bits, around.slice, inferred, sink)?;
    read_sub_macroblocks(
        bits,
        around,
        [t0, t1, t2, t3],
        [i0, i1, i2, i3],
        motions,
        sink,
    )
}

/// Reads a macroblock of one part.
fn read_one_part<S: Elements>(
    bits: &mut Bits,
    around: Surroundings,
    inferred: bool,
    motions: &mut [Option<Motion>; 16],
    sink: &mut S,
) -> Result<bool, Stop>
    requires none { motions.old ≡ replicate 16 None }
    requires some { inferred ≡ false → 1 < around.slice.now.active }
    requires usable { Usable around.slice.now }
    requires room { HasRoom S.failures sink.old }
    ensures meets { (width : ℕ) (picture : List CodedMacroblock) → Keeps width picture around.entry.near.now →
        Meets (span S.took S.failures sink.old sink.new) (λ w next. Agrees w motions.new (replicate 16 true) next)
        (syntax.one_part width around.entry.slice.now picture inferred (whole direction.Median)) bits.old bits.new result }
    ensures alike { OnOk result (MovesByPartition partitions.P16x16 motions.new) }
    ensures quiet { OnOk result (IsQuiet S.failures sink.old sink.new) }
{
    let ref_idx = read_ref_index(bits, around.slice, inferred, sink)?;
    let part = PredictedPart {
        place: Part::WHOLE,
        ref_idx,
    };
    read_part(bits, around, part, true, motions, sink)
}

/// Reads a macroblock of two parts.
fn read_two_parts<S: Elements>(
    bits: &mut Bits,
    around: Surroundings,
    inferred: bool,
    halves: Halves,
    motions: &mut [Option<Motion>; 16],
    sink: &mut S,
) -> Result<bool, Stop>
    requires columns { halves.first.x + halves.first.wide ≤ 4 }
    requires rows { halves.first.y + halves.first.high ≤ 4 }
    requires high { 0 < halves.first.high }
    requires columns_too { halves.second.x + halves.second.wide ≤ 4 }
    requires rows_too { halves.second.y + halves.second.high ≤ 4 }
    requires high_too { 0 < halves.second.high }
    requires none { motions.old ≡ replicate 16 None }
    requires some { inferred ≡ false → 1 < around.slice.now.active }
    requires usable { Usable around.slice.now }
    requires room { HasRoom S.failures sink.old }
    ensures meets { (width : ℕ) (picture : List CodedMacroblock) → Keeps width picture around.entry.near.now →
        Meets (span S.took S.failures sink.old sink.new) (λ w next. Agrees w motions.new
        (places_after (replicate 16 false) (halves.first ∷ halves.second ∷ [])) next)
        (syntax.two_parts width around.entry.slice.now picture inferred halves.first halves.second) bits.old bits.new result }
    ensures alike { OnOk result (StayAlike (halves.first ∷ halves.second ∷ []) motions.old motions.new) }
    ensures quiet { OnOk result (IsQuiet S.failures sink.old sink.new) }
{
    let i = read_ref_index(bits, around.slice, inferred, sink)?;
    let j = read_ref_index(bits, around.slice, inferred, sink)?;
    let p = PredictedPart {
        place: halves.first,
        ref_idx: i,
    };
    let q = PredictedPart {
        place: halves.second,
        ref_idx: j,
    };
    let first = read_part(bits, around, p, true, motions, sink)?;
    read_part(bits, around, q, first, motions, sink)
}

/// Reads what blocks are predicted from by mb_type of P slices.
fn read_motions_by<S: Elements>(
    bits: &mut Bits,
    around: Surroundings,
    kind: u32,
    partition: &mut Partition,
    motions: &mut [Option<Motion>; 16],
    sink: &mut S,
) -> Result<bool, Stop>
    requires none { motions.old ≡ replicate 16 None }
    requires usable { Usable around.slice.now }
    requires room { HasRoom S.failures sink.old }
    ensures meets { (width : ℕ) (picture : List CodedMacroblock) → Keeps width picture around.entry.near.now →
        Meets (span S.took S.failures sink.old sink.new) (λ w next. Agrees w motions.new (replicate 16 true) next)
        (syntax.motions_by width around.entry.slice.now picture (syntax.is_inferred around.entry.slice.now kind) kind) bits.old bits.new result }
    ensures partition { OnOk result (IsOfType kind partition.new) }
    ensures alike { OnOk result (MovesByPartition partition.new motions.new) }
    ensures quiet { OnOk result (IsQuiet S.failures sink.old sink.new) }
{
    let inferred = is_inferred(around.slice, kind);
    if kind == 0 {
        *partition = Partition::P16x16;
        return read_one_part(bits, around, inferred, motions, sink);
    }
    if kind == 1 {
        *partition = Partition::P16x8;
        let halves = Halves::UPPER_AND_LOWER;
        return read_two_parts(bits, around, inferred, halves, motions, sink);
    }
    if kind == 2 {
        *partition = Partition::P8x16;
        let halves = Halves::LEFT_AND_RIGHT;
        return read_two_parts(bits, around, inferred, halves, motions, sink);
    }
    read_split(bits, around, inferred, partition, motions, sink)
}

/// Whether ref_idx_l0 does not stand in the stream.
#[inline]
fn is_inferred(slice: &SliceContext, kind: u32) -> bool
    ensures meets { result ≡ syntax.is_inferred slice.now kind }
    ensures some { result ≡ false → 1 < slice.now.active }
{
    if kind == 4 {
        return true;
    }
    slice.active <= 1
}

/// Whether the picture is there that an inferred index names.
#[inline]
fn has_inferred(slice: &SliceContext, inferred: bool) -> bool
    ensures { result ≡ (not inferred || derived.has_picture slice.now 0) }
{
    if !inferred {
        return true;
    }
    has_picture(slice, 0)
}

/// Reads what the blocks of an inter macroblock are predicted from, by its mb_type, 0 to 4:
/// whether all its vectors lie in their range. `motions` have the reference and the vector of each block, where they do. `partition` is how it is
/// partitioned; the motions of each partition are alike.
///
/// Ok: the elements that the sink was told are its one derivation, with every rule met but that on the range of vectors.
/// No: the first rule that it breaks, at its stream bit. Write: the sink failed. After an Err the reader may have moved.
pub fn read_motions<S: Elements>(
    bits: &mut Bits,
    around: Surroundings,
    mb_type: Found<u32>,
    partition: &mut Partition,
    motions: &mut [Option<Motion>; 16],
    sink: &mut S,
) -> Result<bool, Stop>
    requires none { motions.old ≡ replicate 16 None }
    requires usable { Usable around.slice.now }
    requires room { HasRoom S.failures sink.old }
    ensures meets { (width : ℕ) (picture : List CodedMacroblock) → Keeps width picture around.entry.near.now →
        Meets (span S.took S.failures sink.old sink.new) (λ w next. Agrees w motions.new (replicate 16 true) next)
        (syntax.motions width around.entry.slice.now picture mb_type.bit mb_type.value) bits.old bits.new result }
    ensures partition { OnOk result (IsOfType mb_type.value partition.new) }
    ensures alike { OnOk result (MovesByPartition partition.new motions.new) }
    ensures quiet { OnOk result (IsQuiet S.failures sink.old sink.new) }
{
    let inferred = is_inferred(around.slice, mb_type.value);
    let has_reference = has_inferred(around.slice, inferred);
    check(has_reference, Rule::NoReference, mb_type.bit)?;
    read_motions_by(bits, around, mb_type.value, partition, motions, sink)
}
