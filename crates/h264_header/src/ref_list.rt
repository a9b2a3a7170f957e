//! Reading what a P slice says of its reference picture list, and of prediction from it (7.3.3, 7.3.3.1, 7.3.3.2).
#![tactic(auto)]

ghost use Rattle.std.specs.Prelude.{◌≡◌, ℕ, ◌+◌, ◌-◌, ◌<◌, ◌≤◌, ◌^◌, Some, [], IfOk, OnSome};
ghost use Rattle.h264_base.specs.Call.{HasRoom, span};
ghost use Rattle.arrayvec.specs.ArrayVec.{array_vec_len};
ghost use Rattle.h264_base.specs.Meets.{Meets, Is};
ghost use Rattle.h264_bits.specs.Forms.{optional};
ghost use Rattle.h264_header.specs.PredWeightTable.{pred_weight_table};
ghost use Rattle.h264_header.specs.declared.header.SliceKind.TheVariants.{P};
ghost use Rattle.h264_header.specs.RefList.{num_ref_idx_l0_active_minus1, command, is_command_allowed, modification, modifications_if, ref_pic_list0};
ghost use Rattle.h264_header.specs.RefList.{slice_kind};

use crate::header::{Modification, PicNumModification, PredWeightTable, RefPicList0, SliceKind};
use crate::layout::Layout;
use crate::weights::read_pred_weight_table;
use arrayvec::ArrayVec;
use h264_base::{ElementName, Elements, Rule, SliceType, Stop};
use h264_bits::forms::{flag_value, ue_up_to, ue_value};
use h264_bits::{Bits, check, read_flag, read_ue};

/// The idc that ends the commands.
const END: u32 = 3;

/// num_ref_idx_l0_active_minus1: the slice's own, or the picture parameter set's.
fn read_active_minus1<S: Elements>(
    default_minus1: u32,
    bits: &mut Bits,
    sink: &mut S,
) -> Result<u32, Stop>
    requires { HasRoom S.failures sink.old }
    ensures meets { Meets (span S.took S.failures sink.old sink.new) (Is (λ x. x)) (num_ref_idx_l0_active_minus1 default_minus1) bits.old bits.new result }
    ensures few { IfOk result (λ n. n ≤ 15) }
{
    let own = read_flag(bits, ElementName::NumRefIdxActiveOverrideFlag, sink)?;
    if own.value {
        return ue_up_to(bits, ElementName::NumRefIdxL0ActiveMinus1, 15, sink);
    }
    check(default_minus1 <= 15, Rule::Range, own.bit)?;
    Ok(default_minus1)
}

/// A command other than the end, with its operand; a difference is at most the greatest.
fn read_command<S: Elements>(
    greatest: u32,
    idc: u32,
    bits: &mut Bits,
    sink: &mut S,
) -> Result<Modification, Stop>
    requires known { idc ≤ 2 }
    requires room { HasRoom S.failures sink.old }
    ensures { Meets (span S.took S.failures sink.old sink.new) (Is Some) (command greatest idc) bits.old bits.new result }
{
    if idc == 2 {
        let long_term_pic_num = ue_value(bits, ElementName::LongTermPicNum, sink)?;
        return Ok(Modification::LongTerm { long_term_pic_num });
    }
    let abs_diff_pic_num_minus1 = ue_up_to(bits, ElementName::AbsDiffPicNumMinus1, greatest, sink)?;
    if idc == 0 {
        Ok(Modification::Subtract {
            abs_diff_pic_num_minus1,
        })
    } else {
        Ok(Modification::Add {
            abs_diff_pic_num_minus1,
        })
    }
}

/// Whether this command may stand after so many others.
fn is_command_allowed(active: u32, before: usize, idc: u32) -> bool
    ensures { result ≡ is_command_allowed active before idc }
{
    if idc == END {
        before > 0
    } else {
        idc < END && before < active as usize
    }
}

/// One more command, or the end.
fn read_modification<S: Elements>(
    greatest: u32,
    active: u32,
    before: &ArrayVec<PicNumModification, 16>,
    bits: &mut Bits,
    sink: &mut S,
) -> Result<Option<PicNumModification>, Stop>
    requires { HasRoom S.failures sink.old }
    ensures meets { Meets (span S.took S.failures sink.old sink.new) (Is (λ x. x)) (modification greatest active before.now.items) bits.old bits.new result }
    ensures room { IfOk result (λ m. OnSome m (array_vec_len before.now < active)) }
{
    let idc = read_ue(bits, ElementName::ModificationOfPicNumsIdc, sink)?;
    check(
        is_command_allowed(active, before.len(), idc.value),
        Rule::Range,
        idc.bit,
    )?;
    if idc.value == END {
        return Ok(None);
    }
    let modification = read_command(greatest, idc.value, bits, sink)?;
    Ok(Some(PicNumModification {
        bit: idc.bit,
        modification,
    }))
}

/// The commands up to the one that ends them, into an empty list; there are none where the flag is 0.
fn read_modifications<S: Elements>(
    greatest: u32,
    active: u32,
    modified: bool,
    commands: &mut ArrayVec<PicNumModification, 16>,
    bits: &mut Bits,
    sink: &mut S,
) -> Result<(), Stop>
    requires few { active ≤ 16 }
    requires empty { commands.old.items ≡ [] }
    requires room { HasRoom S.failures sink.old }
    ensures { Meets (span S.took S.failures sink.old sink.new) (Is (λ _. commands.new.items)) (modifications_if greatest active modified)
        bits.old bits.new result }
{
    if !modified {
        return Ok(());
    }
    for _turn in 0..active + 1 {
        let next = read_modification(greatest, active, commands, bits, sink)?;
        match next {
            Some(command) => commands.push(command),
            None => return Ok(()),
        }
    }
    Ok(())
}

/// The greatest abs_diff_pic_num_minus1: MaxFrameNum - 1.
fn greatest_of(frame_num_length: u32) -> u32
    requires { frame_num_length ≤ 16 }
    ensures { result ≡ 2 ^ frame_num_length - 1 }
{
    (1 << frame_num_length) - 1
}

/// The table of weights, where it is present, else none, in a place of the caller: it is large to move.
fn read_weights<S: Elements>(
    present: bool,
    active: u32,
    table: &mut Option<PredWeightTable>,
    bits: &mut Bits,
    sink: &mut S,
) -> Result<(), Stop>
    requires few { active ≤ 16 }
    requires room { HasRoom S.failures sink.old }
    ensures { Meets (span S.took S.failures sink.old sink.new) (Is (λ _. table.new)) (optional present (pred_weight_table active)) bits.old bits.new result }
{
    if !present {
        *table = None;
        return Ok(());
    }
    read_pred_weight_table(active, table, bits, sink)
}

/// What a P slice says of its list, in a place of the caller: it is large to move.
fn read_ref_pic_list0<S: Elements>(
    layout: Layout,
    kind: &mut SliceKind,
    bits: &mut Bits,
    sink: &mut S,
) -> Result<(), Stop>
    requires short { layout.frame_num_length ≤ 16 }
    requires room { HasRoom S.failures sink.old }
    ensures { Meets (span S.took S.failures sink.old sink.new) (λ _ l. kind.new ≡ P l) (ref_pic_list0 layout) bits.old bits.new result }
{
    let minus1 = read_active_minus1(layout.default_active_minus1, bits, sink)?;
    let active = minus1 + 1;
    let modified = flag_value(bits, ElementName::RefPicListModificationFlagL0, sink)?;
    let greatest = greatest_of(layout.frame_num_length);
    let mut modifications = ArrayVec::new();
    read_modifications(greatest, active, modified, &mut modifications, bits, sink)?;
    let mut table = None;
    read_weights(layout.has_weights, active, &mut table, bits, sink)?;
    *kind = SliceKind::P(RefPicList0 {
        num_ref_idx_l0_active: active,
        modifications,
        pred_weight_table: table,
    });
    Ok(())
}

/// The kind of a slice of this type, with what only slices of the type have, in a place of the caller.
pub(crate) fn read_slice_kind<S: Elements>(
    layout: Layout,
    slice_type: SliceType,
    kind: &mut SliceKind,
    bits: &mut Bits,
    sink: &mut S,
) -> Result<(), Stop>
    requires short { layout.frame_num_length ≤ 16 }
    requires room { HasRoom S.failures sink.old }
    ensures { Meets (span S.took S.failures sink.old sink.new) (Is (λ _. kind.new)) (slice_kind layout slice_type) bits.old bits.new result }
{
    match slice_type {
        SliceType::P => read_ref_pic_list0(layout, kind, bits, sink),
        SliceType::I => {
            *kind = SliceKind::I;
            Ok(())
        }
    }
}
