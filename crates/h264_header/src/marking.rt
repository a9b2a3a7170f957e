//! Reading the marking of reference pictures (7.3.3.3).
#![tactic(auto)]

ghost use Rattle.std.specs.Prelude.{◌≡◌, ℕ, ◌==◌, ◌-◌, ◌<◌, ◌≤◌, ◌^◌, true, Some, None, IfOk, OnSome};
ghost use Rattle.h264_base.specs.Call.{HasRoom, span};
ghost use Rattle.std.specs.List.{list_any};
ghost use Rattle.arrayvec.specs.ArrayVec.{array_vec_len};
ghost use Rattle.h264_base.specs.Meets.{Meets, Is};
ghost use Rattle.h264_bits.specs.Forms.{optional};
ghost use Rattle.h264_header.specs.Marking.{number_of, operands, is_operation_allowed, operation, operations, idr_marking, marking_mode};
ghost use Rattle.h264_header.specs.Marking.{other_marking, dec_ref_pic_marking};
ghost use Rattle.h264_header.specs.Parts.{operand_name, with_operand};

use crate::header::{Marking, MarkingOperation, Operation};
use arrayvec::ArrayVec;
use h264_base::{ElementName, Elements, Rule, Stop};
use h264_bits::forms::{flag_value, ue_value};
use h264_bits::{Bits, Found, check, read_flag, read_ue};

/// How many operations there may be.
const MOST: usize = 36;

/// memory_management_control_operation of an operation.
fn number_of(operation: Operation) -> u32
    ensures { result ≡ number_of operation }
{
    match operation {
        Operation::UnmarkShortTerm { .. } => 1,
        Operation::UnmarkLongTerm { .. } => 2,
        Operation::MakeLongTerm { .. } => 3,
        Operation::LimitLongTerm { .. } => 4,
        Operation::UnmarkAll => 5,
        Operation::MakeCurrentLongTerm { .. } => 6,
    }
}

/// The name of the first operand of an operation; 5 has none.
fn operand_name(number: u32) -> ElementName
    ensures { result ≡ operand_name number }
{
    match number {
        2 => ElementName::LongTermPicNum,
        4 => ElementName::MaxLongTermFrameIdxPlus1,
        6 => ElementName::LongTermFrameIdx,
        _ => ElementName::DifferenceOfPicNumsMinus1,
    }
}

/// Operation 1, 2, 4 or 6 with this operand.
fn with_operand(number: u32, operand: u32) -> Operation
    ensures { result ≡ with_operand number operand }
{
    match number {
        1 => Operation::UnmarkShortTerm {
            difference_of_pic_nums_minus1: operand,
        },
        2 => Operation::UnmarkLongTerm {
            long_term_pic_num: operand,
        },
        4 => Operation::LimitLongTerm {
            max_long_term_frame_idx_plus1: operand,
        },
        _ => Operation::MakeCurrentLongTerm {
            long_term_frame_idx: operand,
        },
    }
}

/// The operation of this number with its operands.
fn read_operands<S: Elements>(number: u32, bits: &mut Bits, sink: &mut S) -> Result<Operation, Stop>
    requires some { 0 < number }
    requires known { number ≤ 6 }
    requires room { HasRoom S.failures sink.old }
    ensures { Meets (span S.took S.failures sink.old sink.new) (Is Some) (operands number) bits.old bits.new result }
{
    if number == 5 {
        return Ok(Operation::UnmarkAll);
    }
    let operand = ue_value(bits, operand_name(number), sink)?;
    if number != 3 {
        return Ok(with_operand(number, operand));
    }
    let long_term_frame_idx = ue_value(bits, ElementName::LongTermFrameIdx, sink)?;
    Ok(Operation::MakeLongTerm {
        difference_of_pic_nums_minus1: operand,
        long_term_frame_idx,
    })
}

/// Whether one of these operations has this number.
fn has_number(before: &[MarkingOperation], number: u32) -> bool
    ensures { result ≡ list_any (λ m. number_of m.operation == number) before.now }
{
    before.iter().any(|m| number_of(m.operation) == number)
}

/// Whether an operation of this number may stand after these.
fn is_operation_allowed(before: &[MarkingOperation], number: u32) -> bool
    ensures { result ≡ is_operation_allowed before.now number }
{
    if number == 0 {
        return true;
    }
    if number > 6 || before.len() >= MOST {
        return false;
    }
    !(number >= 4 && has_number(before, number))
}

/// One more operation, or the end.
fn read_operation<S: Elements>(
    before: &ArrayVec<MarkingOperation, 36>,
    bits: &mut Bits,
    sink: &mut S,
) -> Result<Option<MarkingOperation>, Stop>
    requires { HasRoom S.failures sink.old }
    ensures meets { Meets (span S.took S.failures sink.old sink.new) (Is (λ x. x)) (operation before.now.items) bits.old bits.new result }
    ensures room { IfOk result (λ m. OnSome m (array_vec_len before.now < 36)) }
{
    let number = read_ue(bits, ElementName::MemoryManagementControlOperation, sink)?;
    check(
        is_operation_allowed(before.as_slice(), number.value),
        Rule::Range,
        number.bit,
    )?;
    if number.value == 0 {
        return Ok(None);
    }
    let operation = read_operands(number.value, bits, sink)?;
    Ok(Some(MarkingOperation {
        bit: number.bit,
        operation,
    }))
}

/// The operations up to the 0 that ends them.
fn read_operations<S: Elements>(
    bits: &mut Bits,
    sink: &mut S,
) -> Result<ArrayVec<MarkingOperation, 36>, Stop>
    requires { HasRoom S.failures sink.old }
    ensures { Meets (span S.took S.failures sink.old sink.new) (Is (λ x. x.items)) operations bits.old bits.new result }
{
    let mut operations = ArrayVec::new();
    for _turn in 0..MOST + 1 {
        let next = read_operation(&operations, bits, sink)?;
        match next {
            Some(operation) => operations.push(operation),
            None => return Ok(operations),
        }
    }
    Ok(operations)
}

/// The marking of an IDR picture.
fn read_idr_marking<S: Elements>(
    marking: &mut Option<Found<Marking>>,
    bits: &mut Bits,
    sink: &mut S,
) -> Result<(), Stop>
    requires { HasRoom S.failures sink.old }
    ensures { Meets (span S.took S.failures sink.old sink.new) (λ _ m. marking.new ≡ Some m) idr_marking bits.old bits.new result }
{
    let no_output = read_flag(bits, ElementName::NoOutputOfPriorPicsFlag, sink)?;
    let long_term = flag_value(bits, ElementName::LongTermReferenceFlag, sink)?;
    *marking = Some(Found {
        bit: no_output.bit,
        value: Marking::Idr {
            no_output_of_prior_pics_flag: no_output.value,
            long_term_reference_flag: long_term,
        },
    });
    Ok(())
}

/// An adaptive marking, whose flag stands at this bit. Apart, so that another marking does not fill the operations' places.
#[inline(never)]
fn read_adaptive<S: Elements>(
    bit: u64,
    marking: &mut Option<Found<Marking>>,
    bits: &mut Bits,
    sink: &mut S,
) -> Result<(), Stop>
    requires { HasRoom S.failures sink.old }
    ensures { Meets (span S.took S.failures sink.old sink.new) (λ _ m. marking.new ≡ Some (record { bit = bit; value = m })) (marking_mode true)
        bits.old bits.new result }
{
    let operations = read_operations(bits, sink)?;
    *marking = Some(Found {
        bit,
        value: Marking::Adaptive(operations),
    });
    Ok(())
}

/// The marking of another picture.
fn read_other_marking<S: Elements>(
    marking: &mut Option<Found<Marking>>,
    bits: &mut Bits,
    sink: &mut S,
) -> Result<(), Stop>
    requires { HasRoom S.failures sink.old }
    ensures { Meets (span S.took S.failures sink.old sink.new) (λ _ m. marking.new ≡ Some m) other_marking bits.old bits.new result }
{
    let adaptive = read_flag(bits, ElementName::AdaptiveRefPicMarkingModeFlag, sink)?;
    if adaptive.value {
        return read_adaptive(adaptive.bit, marking, bits, sink);
    }
    *marking = Some(Found {
        bit: adaptive.bit,
        value: Marking::SlidingWindow,
    });
    Ok(())
}

/// The marking, where the picture is a reference, else none, in a place of the caller: it is large to move.
pub(crate) fn read_marking<S: Elements>(
    reference: bool,
    idr: bool,
    marking: &mut Option<Found<Marking>>,
    bits: &mut Bits,
    sink: &mut S,
) -> Result<(), Stop>
    requires { HasRoom S.failures sink.old }
    ensures { Meets (span S.took S.failures sink.old sink.new) (Is (λ _. marking.new)) (optional reference (dec_ref_pic_marking idr)) bits.old bits.new result }
{
    if !reference {
        *marking = None;
        return Ok(());
    }
    if idr {
        return read_idr_marking(marking, bits, sink);
    }
    read_other_marking(marking, bits, sink)
}
