//! Reading pred_weight_table(), and the weights of a slice by reference index (7.3.3.2, 7.4.3.2).
#![tactic(auto)]

ghost use Rattle.std.specs.Prelude.{◌≡◌, ℕ, ◌-◌, ◌<◌, ◌≤◌, ◌^◌, [], Some, IfOk};
ghost use Rattle.h264_base.specs.Call.{HasRoom, span};
ghost use Rattle.h264_base.specs.Meets.{Meets, Is};
ghost use Rattle.h264_bits.specs.Forms.{repeated};
ghost use Rattle.h264_header.specs.PredWeightTable.{stated_weight, inferred_weight, luma_weight, index_weights, pred_weight_table};
ghost use Rattle.h264_header.specs.Weights.{weights_at, weights_of};

use crate::header::{Header, IndexWeights, PredWeightTable, SliceKind};
use arrayvec::ArrayVec;
use h264_base::{ElementName, Elements, Stop, Weight, Weights};
use h264_bits::Bits;
use h264_bits::forms::{flag_value, se_within, ue_up_to};

/// The weight and the offset of a plane under these names.
fn read_stated_weight<S: Elements>(
    weight_name: ElementName,
    offset_name: ElementName,
    log2_weight_denom: u8,
    bits: &mut Bits,
    sink: &mut S,
) -> Result<Weight, Stop>
    requires { HasRoom S.failures sink.old }
    ensures { Meets (span S.took S.failures sink.old sink.new) (Is (λ x. x)) (stated_weight weight_name offset_name log2_weight_denom)
        bits.old bits.new result }
{
    let weight = se_within(bits, weight_name, -128, 127, sink)?;
    let offset = se_within(bits, offset_name, -128, 127, sink)?;
    Ok(Weight {
        log2_weight_denom,
        weight: weight as i16,
        offset: offset as i16,
    })
}

/// The weight of a plane that has none in the slice header.
fn inferred_weight(log2_weight_denom: u8) -> Weight
    requires { log2_weight_denom ≤ 7 }
    ensures { result ≡ inferred_weight log2_weight_denom }
{
    Weight {
        log2_weight_denom,
        weight: 1 << log2_weight_denom,
        offset: 0,
    }
}

/// The luma weight of a reference index.
fn read_luma_weight<S: Elements>(
    denom: u8,
    given: bool,
    bits: &mut Bits,
    sink: &mut S,
) -> Result<Weight, Stop>
    requires denom { denom ≤ 7 }
    requires room { HasRoom S.failures sink.old }
    ensures { Meets (span S.took S.failures sink.old sink.new) (Is (λ x. x)) (luma_weight denom given) bits.old bits.new result }
{
    if !given {
        return Ok(inferred_weight(denom));
    }
    let (weight, offset) = (ElementName::LumaWeightL0, ElementName::LumaOffsetL0);
    read_stated_weight(weight, offset, denom, bits, sink)
}

/// The weights of a reference index.
fn read_index_weights<S: Elements>(
    luma_denom: u8,
    chroma_denom: u8,
    bits: &mut Bits,
    sink: &mut S,
) -> Result<IndexWeights, Stop>
    requires luma { luma_denom ≤ 7 }
    requires chroma { chroma_denom ≤ 7 }
    requires room { HasRoom S.failures sink.old }
    ensures { Meets (span S.took S.failures sink.old sink.new) (Is (λ x. x)) (index_weights luma_denom chroma_denom) bits.old bits.new result }
{
    let luma_given = flag_value(bits, ElementName::LumaWeightL0Flag, sink)?;
    let luma = read_luma_weight(luma_denom, luma_given, bits, sink)?;
    let chroma_given = flag_value(bits, ElementName::ChromaWeightL0Flag, sink)?;
    if !chroma_given {
        let chroma = inferred_weight(chroma_denom);
        return Ok(IndexWeights {
            weights: Weights {
                luma,
                cb: chroma,
                cr: chroma,
            },
        });
    }
    let (weight, offset) = (ElementName::ChromaWeightL0, ElementName::ChromaOffsetL0);
    let cb = read_stated_weight(weight, offset, chroma_denom, bits, sink)?;
    let cr = read_stated_weight(weight, offset, chroma_denom, bits, sink)?;
    Ok(IndexWeights {
        weights: Weights { luma, cb, cr },
    })
}

/// The weights of each index below this one, into an empty list.
fn read_entries<S: Elements>(
    luma_denom: u8,
    chroma_denom: u8,
    active: u32,
    entries: &mut ArrayVec<IndexWeights, 16>,
    bits: &mut Bits,
    sink: &mut S,
) -> Result<(), Stop>
    requires luma { luma_denom ≤ 7 }
    requires chroma { chroma_denom ≤ 7 }
    requires few { active ≤ 16 }
    requires empty { entries.old.items ≡ [] }
    requires room { HasRoom S.failures sink.old }
    ensures { Meets (span S.took S.failures sink.old sink.new) (Is (λ _. entries.new.items)) (repeated (index_weights luma_denom chroma_denom) [] active)
        bits.old bits.new result }
{
    for _index in 0..active {
        let next = read_index_weights(luma_denom, chroma_denom, bits, sink)?;
        entries.push(next);
    }
    Ok(())
}

/// The table of a P slice whose list has so many active places, in a place of the caller: it is large to move.
pub(crate) fn read_pred_weight_table<S: Elements>(
    active: u32,
    table: &mut Option<PredWeightTable>,
    bits: &mut Bits,
    sink: &mut S,
) -> Result<(), Stop>
    requires few { active ≤ 16 }
    requires room { HasRoom S.failures sink.old }
    ensures { Meets (span S.took S.failures sink.old sink.new) (λ _ t. table.new ≡ Some t) (pred_weight_table active) bits.old bits.new result }
{
    let luma_denom = ue_up_to(bits, ElementName::LumaLog2WeightDenom, 7, sink)? as u8;
    let chroma_denom = ue_up_to(bits, ElementName::ChromaLog2WeightDenom, 7, sink)? as u8;
    let mut entries = ArrayVec::new();
    read_entries(luma_denom, chroma_denom, active, &mut entries, bits, sink)?;
    *table = Some(PredWeightTable { entries });
    Ok(())
}

/// The weights of this reference index, if the table's list has such a place.
fn weights_at(table: &PredWeightTable, ref_idx: u32) -> Option<Weights>
    ensures { result ≡ weights_at table.now ref_idx }
{
    match table.entries.get(ref_idx as usize) {
        Some(entry) => Some(entry.weights),
        None => None,
    }
}

/// The weights of prediction from the picture at this place of the slice's list, those inferred that the header does not have.
/// None where the slice has no weights, or its list no such place: what is predicted is then not weighted (8.4.2.3.1).
pub fn weights_of(header: &Header, ref_idx: u32) -> Option<Weights>
    ensures { result ≡ weights_of header.now ref_idx }
{
    match &header.kind.value {
        SliceKind::P(list) => weights_at(list.pred_weight_table.as_ref()?, ref_idx),
        SliceKind::I => None,
    }
}
