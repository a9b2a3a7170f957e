//! The rules that a slice meets one after another.
#![tactic(auto)]

ghost use Rattle.std.specs.Prelude.{◌≡◌, ℕ, Bool, true, false, Some, not, ◌&&◌, ◌||◌, ◌∷◌, [], ◌≤◌, pos, ◌+ℤ◌, OnOk, Ok, Err, IsErrOf, if◌then◌else◌};
ghost use Rattle.std.specs.Option.{is_some};
ghost use Rattle.h264_base.specs.declared.stop.Stop.TheVariants.{No};
ghost use Rattle.h264_header.specs.Layout.{sets_of};
ghost use Rattle.h264_verify.specs.Demands.{judged};
ghost use Rattle.h264_verify.specs.History.{maps_with};
ghost use Rattle.h264_verify.specs.Content as contents;
ghost use Rattle.h264_verify.specs.Order.{standing_demands};
ghost use Rattle.h264_verify.specs.Keeping.{marking_by, same_type_by};
ghost use Rattle.h264_verify.specs.Slices.{idr_id, bit_of_marking, is_qp, type_demand, id_demand, qp_demand, list_demand, marking_demand};
ghost use Rattle.h264_verify.specs.Lists.{list_of};
ghost use Rattle.h264_header.specs.SameMarking.{same_marking};

use crate::picture::{OpenPicture, agrees, is_i, seen_types};
use arrayvec::ArrayVec;
use h264_base::{Rule, Stop};
use h264_bits::Found;
use h264_header::{Header, Marking, SliceKind, same_marking};
use h264_lists::{RefSlot, build};
use h264_marking::{Held, Numbering};
use h264_pps::Pps;
use h264_sets::Sets;
use h264_sps::sps::Sps;

/// The greatest QPY of samples of 8 bits (7.4.3).
const MAX_QP: i64 = 51;

/// Names a rule that is not met, with its stream bit.
pub fn check(holds: bool, rule: Rule, bit: u64) -> Result<(), Stop>
    ensures { result ≡ (if holds then Ok tt else Err (No bit rule)) }
{
    if holds {
        Ok(())
    } else {
        Err(Stop::No { bit, rule })
    }
}

/// Whether a picture may begin where an IDR picture is due or not.
fn may_begin(due: bool, idr: bool) -> bool
    ensures { result ≡ (not due || idr) }
{
    !due || idr
}

/// The rules on where a slice stands, and with which sets (7.4.1.2.1), which become the active ones. `bit` is the first of the slice's unit.
///
/// Err: FirstPicture at that bit, where an IDR picture is due and another would begin; SetChanged at the header's pic_parameter_set_id, where
/// the sequence parameter set is not the active one and none may become active. The sets are then as they were.
pub fn check_standing(
    begins: bool,
    due: bool,
    sets: &mut Sets,
    bit: u64,
    header: &Header,
) -> Result<(), Stop>
    requires id { header.now.pic_parameter_set_id.value ≤ 255 }
    requires named { is_some (sets_of sets.old header.now.pic_parameter_set_id.value) ≡ true }
    ensures judged { (named : Pps × Sps) → sets_of sets.old header.now.pic_parameter_set_id.value ≡ Some named →
        result ≡ judged (standing_demands begins named.1 due sets.old bit header.now) }
    ensures activated { OnOk result (sets.new ≡ maps_with sets.old (contents.OfSlice header.now [])) }
    ensures no_memory { IsErrOf result Stop.Memory → ⊥ }
{
    let id = header.pic_parameter_set_id;
    if !begins {
        return sets.activate(id.value, id.bit, false);
    }
    let idr = header.idr_pic_id.is_some();
    check(may_begin(due, idr), Rule::FirstPicture, bit)?;
    sets.activate(id.value, id.bit, idr)
}

/// The rule on the type of any slice.
pub(crate) fn check_type(sps: &Sps, header: &Header) -> Result<(), Stop>
    ensures { result ≡ judged (type_demand sps.now header.now ∷ []) }
{
    let idr = header.idr_pic_id.is_some();
    let may_be_p = !(idr || sps.max_num_ref_frames == 0);
    let fits = is_i(&header.kind.value) || may_be_p;
    check(fits, Rule::SliceType, header.kind.bit)
}

/// The rule on the types of a picture's slices.
pub(crate) fn check_same_type(picture: &Option<OpenPicture>, header: &Header) -> Result<(), Stop>
    ensures { result ≡ judged (same_type_by picture.now header.now ∷ []) }
{
    let agrees = agrees(seen_types(picture), header);
    check(agrees, Rule::SliceType, header.kind.bit)
}

/// idr_pic_id, where there is one.
pub(crate) fn idr_id(id: Option<Found<u32>>) -> Option<u32>
    ensures { result ≡ idr_id id }
{
    match id {
        None => None,
        Some(found) => Some(found.value),
    }
}

/// The rule on idr_pic_id: it differs from that of the IDR picture directly before.
pub(crate) fn check_id(newest_idr: Option<u32>, header: &Header) -> Result<(), Stop>
    ensures { result ≡ judged (id_demand newest_idr header.now ∷ []) }
{
    match (newest_idr, header.idr_pic_id) {
        (Some(newest), Some(id)) => check(newest != id.value, Rule::IdrPicId, id.bit),
        _ => Ok(()),
    }
}

/// SliceQPY: 26 + pic_init_qp_minus26 + slice_qp_delta (7.4.3).
fn slice_qp(init: i32, delta: i32) -> i64
    ensures { result ≡ (pos 26 +ℤ init) +ℤ delta }
{
    26 + init as i64 + delta as i64
}

/// Whether SliceQPY lies in 0 to 51 (7.4.3).
fn is_qp(init: i32, delta: i32) -> bool
    ensures { result ≡ is_qp init delta }
{
    let qp = slice_qp(init, delta);
    0 <= qp && qp <= MAX_QP
}

/// The rule on a slice's QP.
pub(crate) fn check_qp(pps: &Pps, header: &Header) -> Result<(), Stop>
    ensures { result ≡ judged (qp_demand pps.now header.now ∷ []) }
{
    let qp = is_qp(pps.pic_init_qp_minus26, header.slice_qp_delta.value);
    check(qp, Rule::Qp, header.slice_qp_delta.bit)
}

/// Builds a slice's reference list (8.2.4); an I slice has none.
///
/// Err: ListCommand, at the first modification that names a frame that is not held.
pub(crate) fn build_list(
    kind: &SliceKind,
    numbering: &Numbering,
    held: &Held,
    list: &mut ArrayVec<RefSlot, 16>,
) -> Result<(), Stop>
    ensures judged { result ≡ judged (list_demand (list_of kind.now numbering.now held.now) ∷ []) }
    ensures list { OnOk result (list_of kind.now numbering.now held.now ≡ Ok list.new.items) }
{
    *list = match kind {
        SliceKind::I => ArrayVec::new(),
        SliceKind::P(commands) => build(held, numbering, commands)?,
    };
    Ok(())
}

/// The bit of a marking that may not be there.
fn bit_of_marking(marking: &Option<Found<Marking>>) -> u64
    ensures { result ≡ bit_of_marking marking.now }
{
    match marking {
        None => 0,
        Some(found) => found.bit,
    }
}

/// Whether a picture that may go on has this marking.
fn has_marking(picture: &Option<OpenPicture>, marking: &Option<Found<Marking>>) -> bool
    ensures { result ≡ same_marking (marking_by picture.now) marking.now }
{
    match picture {
        None => same_marking(&None, marking),
        Some(picture) => same_marking(&picture.marking, marking),
    }
}

/// The rule on the marking of a picture's later slices.
pub(crate) fn check_marking(picture: &Option<OpenPicture>, header: &Header) -> Result<(), Stop>
    ensures { result ≡ judged (marking_demand (marking_by picture.now) header.now ∷ []) }
{
    let same = has_marking(picture, &header.marking);
    check(same, Rule::MarkDiffers, bit_of_marking(&header.marking))
}
