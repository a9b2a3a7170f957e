//! Where a slice stands after those so far.
#![tactic(auto)]

ghost use Rattle.std.specs.Prelude.{◌≡◌, ℕ, false, ◌<◌, ◌≤◌, ◌^◌, true, Some, List, [], OnOk, OnErr, IsErrOf};
ghost use Rattle.h264_base.specs.Call.{HasRoom, IsQuiet};
ghost use Rattle.std.specs.Option.{is_some};
ghost use Rattle.h264_header.specs.Layout.{sets_of};
ghost use Rattle.h264_pps.specs.declared.Pps.{Pps};
ghost use Rattle.h264_sps.specs.declared.sps.Sps.{Sps};
ghost use Rattle.h264_verify.specs.Telling.{frame_span, Family};
ghost use Rattle.h264_verify.specs.Demands.{judged};
ghost use Rattle.h264_verify.specs.History.{History, maps_with, maps_of};
ghost use Rattle.h264_verify.specs.declared.state.Depth.{Depth};
ghost use Rattle.h264_plane.specs.declared.frame.Frame.{Frame};
ghost use Rattle.h264_verify.specs.Order.{coded_before};
ghost use Rattle.h264_verify.specs.Keeping.{KeepsSlices, KeepsFrames, WhereMade, KeepsSomeSlice, begins_by, HoldsNewest, format_in};
ghost use Rattle.h264_verify.specs.Framing.{JudgesSlice, PlacesSlice, slice_after};
ghost use Rattle.h264_verify.specs.Content as contents;
ghost use Rattle.h264_verify.specs.Pictures.{CodedPicture, runs_of, goes_on};
ghost use Rattle.h264_verify.specs.Slices.{first_mb_demands};

use crate::close::close_if;
use crate::decoder::Decoder;
use crate::rules::{check, check_standing};
use crate::state::State;
use h264_base::{Rule, Stop};
use h264_dpb::FrameSink;
use h264_header::Header;
use h264_picture::Work;
use h264_units::NalUnit;

/// How many macroblocks are coded before a slice.
fn coded_before(begins: bool, work: &Work) -> u32
    ensures { (pictures : List CodedPicture) → HoldsNewest begins pictures work.now → result ≡ coded_before begins pictures }
{
    if begins {
        return 0;
    }
    work.next_mb()
}

/// Whether a slice begins where its picture's macroblocks so far end, where slice data are read.
fn check_first_mb(begins: bool, decoder: &Option<Decoder>, header: &Header) -> Result<(), Stop>
    ensures judged { (depth : Depth) (pictures : List CodedPicture) → WhereMade depth (λ d. HoldsNewest begins pictures d.work) decoder.now →
        result ≡ judged (first_mb_demands depth (coded_before begins pictures) header.now) }
    ensures no_memory { IsErrOf result Stop.Memory → ⊥ }
{
    match decoder {
        None => Ok(()),
        Some(decoder) => {
            let coded = coded_before(begins, &decoder.work);
            let first_mb = header.first_mb_in_slice;
            check(first_mb.value == coded, Rule::FirstMb, first_mb.bit)
        }
    }
}

/// Gives a slice its place after those so far: a picture before it ends where it begins one, the sets that it names become the active ones, and
/// where slice data are read it begins where its picture's macroblocks so far end.
///
/// Err: the first rule that is not met, with its bit (of the unit, the header's element, or the end of the picture before), or Write where the
/// sink failed; what is kept is then of no use.
pub(crate) fn place_slice<S: FrameSink>(
    begins: bool,
    state: &mut State,
    unit: &NalUnit,
    sink: &mut S,
) -> Result<(), Stop>
    requires room { HasRoom S.failures sink.old }
    requires begins { begins ≡ begins_by state.old.slices.picture state.old.slice.header }
    requires id { state.old.slice.header.pic_parameter_set_id.value ≤ 255 }
    requires named { is_some (sets_of state.old.sets state.old.slice.header.pic_parameter_set_id.value) ≡ true }
    requires pictures { state.old.slices.pictures < 2 ^ 42 }
    requires kept { KeepsSomeSlice state.old.slices state.old.sets state.old.decoder }
    ensures refused { (depth : Depth) (frames : Family) (before : History) (named : Pps × Sps) → KeepsSlices before false state.old.slices →
        state.old.sets ≡ maps_of before → sets_of state.old.sets state.old.slice.header.pic_parameter_set_id.value ≡ Some named →
        WhereMade depth (KeepsFrames frames (goes_on before) false (runs_of before)) state.old.decoder →
        OnErr result (JudgesSlice depth (frame_span S.took S.failures frames sink.old sink.new)
        (slice_after before unit.now state.old.slice.header begins) named state.new.decoder result) }
    ensures placed { (depth : Depth) (frames : Family) (before : History) → KeepsSlices before false state.old.slices →
        WhereMade depth (KeepsFrames frames (goes_on before) false (runs_of before)) state.old.decoder →
        OnOk result (PlacesSlice depth (frame_span S.took S.failures frames sink.old sink.new)
        (slice_after before unit.now state.old.slice.header begins) state.old state.new) }
    ensures sets { OnOk result (state.new.sets ≡ maps_with state.old.sets (contents.OfSlice state.old.slice.header [])) }
    ensures named { OnOk result (is_some (sets_of state.new.sets state.new.slice.header.pic_parameter_set_id.value) ≡ true) }
    ensures format { format_in state.new.decoder ≡ format_in state.old.decoder }
    ensures pictures { state.new.slices.pictures ≡ state.old.slices.pictures }
    ensures units { state.new.units ≡ state.old.units }
    ensures slice { state.new.slice ≡ state.old.slice }
    ensures no_memory { IsErrOf result Stop.Memory → ⊥ }
    ensures kept { OnOk result (IsQuiet S.failures sink.old sink.new) }
{
    let bit = 8 * unit.from();
    close_if(begins, &mut state.slices, &mut state.decoder, sink)?;
    check_standing(
        begins,
        state.slices.due,
        &mut state.sets,
        bit,
        &state.slice.header,
    )?;
    check_first_mb(begins, &state.decoder, &state.slice.header)
}
