//! Slice data, where they are read.
#![tactic(auto)]

ghost use Rattle.std.specs.Prelude.{◌≡◌, ℕ, ◌-◌, ◌<◌, ◌≤◌, ◌^◌, Bool, true, false, Ok, Some, List, [], length, OnOk, IfErr, IsErrOf};
ghost use Rattle.h264_base.specs.Call.{HasRoom, IsQuiet};
ghost use Rattle.h264_sps.specs.Usable.{is_usable};
ghost use Rattle.h264_verify.specs.Telling.{frame_span, Family};
ghost use Rattle.h264_verify.specs.Pictures.{CodedSlice, CodedPicture, joined_to};
ghost use Rattle.h264_plane.specs.declared.frame.Frame.{Frame};
ghost use Rattle.h264_verify.specs.Data.{coded_so_far, data_in};
ghost use Rattle.h264_verify.specs.Sound.{HasPps};
ghost use Rattle.h264_verify.specs.Keeping.{EntersSome, EntersBy, IsRead, ReadsSome, BeginsFrames};
ghost use Rattle.h264_verify.specs.Memory.{format_of};
ghost use Rattle.h264_verify.specs.CourseOutcome.{structure_from};
ghost use Rattle.h264_verify.specs.Framing.{ReadsData};

use crate::decoder::Decoder;
use crate::head::SlicePlace;
use crate::slices::Slice;
use h264_base::{Elements, Stop};
use h264_bits::Bits;
use h264_picture::slice_context;
use h264_sps::sps::Sps;
use std::alloc::Global;

/// A picture that begins takes its places: Memory where they are refused.
fn begin_if(alloc: Global, begins: bool, sps: &Sps, decoder: &mut Decoder) -> Result<(), Stop>
    requires usable { is_usable sps.now ≡ true }
    requires kept { begins ≡ true → EntersSome decoder.old }
    ensures holds { (frames : Family) (on : Bool) (s : CodedSlice) (pictures : List CodedPicture) → s.sps ≡ sps.now → (begins ≡ false → on ≡ true) →
        EntersBy frames begins s on pictures decoder.old → OnOk result (BeginsFrames frames begins s pictures decoder.new) }
    ensures later { begins ≡ false → result ≡ Ok tt }
    ensures stands { decoder.old.format ≡ Some (format_of sps.now) → result ≡ Ok tt }
    ensures err { IfErr result (λ e. e ≡ Stop.Memory) }
{
    if !begins {
        return Ok(());
    }
    decoder.begin(alloc, sps)
}

/// Reads the slice data of a slice whose rules are met (7.3.4), into the frame of its picture. Err: the first rule that is not met, with its
/// bit, Write where the sink failed, or Memory where a picture begins whose sequence has another format than the decoder, and its places are
/// refused, before the first element.
pub(crate) fn read_data<S: Elements>(
    alloc: Global,
    place: &SlicePlace<'_>,
    slice: &Slice,
    decoder: &mut Decoder,
    bits: &mut Bits,
    sink: &mut S,
) -> Result<(), Stop>
    requires room { HasRoom S.failures sink.old }
    requires usable { is_usable place.now.sps.now ≡ true }
    requires kept { ReadsSome place.now slice.now decoder.old }
    ensures reads { (frames : Family) (on : Bool) (pictures : List CodedPicture) (s : CodedSlice) → IsRead place.now slice.now pictures s →
        s.header.first_mb_in_slice.value ≡ length (coded_so_far place.now.begins pictures) → s.macroblocks ≡ [] →
        (place.now.begins ≡ false → on ≡ true) →
        (place.now.begins ≡ false → HasPps s.pps pictures) → EntersBy frames place.now.begins s on pictures decoder.old →
        ReadsData (frame_span S.took S.failures frames sink.old sink.new) (structure_from (data_in place.now.begins pictures s) bits.old.body bits.old.at)
        (λ ms. joined_to place.now.begins (record s { macroblocks = ms }) pictures) decoder.new result }
    ensures no_memory { place.now.begins ≡ false → IsErrOf result Stop.Memory → ⊥ }
    ensures stands { decoder.old.format ≡ Some (format_of place.now.sps.now) → IsErrOf result Stop.Memory → ⊥ }
    // Memory comes before the first element, so that nothing is told of slice data then.
    ensures untold { IsErrOf result Stop.Memory → sink.new ≡ sink.old }
    ensures kept { OnOk result (IsQuiet S.failures sink.old sink.new) }
{
    let SlicePlace {
        pps,
        sps,
        begins,
        ..
    } = *place;
    begin_if(alloc, begins, sps, decoder)?;
    let header = &slice.header;
    let context = slice_context(pps, sps, header, slice.list.as_slice());
    decoder.slice(bits, &context, pps, header, sink)
}
