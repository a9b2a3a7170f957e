//! The end of a picture, before what ends it.
#![tactic(auto)]

ghost use Rattle.std.specs.Prelude.{◌≡◌, ℕ, ◌-◌, ◌<◌, ◌≤◌, ◌^◌, false, OnOk, IsErrOf, Ok, [], IfErr, if◌then◌else◌, true};
ghost use Rattle.h264_base.specs.Call.{HasRoom, IsQuiet};
ghost use Rattle.h264_verify.specs.declared.state.Depth.{Depth};
ghost use Rattle.h264_plane.specs.declared.frame.Frame.{Frame};
ghost use Rattle.h264_verify.specs.Telling.{frame_span, Family};
ghost use Rattle.h264_verify.specs.History.{History};
ghost use Rattle.h264_verify.specs.Pictures.{goes_on, runs_of};
ghost use Rattle.h264_verify.specs.Order.{closing_demands};
ghost use Rattle.h264_verify.specs.Keeping.{KeepsSlices, KeepsFrames, WhereMade, KeepsSomeFrames, format_in};
ghost use Rattle.h264_verify.specs.CourseOutcome.{outcome_of};
ghost use Rattle.h264_verify.specs.Framing.{EndsFrames, closing};
ghost use Rattle.h264_verify.specs.Demands.{judged};
ghost use Rattle.h264_verify.specs.Outcome.{IsNamed, answers};
ghost use Rattle.h264_verify.specs.Order.{whole_steps, close_steps, close_if};
ghost use Rattle.h264_verify.specs.Buffering.{closing_frames};

use crate::decoder::Decoder;
use crate::rules::check;
use crate::slices::PicturesSoFar;
use h264_base::{Rule, Stop};
use h264_dpb::FrameSink;
use h264_marking::mark_end;

/// The end of the slice data of the picture that may go on, where they are read: all its macroblocks are coded.
fn end_data(slices: &PicturesSoFar, decoder: &Option<Decoder>) -> Result<(), Stop>
    ensures judged { (depth : Depth) (frames : Family) (before : History) → KeepsSlices before false slices.now →
        WhereMade depth (KeepsFrames frames (goes_on before) false (runs_of before)) decoder.now →
        answers result ≡ outcome_of (whole_steps depth before) }
    ensures named { IfErr result IsNamed }
{
    let Some(decoder) = decoder else {
        return Ok(());
    };
    match &slices.picture {
        None => Ok(()),
        Some(picture) => check(decoder.work.is_whole(), Rule::Incomplete, picture.following),
    }
}

/// The end of the picture that may go on, where there is one.
fn end(slices: &mut PicturesSoFar) -> Result<(), Stop>
    ensures judged { (before : History) → KeepsSlices before false slices.old → result ≡ judged (closing_demands before) }
    ensures ended { (before : History) → KeepsSlices before false slices.old → OnOk result (KeepsSlices before true slices.new) }
    ensures others { slices.new ≡ record slices.old { held = slices.new.held } }
    ensures no_memory { IsErrOf result Stop.Memory → ⊥ }
{
    match &slices.picture {
        None => Ok(()),
        Some(picture) => mark_end(
            &picture.marking,
            &picture.numbering,
            slices.pictures.saturating_sub(1),
            &mut slices.held,
        ),
    }
}

/// The frame of the picture that may go on takes its place, where frames are made.
fn end_frame<S: FrameSink>(
    slices: &PicturesSoFar,
    decoder: &mut Option<Decoder>,
    sink: &mut S,
) -> Result<(), Stop>
    requires room { HasRoom S.failures sink.old }
    requires pictures { slices.now.pictures ≤ 2 ^ 42 }
    requires kept { KeepsSomeFrames true slices.now decoder.old }
    ensures ends { (depth : Depth) (frames : Family) (before : History) → KeepsSlices before true slices.now →
        answers (Ok tt) ≡ outcome_of (whole_steps depth before) →
        WhereMade depth (KeepsFrames frames (goes_on before) false (runs_of before)) decoder.old →
        EndsFrames depth (frame_span S.took S.failures frames sink.old sink.new) (closing (goes_on before) true (runs_of before))
        (outcome_of (closing_frames depth before)) decoder.new result }
    ensures format { format_in decoder.new ≡ format_in decoder.old }
    ensures kept { OnOk result (IsQuiet S.failures sink.old sink.new) }
    ensures no_memory { IfErr result (λ e. e ≡ Stop.Write) }
{
    let Some(decoder) = decoder else {
        return Ok(());
    };
    match &slices.picture {
        None => Ok(()),
        Some(picture) => decoder.end(&picture.ended, &slices.held, sink),
    }
}

/// The end of the picture that may go on, where there is one: all its macroblocks are coded (7.4.3), it is marked (8.2.5), and its frame takes its
/// place in the picture buffer (C.4). Err: Incomplete or MarkCommand, with its bit, or Write where the sink failed.
pub fn close<S: FrameSink>(
    slices: &mut PicturesSoFar,
    decoder: &mut Option<Decoder>,
    sink: &mut S,
) -> Result<(), Stop>
    requires room { HasRoom S.failures sink.old }
    requires pictures { slices.old.pictures ≤ 2 ^ 42 }
    requires kept { KeepsSomeFrames false slices.old decoder.old }
    ensures closes { (depth : Depth) (frames : Family) (before : History) → KeepsSlices before false slices.old →
        WhereMade depth (KeepsFrames frames (goes_on before) false (runs_of before)) decoder.old →
        EndsFrames depth (frame_span S.took S.failures frames sink.old sink.new) (closing (goes_on before) true (runs_of before))
        (outcome_of (close_steps depth before)) decoder.new result }
    ensures ended { (before : History) → KeepsSlices before false slices.old → OnOk result (KeepsSlices before true slices.new) }
    ensures others { slices.new ≡ record slices.old { held = slices.new.held } }
    ensures format { format_in decoder.new ≡ format_in decoder.old }
    ensures no_memory { IsErrOf result Stop.Memory → ⊥ }
    ensures kept { OnOk result (IsQuiet S.failures sink.old sink.new) }
{
    end_data(slices, decoder)?;
    end(slices)?;
    end_frame(slices, decoder, sink)
}

/// That end, where the picture ends here. Err: as that of `close`.
pub fn close_if<S: FrameSink>(
    ends: bool,
    slices: &mut PicturesSoFar,
    decoder: &mut Option<Decoder>,
    sink: &mut S,
) -> Result<(), Stop>
    requires room { HasRoom S.failures sink.old }
    requires pictures { slices.old.pictures ≤ 2 ^ 42 }
    requires kept { KeepsSomeFrames false slices.old decoder.old }
    ensures closes { (depth : Depth) (frames : Family) (before : History) → KeepsSlices before false slices.old →
        WhereMade depth (KeepsFrames frames (goes_on before) false (runs_of before)) decoder.old →
        EndsFrames depth (frame_span S.took S.failures frames sink.old sink.new) (closing (goes_on before) ends (runs_of before))
        (outcome_of (close_if ends depth before)) decoder.new result }
    ensures ended { (before : History) → KeepsSlices before false slices.old → OnOk result (KeepsSlices before ends slices.new) }
    ensures others { slices.new ≡ record slices.old { held = slices.new.held } }
    ensures format { format_in decoder.new ≡ format_in decoder.old }
    ensures no_memory { IsErrOf result Stop.Memory → ⊥ }
    ensures kept { OnOk result (IsQuiet S.failures sink.old sink.new) }
{
    if ends {
        close(slices, decoder, sink)
    } else {
        Ok(())
    }
}
