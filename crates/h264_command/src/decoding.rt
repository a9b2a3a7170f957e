//! The frames of a stream, as bare samples or as YUV4MPEG2.
#![tactic(auto)]

ghost use Rattle.std.specs.Prelude.{◌≡◌, ◌-◌, ◌<◌, ◌^◌, List, true, false, None, IsErrOf, IsSome, IfSome, IfNone};
ghost use Rattle.h264_base.specs.declared.stop.Stop.TheVariants.{Read};
ghost use Rattle.h264_report.specs.Written.{OfBytes};
ghost use Rattle.h264_verify.specs.Units.{terms_of};
ghost use Rattle.h264_command.specs.Commands.{output_of};
ghost use Rattle.h264_command.specs.Files.{left_of, HasReadAll, IsUnread, TellsUnread};
ghost use Rattle.h264_command.specs.More.{IsAnswerOf};
ghost use Rattle.h264_command.specs.Surveys.{IsSurveyed};
ghost use Rattle.h264_command.specs.Texts.{IsDecoded, TakesText};
ghost use Rattle.h264_words.specs.Words.{mode_of};

use crate::files::OpenFile;
use crate::job::{Found, Job, Watch, found_with, judge};
use h264_lines::head::Head;
use h264_lines::{Device, Pen, Sheet, Y4mSink, YuvSink};
use h264_pages::pages::Answer;
use h264_pages::survey::{Meter, Survey, Surveyed};
use std::io;
use std::marker::Brand;

/// Judges the open file, and writes the samples of its frames through a pen. The survey is kept apart from the pen: a result that owns memory would hide
/// what became of the writer that the pen lends.
fn decode_samples<'a, K: Sheet, F: io::Read + Drop, W: Device, M: Meter + Drop>(
    job: &Job<'_>,
    file: &mut OpenFile<F>,
    pen: Pen<'a, W>,
    watch: Watch<M>,
    kept: &mut Option<Survey>,
) -> (Pen<'a, W>, Answer)
    requires source { file.old.failures < 2 ^ 64 - 1 }
    requires name { pen.out.ghost_name ≡ K.name }
    requires start { W.contents pen.out.now ≡ K.start }
    requires was_failed { W.has_failed pen.out.now ≡ K.was_failed }
    ensures same_reference { result.0.out.ghost_name ≡ K.name }
    ensures answer { IsAnswerOf job.now.task job.now.options.target (left_of F.remaining file.old.reader) result.1 }
    ensures read { IsErrOf result.1 Read → IsUnread file.old.failures file.old.reads file.new.failures file.new.reads }
    ensures read_told { TellsUnread file.old.failures file.new.failures result.1 }
    ensures kept { IsSome kept.new }
    ensures surveyed { IfSome kept.new (λ survey. IsSurveyed job.now (left_of F.remaining file.old.reader) result.1 survey) }
    ensures text { OfBytes (left_of F.remaining file.old.reader) (λ bytes. TakesText
        (IsDecoded false (terms_of (mode_of job.now.task) job.now.options.target) bytes result.1) K.start
        (output_of W.contents W.has_failed W.holds_back result.0.out.now)) }
{
    let sink: YuvSink<'_, W, K> = YuvSink::new(pen);
    let (surveyed, answer) = judge(job, file, sink, watch);
    let Surveyed { sink, survey, .. } = surveyed;
    *kept = Some(survey);
    (sink.into_pen(), answer)
}

/// How YUV4MPEG2 ended.
#[derive(Clone, Copy)]
struct Ended {
    answer: Answer,
    /// The headers of the first frame and of one of another size.
    change: Option<(Head, Head)>,
}

/// Judges the open file, and writes its frames as YUV4MPEG2 through a pen.
fn decode_y4m<'a, K: Sheet, F: io::Read + Drop, W: Device, M: Meter + Drop>(
    job: &Job<'_>,
    file: &mut OpenFile<F>,
    pen: Pen<'a, W>,
    watch: Watch<M>,
    kept: &mut Option<Survey>,
) -> (Pen<'a, W>, Ended)
    requires source { file.old.failures < 2 ^ 64 - 1 }
    requires name { pen.out.ghost_name ≡ K.name }
    requires start { W.contents pen.out.now ≡ K.start }
    requires was_failed { W.has_failed pen.out.now ≡ K.was_failed }
    ensures same_reference { result.0.out.ghost_name ≡ K.name }
    ensures answer { IsAnswerOf job.now.task job.now.options.target (left_of F.remaining file.old.reader) result.1.answer }
    ensures read { IsErrOf result.1.answer Read → IsUnread file.old.failures file.old.reads file.new.failures file.new.reads }
    ensures read_told { TellsUnread file.old.failures file.new.failures result.1.answer }
    ensures kept { IsSome kept.new }
    ensures surveyed { IfSome kept.new (λ survey. IsSurveyed job.now (left_of F.remaining file.old.reader) result.1.answer survey) }
    ensures text { OfBytes (left_of F.remaining file.old.reader) (λ bytes. TakesText
        (IsDecoded true (terms_of (mode_of job.now.task) job.now.options.target) bytes result.1.answer) K.start
        (output_of W.contents W.has_failed W.holds_back result.0.out.now)) }
{
    let sink: Y4mSink<'_, W, K> = Y4mSink::new(job.alloc, pen);
    let (surveyed, answer) = judge(job, file, sink, watch);
    let Surveyed { sink, survey, .. } = surveyed;
    *kept = Some(survey);
    let ended = Ended {
        answer,
        change: sink.changed_size(),
    };
    (sink.into_pen(), ended)
}

/// Judges the open file, and writes the samples of its frames.
fn decode_bare<F: io::Read + Drop, W: Device, M: Meter + Drop>(
    job: &Job<'_>,
    file: &mut OpenFile<F>,
    out: &mut W,
    watch: Watch<M>,
) -> Found
    requires { file.old.failures < 2 ^ 64 - 1 }
    ensures answer { IsAnswerOf job.now.task job.now.options.target (left_of F.remaining file.old.reader) result.answer }
    ensures read { IsErrOf result.answer Read → IsUnread file.old.failures file.old.reads file.new.failures file.new.reads }
    ensures read_told { TellsUnread file.old.failures file.new.failures result.answer }
    ensures further { result.strict ≡ None }
    ensures surveyed { IsSurveyed job.now (left_of F.remaining file.old.reader) result.answer result.survey }
    ensures text { OfBytes (left_of F.remaining file.old.reader) (λ bytes. TakesText
        (IsDecoded false (terms_of (mode_of job.now.task) job.now.options.target) bytes result.answer) (W.contents out.old)
        (output_of W.contents W.has_failed W.holds_back out.new)) }
{
    let mut kept = None;
    let pen = Pen { out };
    let (_, answer) = decode_samples::<Brand, F, W, M>(job, file, pen, watch, &mut kept);
    found_with(job, file.seen, answer, kept)
}

/// Judges the open file, and writes its frames as YUV4MPEG2.
fn decode_framed<F: io::Read + Drop, W: Device, M: Meter + Drop>(
    job: &Job<'_>,
    file: &mut OpenFile<F>,
    out: &mut W,
    watch: Watch<M>,
) -> Found
    requires { file.old.failures < 2 ^ 64 - 1 }
    ensures answer { IsAnswerOf job.now.task job.now.options.target (left_of F.remaining file.old.reader) result.answer }
    ensures read { IsErrOf result.answer Read → IsUnread file.old.failures file.old.reads file.new.failures file.new.reads }
    ensures read_told { TellsUnread file.old.failures file.new.failures result.answer }
    ensures further { result.strict ≡ None }
    ensures surveyed { IsSurveyed job.now (left_of F.remaining file.old.reader) result.answer result.survey }
    ensures text { OfBytes (left_of F.remaining file.old.reader) (λ bytes. TakesText
        (IsDecoded true (terms_of (mode_of job.now.task) job.now.options.target) bytes result.answer) (W.contents out.old)
        (output_of W.contents W.has_failed W.holds_back out.new)) }
{
    let mut kept = None;
    let pen = Pen { out };
    let (_, ended) = decode_y4m::<Brand, F, W, M>(job, file, pen, watch, &mut kept);
    let found = found_with(job, file.seen, ended.answer, kept);
    Found {
        change: ended.change,
        ..found
    }
}

/// Judges the open file, and writes its frames. None where memory is wanting for the survey; then nothing is written.
pub fn decode_file<F: io::Read + Drop, W: Device, M: Meter + Drop>(
    job: &Job<'_>,
    file: &mut OpenFile<F>,
    out: &mut W,
    meter: M,
) -> Option<Found>
    requires { file.old.failures < 2 ^ 64 - 1 }
    ensures answer { IfSome result (λ found. IsAnswerOf job.now.task job.now.options.target (left_of F.remaining file.old.reader) found.answer) }
    ensures read { IfSome result (λ found. IsErrOf found.answer Read → IsUnread file.old.failures file.old.reads file.new.failures file.new.reads) }
    ensures read_told { IfSome result (λ found. TellsUnread file.old.failures file.new.failures found.answer) }
    ensures unread { IfNone result (HasReadAll file.old.failures file.new.failures) }
    ensures further { IfSome result (λ found. found.strict ≡ None) }
    ensures surveyed { IfSome result (λ found. IsSurveyed job.now (left_of F.remaining file.old.reader) found.answer found.survey) }
    ensures text { IfSome result (λ found. OfBytes (left_of F.remaining file.old.reader) (λ bytes. TakesText
        (IsDecoded job.now.options.y4m (terms_of (mode_of job.now.task) job.now.options.target) bytes found.answer) (W.contents out.old)
        (output_of W.contents W.has_failed W.holds_back out.new))) }
    ensures untouched { IfNone result (out.new ≡ out.old) }
{
    let Ok(survey) = Survey::new(job.alloc) else {
        return None;
    };
    let watch = Watch { survey, meter };
    if job.options.y4m {
        return Some(decode_framed(job, file, out, watch));
    }
    Some(decode_bare(job, file, out, watch))
}
