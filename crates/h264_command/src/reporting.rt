//! The HTML page on a stream.
#![tactic(auto)]

ghost use Rattle.std.specs.Prelude.{◌≡◌, ◌-◌, ◌<◌, ◌^◌, ℕ, List, [], None, IsErrOf, IfSome, IfNone};
ghost use Rattle.h264_base.specs.Call.{HasRoom};
ghost use Rattle.h264_base.specs.declared.stop.Stop.TheVariants.{Read};
ghost use Rattle.h264_lines.specs.Objects.{bare};
ghost use Rattle.h264_lines.specs.declared.listing.Listing.TheVariants as listings;
ghost use Rattle.h264_verify.specs.Units.{terms_of};
ghost use Rattle.h264_command.specs.Commands.{output_of};
ghost use Rattle.h264_command.specs.Files.{left_of, HasReadAll, IsUnread, TellsUnread};
ghost use Rattle.h264_command.specs.Further.{IsFound};
ghost use Rattle.h264_command.specs.More.{IsAnswerOf};
ghost use Rattle.h264_command.specs.Surveys.{IsSurveyed};
ghost use Rattle.h264_command.specs.Texts.{TakesText};
ghost use Rattle.h264_words.specs.Words.{mode_of};

use crate::files::OpenFile;
use crate::job::{Found, Job, JudgedFurther, Watch, judge, judge_further};
use crate::strictly::{FurtherRules, StrictForm, put_strict};
use h264_base::{Mode, Stop};
use h264_lines::{
    Device, Form, LineSink, Listing, Pen, Sheet, WriteDevice, put_text, verdict_line,
};
use h264_pages::PageSink;
use h264_pages::pages::{Album, Answer, Page, Sheets, guide_on, put_explanation, put_page};
use h264_pages::survey::{Meter, Survey, Surveyed};
use h264_verify::FrameSink;
use std::io;
use std::marker::Brand;

/// What is kept of the frames for a page.
#[derive(Clone, Copy)]
struct Kept<'a> {
    album: &'a Album,
    /// The lines of the frames.
    digests: &'a str,
}

/// Adds the page of a file that was judged.
fn put_report(job: &Job<'_>, page: &mut Page, found: &Found, kept: &Kept<'_>) {
    let mut explanation = Page::new(job.alloc);
    put_explanation(
        job.alloc,
        &mut explanation,
        found.answer,
        &found.survey,
        found.finding(),
        guide_on(found.answer, job.file),
    );
    let Ok(verdict) = verdict_line(job.alloc, Mode::Full, found.answer) else {
        page.give_up();
        return;
    };
    let mut further = Page::new(job.alloc);
    if let Some(strict) = &found.strict {
        put_strict(&mut further, StrictForm::Lines, strict);
    }
    if further.is_short() || explanation.is_short() {
        page.give_up();
    }
    if kept.album.is_short() || found.survey.is_short() {
        page.give_up();
    }
    let sheets = Sheets {
        file: job.file,
        answer: found.answer,
        finding: found.finding(),
        verdict: verdict.as_str(),
        explanation: explanation.as_str(),
        further: further.as_str(),
        digests: kept.digests,
    };
    put_page(job.alloc, page, &found.survey, kept.album, &sheets);
}

/// What a judgement for a page left.
#[derive(Drop)]
struct Paged<S: Drop> {
    sink: S,
    survey: Survey,
    answer: Answer,
    strict: Option<FurtherRules>,
}

/// Judges the open file with a sink, and by the further rules where they are asked for.
fn judge_page<S: FrameSink + Drop, F: io::Read + Drop, M: Meter + Drop>(
    job: &Job<'_>,
    file: &mut OpenFile<F>,
    sink: S,
    watch: Watch<M>,
) -> Paged<S>
    requires none { S.took sink [] }
    requires sink { HasRoom S.failures sink }
    requires source { file.old.failures < 2 ^ 64 - 1 }
    ensures answer { IsAnswerOf job.now.task job.now.options.target (left_of F.remaining file.old.reader) result.answer }
    ensures read { IsErrOf result.answer Read → IsUnread file.old.failures file.old.reads file.new.failures file.new.reads }
    ensures read_told { TellsUnread file.old.failures file.new.failures result.answer }
    ensures further { IsFound job.now.options.strict (terms_of (mode_of job.now.task) job.now.options.target)
        (left_of F.remaining file.old.reader) result.answer result.strict }
    ensures surveyed { IsSurveyed job.now (left_of F.remaining file.old.reader) result.answer result.survey }
{
    if job.options.strict {
        let judged = judge_further(job, file, sink, watch, true);
        let JudgedFurther {
            sink,
            survey,
            answer,
            further,
            ..
        } = judged;
        return Paged {
            sink,
            survey,
            answer,
            strict: Some(further),
        };
    }
    let (surveyed, answer) = judge(job, file, sink, watch);
    let Surveyed { sink, survey, .. } = surveyed;
    Paged {
        sink,
        survey,
        answer,
        strict: None,
    }
}

/// Judges the open file, keeps pictures of its frames, and writes their lines through a pen. None where memory was wanting for a line, or the device failed;
/// then no read failed.
fn judge_pictures_by_pen<'a, K: Sheet, F: io::Read + Drop, W: Device, M: Meter + Drop>(
    job: &Job<'_>,
    file: &mut OpenFile<F>,
    pen: Pen<'a, W>,
    watch: Watch<M>,
) -> (Pen<'a, W>, Option<(Found, Album)>)
    requires source { file.old.failures < 2 ^ 64 - 1 }
    requires name { pen.out.ghost_name ≡ K.name }
    requires start { W.contents pen.out.now ≡ K.start }
    requires was_failed { W.has_failed pen.out.now ≡ K.was_failed }
    requires lines { K.opening ≡ bare }
    requires listing { K.listing ≡ listings.Frames }
    ensures answer { IfSome result.1 (λ kept. IsAnswerOf job.now.task job.now.options.target (left_of F.remaining file.old.reader) kept.0.answer) }
    ensures read { IfSome result.1 (λ kept. IsErrOf kept.0.answer Read → IsUnread file.old.failures file.old.reads file.new.failures file.new.reads) }
    ensures read_told { IfSome result.1 (λ kept. TellsUnread file.old.failures file.new.failures kept.0.answer) }
    ensures unread { IfNone result.1 (HasReadAll file.old.failures file.new.failures) }
    ensures further { IfSome result.1 (λ kept. IsFound job.now.options.strict (terms_of (mode_of job.now.task) job.now.options.target)
        (left_of F.remaining file.old.reader) kept.0.answer kept.0.strict) }
    ensures surveyed { IfSome result.1 (λ kept. IsSurveyed job.now (left_of F.remaining file.old.reader) kept.0.answer kept.0.survey) }
{
    let digests: LineSink<'_, '_, W, K> = LineSink::new(
        job.alloc,
        Listing::Frames,
        Form::Lines(""),
        pen,
    );
    let sink = PageSink {
        sink: digests,
        album: Album::new(job.alloc),
    };
    let Paged {
        sink,
        survey,
        answer,
        strict,
    } = judge_page(job, file, sink, watch);
    let PageSink { sink, album } = sink;
    let is_whole = !sink.broke_off() && sink.failures == 0;
    let is_unread = matches!(answer, Err(Stop::Read));
    let found = Found {
        answer,
        strict,
        survey,
        seen: file.seen,
        before: String::new(job.alloc),
        change: None,
    };
    let kept = if is_whole || is_unread {
        Some((found, album))
    } else {
        None
    };
    (sink.into_pen(), kept)
}

/// Judges the open file, keeps pictures of its frames, and writes their lines. None where memory was wanting for a line, or the device failed.
fn judge_pictures<F: io::Read + Drop, W: Device, M: Meter + Drop>(
    job: &Job<'_>,
    file: &mut OpenFile<F>,
    lines: &mut W,
    watch: Watch<M>,
) -> Option<(Found, Album)>
    requires source { file.old.failures < 2 ^ 64 - 1 }
    ensures answer { IfSome result (λ kept. IsAnswerOf job.now.task job.now.options.target (left_of F.remaining file.old.reader) kept.0.answer) }
    ensures read { IfSome result (λ kept. IsErrOf kept.0.answer Read → IsUnread file.old.failures file.old.reads file.new.failures file.new.reads) }
    ensures read_told { IfSome result (λ kept. TellsUnread file.old.failures file.new.failures kept.0.answer) }
    ensures unread { IfNone result (HasReadAll file.old.failures file.new.failures) }
    ensures further { IfSome result (λ kept. IsFound job.now.options.strict (terms_of (mode_of job.now.task) job.now.options.target)
        (left_of F.remaining file.old.reader) kept.0.answer kept.0.strict) }
    ensures surveyed { IfSome result (λ kept. IsSurveyed job.now (left_of F.remaining file.old.reader) kept.0.answer kept.0.survey) }
{
    let pen = Pen { out: lines };
    let (_, kept) = judge_pictures_by_pen::<Brand, F, W, M>(job, file, pen, watch);
    kept
}

/// The page of a file that was judged. None where there is no memory for it.
fn report_page(
    job: &Job<'_>,
    found: &Found,
    album: &Album,
    lines: &WriteDevice<Vec<u8>>,
) -> Option<Page> {
    let digests = str::from_utf8(lines.writer.as_slice()).ok()?;
    let mut page = Page::new(job.alloc);
    put_report(job, &mut page, found, &Kept { album, digests });
    if page.is_short() { None } else { Some(page) }
}

/// Judges the open file, and writes a page on it. None where memory is wanting beside the judgement; then nothing is written, and no read failed.
pub fn report_file<F: io::Read + Drop, W: Device, M: Meter + Drop>(
    job: &Job<'_>,
    file: &mut OpenFile<F>,
    out: &mut W,
    meter: M,
) -> Option<Found>
    requires { file.old.failures < 2 ^ 64 - 1 }
    ensures answer { IfSome result (λ found. IsAnswerOf job.now.task job.now.options.target (left_of F.remaining file.old.reader) found.answer) }
    ensures read { IfSome result (λ found. IsErrOf found.answer Read → IsUnread file.old.failures file.old.reads file.new.failures file.new.reads) }
    ensures read_told { IfSome result (λ found. TellsUnread file.old.failures file.new.failures found.answer) }
    ensures unread { IfNone result (HasReadAll file.old.failures file.new.failures) }
    ensures further { IfSome result (λ found. IsFound job.now.options.strict (terms_of (mode_of job.now.task) job.now.options.target)
        (left_of F.remaining file.old.reader) found.answer found.strict) }
    ensures surveyed { IfSome result (λ found. IsSurveyed job.now (left_of F.remaining file.old.reader) found.answer found.survey) }
    ensures text { IfSome result (λ found. TakesText (λ _. Unit {0}) (W.contents out.old) (output_of W.contents W.has_failed W.holds_back out.new)) }
    ensures untouched { IfNone result (out.new ≡ out.old) }
{
    let Ok(survey) = Survey::new(job.alloc) else {
        return None;
    };
    let mut lines = WriteDevice::new(Vec::new(job.alloc));
    let watch = Watch { survey, meter };
    let (found, album) = judge_pictures(job, file, &mut lines, watch)?;
    let Some(page) = report_page(job, &found, &album, &lines) else {
        return found.if_unread();
    };
    // Where this fails, the device tells so.
    let _ = put_text(out, page.as_str());
    Some(found)
}
