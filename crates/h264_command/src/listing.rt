//! A line, or an object, for each call of a task's listing.
#![tactic(auto)]

ghost use Rattle.std.specs.Prelude.{◌≡◌, ◌-◌, ◌<◌, ◌^◌, List, true, false, None, IsErrOf, IfOk, IsSome, IfSome, IfNone, string_bytes};
ghost use Rattle.h264_base.specs.declared.stop.Stop.TheVariants.{Read};
ghost use Rattle.h264_lines.specs.Objects.{opening_of};
ghost use Rattle.h264_lines.specs.Told.{lines_of};
ghost use Rattle.h264_report.specs.Written.{OfBytes};
ghost use Rattle.h264_verify.specs.Units.{terms_of};
ghost use Rattle.h264_command.specs.Commands.{output_of};
ghost use Rattle.h264_command.specs.Files.{left_of, HasReadAll, IsUnread, TellsUnread};
ghost use Rattle.h264_command.specs.More.{IsAnswerOf};
ghost use Rattle.h264_command.specs.Surveys.{IsSurveyed};
ghost use Rattle.h264_command.specs.Texts.{IsListed, IsMade, TakesText, chooses, head_of, listing_of, opening_in};
ghost use Rattle.h264_words.specs.Words.{mode_of};

use crate::files::OpenFile;
use crate::job::{Found, Job, Watch, found_with, judge, judge_chosen};
use h264_lines::choice::Choice;
use h264_lines::{Device, Form, LineSink, Listing, Pen, Sheet};
use h264_pages::escaped;
use h264_pages::pages::Answer;
use h264_pages::survey::{Meter, Narrowed, Survey, Surveyed};
use h264_words::command_line::Task;
use std::alloc::{AllocError, Global};
use std::io;
use std::marker::Brand;

/// Which calls have a line in a task: none where quiet is asked.
fn listing_of(task: Task, quiet: bool) -> Listing
    ensures { result ≡ listing_of task quiet }
{
    if quiet {
        return Listing::Nothing;
    }
    match task {
        Task::Units => Listing::Units,
        Task::Headers => Listing::Slices,
        Task::Frames => Listing::Frames,
        Task::Elements => Listing::Elements,
        Task::Check => Listing::Nothing,
        Task::Decode => Listing::Nothing,
        Task::Info => Listing::Nothing,
        Task::Report => Listing::Nothing,
        Task::Explain => Listing::Nothing,
    }
}

/// Whether one picture or one macroblock is chosen.
fn chooses(choice: Choice) -> bool
    ensures { result ≡ chooses choice }
{
    choice.picture.is_some() || choice.macroblock.is_some()
}

/// What each object of a file begins with. AllocError: there is no memory for it.
fn object_head(alloc: Global, file: &str) -> Result<String, AllocError>
    ensures { IfOk result (λ head. string_bytes head ≡ head_of file.now) }
{
    let name = escaped(alloc, file)?;
    let name = name.as_str();
    format!(in alloc; "{{\"file\":\"{name}\"")
}

/// Judges the open file, and writes a line, or an object, for each call of the task's listing through a pen. The survey is kept apart from the pen: a result
/// that owns memory would hide what became of the writer that the pen lends.
fn list_by_pen<'a, 'b, K: Sheet, F: io::Read + Drop, W: Device, M: Meter + Drop>(
    job: &Job<'_>,
    file: &mut OpenFile<F>,
    form: Form<'b>,
    pen: Pen<'a, W>,
    watch: Watch<M>,
    kept: &mut Option<Survey>,
) -> (Pen<'a, W>, Answer)
    requires source { file.old.failures < 2 ^ 64 - 1 }
    requires name { pen.out.ghost_name ≡ K.name }
    requires start { W.contents pen.out.now ≡ K.start }
    requires was_failed { W.has_failed pen.out.now ≡ K.was_failed }
    requires opening { opening_of form ≡ K.opening }
    requires listing { listing_of job.now.task job.now.options.quiet ≡ K.listing }
    ensures same_reference { result.0.out.ghost_name ≡ K.name }
    ensures answer { IsAnswerOf job.now.task job.now.options.target (left_of F.remaining file.old.reader) result.1 }
    ensures read { IsErrOf result.1 Read → IsUnread file.old.failures file.old.reads file.new.failures file.new.reads }
    ensures read_told { TellsUnread file.old.failures file.new.failures result.1 }
    ensures kept { IsSome kept.new }
    ensures surveyed { IfSome kept.new (λ survey. IsSurveyed job.now (left_of F.remaining file.old.reader) result.1 survey) }
    ensures text { OfBytes (left_of F.remaining file.old.reader) (λ bytes. TakesText (IsMade (lines_of K.opening K.listing 0)
        (terms_of (mode_of job.now.task) job.now.options.target) bytes result.1) K.start
        (output_of W.contents W.has_failed W.holds_back result.0.out.now)) }
{
    let listing = listing_of(job.task, job.options.quiet);
    let sink: LineSink<'_, '_, W, K> = LineSink::new(job.alloc, listing, form, pen);
    let (surveyed, answer) = judge(job, file, sink, watch);
    let Surveyed { sink, survey, .. } = surveyed;
    *kept = Some(survey);
    (sink.into_pen(), answer)
}

/// Judges the open file with a line, or an object, for each call of the task's listing.
fn list_all<F: io::Read + Drop, W: Device, M: Meter + Drop>(
    job: &Job<'_>,
    file: &mut OpenFile<F>,
    out: &mut W,
    form: Form<'_>,
    watch: Watch<M>,
) -> Found
    requires { file.old.failures < 2 ^ 64 - 1 }
    ensures answer { IsAnswerOf job.now.task job.now.options.target (left_of F.remaining file.old.reader) result.answer }
    ensures read { IsErrOf result.answer Read → IsUnread file.old.failures file.old.reads file.new.failures file.new.reads }
    ensures read_told { TellsUnread file.old.failures file.new.failures result.answer }
    ensures further { result.strict ≡ None }
    ensures surveyed { IsSurveyed job.now (left_of F.remaining file.old.reader) result.answer result.survey }
    ensures text { OfBytes (left_of F.remaining file.old.reader) (λ bytes. TakesText (IsMade
        (lines_of (opening_of form.entry) (listing_of job.now.task job.now.options.quiet) 0) (terms_of (mode_of job.now.task) job.now.options.target) bytes
        result.answer) (W.contents out.old) (output_of W.contents W.has_failed W.holds_back out.new)) }
{
    let mut kept = None;
    let pen = Pen { out };
    let (_, answer) = list_by_pen::<Brand, F, W, M>(job, file, form, pen, watch, &mut kept);
    found_with(job, file.seen, answer, kept)
}

/// Judges the open file, and writes a line, or an object, for each element that is chosen through a pen.
fn list_chosen_by_pen<'a, 'b, K: Sheet, F: io::Read + Drop, W: Device, M: Meter + Drop>(
    job: &Job<'_>,
    file: &mut OpenFile<F>,
    form: Form<'b>,
    pen: Pen<'a, W>,
    watch: Watch<M>,
    kept: &mut Option<Survey>,
) -> (Pen<'a, W>, Answer)
    requires source { file.old.failures < 2 ^ 64 - 1 }
    requires name { pen.out.ghost_name ≡ K.name }
    requires start { W.contents pen.out.now ≡ K.start }
    requires was_failed { W.has_failed pen.out.now ≡ K.was_failed }
    requires opening { opening_of form ≡ K.opening }
    requires listing { listing_of job.now.task job.now.options.quiet ≡ K.listing }
    requires choice { job.now.options.choice ≡ K.choice }
    requires chosen { chooses job.now.options.choice ≡ true }
    ensures same_reference { result.0.out.ghost_name ≡ K.name }
    ensures answer { IsAnswerOf job.now.task job.now.options.target (left_of F.remaining file.old.reader) result.1 }
    ensures read { IsErrOf result.1 Read → IsUnread file.old.failures file.old.reads file.new.failures file.new.reads }
    ensures read_told { TellsUnread file.old.failures file.new.failures result.1 }
    ensures kept { IsSome kept.new }
    ensures surveyed { IfSome kept.new (λ survey. IsSurveyed job.now (left_of F.remaining file.old.reader) result.1 survey) }
    ensures text { OfBytes (left_of F.remaining file.old.reader) (λ bytes. TakesText (IsListed K.choice
        (lines_of K.opening K.listing 0) (terms_of (mode_of job.now.task) job.now.options.target) bytes result.1) K.start
        (output_of W.contents W.has_failed W.holds_back result.0.out.now)) }
{
    let listing = listing_of(job.task, job.options.quiet);
    let sink: LineSink<'_, '_, W, K> = LineSink::new(job.alloc, listing, form, pen);
    let (narrowed, answer) = judge_chosen::<LineSink<'_, '_, W, K>, K, F, M>(
        job, file, sink, watch,
    );
    let Narrowed { sink, survey, .. } = narrowed;
    *kept = Some(survey);
    (sink.into_pen(), answer)
}

/// Judges the open file with a line, or an object, for each element that is chosen.
fn list_chosen<F: io::Read + Drop, W: Device, M: Meter + Drop>(
    job: &Job<'_>,
    file: &mut OpenFile<F>,
    out: &mut W,
    form: Form<'_>,
    watch: Watch<M>,
) -> Found
    requires source { file.old.failures < 2 ^ 64 - 1 }
    requires chosen { chooses job.now.options.choice ≡ true }
    ensures answer { IsAnswerOf job.now.task job.now.options.target (left_of F.remaining file.old.reader) result.answer }
    ensures read { IsErrOf result.answer Read → IsUnread file.old.failures file.old.reads file.new.failures file.new.reads }
    ensures read_told { TellsUnread file.old.failures file.new.failures result.answer }
    ensures further { result.strict ≡ None }
    ensures surveyed { IsSurveyed job.now (left_of F.remaining file.old.reader) result.answer result.survey }
    ensures text { OfBytes (left_of F.remaining file.old.reader) (λ bytes. TakesText (IsListed
        job.now.options.choice (lines_of (opening_of form.entry) (listing_of job.now.task job.now.options.quiet) 0)
        (terms_of (mode_of job.now.task) job.now.options.target) bytes
        result.answer) (W.contents out.old) (output_of W.contents W.has_failed W.holds_back out.new)) }
{
    let mut kept = None;
    let pen = Pen { out };
    let (_, answer) = list_chosen_by_pen::<Brand, F, W, M>(job, file, form, pen, watch, &mut kept);
    found_with(job, file.seen, answer, kept)
}

/// Judges the open file with what the task lists, each line or object with this form: all of it, or what is chosen.
fn list_in_form<F: io::Read + Drop, W: Device, M: Meter + Drop>(
    job: &Job<'_>,
    file: &mut OpenFile<F>,
    out: &mut W,
    form: Form<'_>,
    meter: M,
) -> Option<Found>
    requires { file.old.failures < 2 ^ 64 - 1 }
    ensures answer { IfSome result (λ found. IsAnswerOf job.now.task job.now.options.target (left_of F.remaining file.old.reader) found.answer) }
    ensures read { IfSome result (λ found. IsErrOf found.answer Read → IsUnread file.old.failures file.old.reads file.new.failures file.new.reads) }
    ensures read_told { IfSome result (λ found. TellsUnread file.old.failures file.new.failures found.answer) }
    ensures unread { IfNone result (HasReadAll file.old.failures file.new.failures) }
    ensures further { IfSome result (λ found. found.strict ≡ None) }
    ensures surveyed { IfSome result (λ found. IsSurveyed job.now (left_of F.remaining file.old.reader) found.answer found.survey) }
    ensures text { IfSome result (λ found. OfBytes (left_of F.remaining file.old.reader) (λ bytes. TakesText
        (IsListed job.now.options.choice (lines_of (opening_of form.entry) (listing_of job.now.task job.now.options.quiet) 0)
        (terms_of (mode_of job.now.task) job.now.options.target) bytes found.answer) (W.contents out.old)
        (output_of W.contents W.has_failed W.holds_back out.new))) }
    ensures untouched { IfNone result (out.new ≡ out.old) }
{
    let Ok(survey) = Survey::new(job.alloc) else {
        return None;
    };
    let watch = Watch { survey, meter };
    if chooses(job.options.choice) {
        return Some(list_chosen(job, file, out, form, watch));
    }
    Some(list_all(job, file, out, form, watch))
}

/// Judges the open file with what the task lists, in lines or in objects. None where memory is wanting beside the judgement; then nothing is written.
pub fn list_file<F: io::Read + Drop, W: Device, M: Meter + Drop>(
    job: &Job<'_>,
    file: &mut OpenFile<F>,
    out: &mut W,
    meter: M,
) -> Option<Found>
    requires { file.old.failures < 2 ^ 64 - 1 }
    ensures answer { IfSome result (λ found. IsAnswerOf job.now.task job.now.options.target (left_of F.remaining file.old.reader) found.answer) }
    ensures read { IfSome result (λ found. IsErrOf found.answer Read → IsUnread file.old.failures file.old.reads file.new.failures file.new.reads) }
    ensures read_told { IfSome result (λ found. TellsUnread file.old.failures file.new.failures found.answer) }
    ensures unread { IfNone result (HasReadAll file.old.failures file.new.failures) }
    ensures further { IfSome result (λ found. found.strict ≡ None) }
    ensures surveyed { IfSome result (λ found. IsSurveyed job.now (left_of F.remaining file.old.reader) found.answer found.survey) }
    ensures text { IfSome result (λ found. OfBytes (left_of F.remaining file.old.reader) (λ bytes. TakesText
        (IsListed job.now.options.choice
        (lines_of (opening_in job.now.options.json job.now.file.now job.now.prefix.now) (listing_of job.now.task job.now.options.quiet) 0)
        (terms_of (mode_of job.now.task) job.now.options.target) bytes found.answer) (W.contents out.old)
        (output_of W.contents W.has_failed W.holds_back out.new))) }
    ensures untouched { IfNone result (out.new ≡ out.old) }
{
    if !job.options.json {
        return list_in_form(job, file, out, Form::Lines(job.prefix), meter);
    }
    match object_head(job.alloc, job.file) {
        Ok(head) => list_in_form(job, file, out, Form::Objects(head.as_str()), meter),
        Err(_) => None,
    }
}
