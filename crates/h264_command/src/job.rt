//! One file, judged as the options say.
#![tactic(auto)]

ghost use Rattle.std.specs.Prelude.{◌≡◌, ◌-◌, ◌<◌, ◌^◌, ◌||◌, not, Bool, List, [], true, false, None, Err, IsErrOf, IsSome, IfSome, IfNone, string_bytes};
ghost use Rattle.h264_base.specs.Call.{Call, HasRoom};
ghost use Rattle.h264_base.specs.declared.stop.Stop.TheVariants.{Read, Write};
ghost use Rattle.h264_lines.specs.Chosen.{TookChosen, pending_call};
ghost use Rattle.h264_pages.specs.Surveyed.{IsTold, nothing_told};
ghost use Rattle.h264_report.specs.Written.{OfBytes, is_no, trail_text};
ghost use Rattle.h264_verify.specs.Account.{Account, calls_in};
ghost use Rattle.h264_verify.specs.Units.{terms_of};
ghost use Rattle.h264_command.specs.Endings.{IsFindingOf};
ghost use Rattle.h264_command.specs.Files.{left_of, HasReadAll, IsUnread, TellsUnread};
ghost use Rattle.h264_command.specs.Further.{AreJudged, BreakOne, IsFound};
ghost use Rattle.h264_command.specs.More.{done_status, IsAnswerOf};
ghost use Rattle.h264_command.specs.Surveys.{IsSurveyed};
ghost use Rattle.h264_words.specs.Options.{asks_for_survey};
ghost use Rattle.h264_words.specs.Words.{mode_of};

use crate::files::{OpenFile, OpenedFiles, Opener, Seen};
use crate::strictly::{FurtherRules, is_broken};
use h264_base::{Mode, Stop};
use h264_lines::head::Head;
use h264_lines::{Sheet, TrailSink};
use h264_pages::pages::{Answer, Finding, Page, put_info, put_info_object};
use h264_pages::survey::{Meter, Narrowed, NoMeter, Survey, Surveyed};
use h264_report::{Ending, NoSink, StrictJudgement, judge_strictly};
use h264_strict::StrictSink;
use h264_verify::{FrameSink, run};
use h264_words::command_line::Task;
use h264_words::options::Options;
use std::alloc::Global;
use std::io;

/// What is to be done with a file.
#[derive(Clone, Copy)]
pub struct Job<'a> {
    pub alloc: Global,
    pub task: Task,
    pub options: Options<'a>,
    /// The file's name, as the words give it.
    pub file: &'a str,
    /// What stands before each line of the answer: the file's name, where there are several.
    pub prefix: &'a str,
}

impl Job<'_> {
    /// Whether `check` tells the last elements before a no: in lines, unless an option leaves them out.
    pub fn tells_elements(&self) -> bool
        ensures { result ≡ not ((self.now.options.brief || self.now.options.quiet) || self.now.options.json) }
    {
        !(self.options.brief || self.options.quiet || self.options.json)
    }
}

/// How the judgement of a file ended.
#[derive(Clone, Copy)]
pub struct Done {
    pub ending: Ending,
    /// A further rule of `--strict` is broken.
    pub is_broken: bool,
}

/// The exit status of a stream that breaks a further rule of `--strict`, and has no worse answer.
const BROKEN: u8 = 1;

impl Done {
    /// The exit status: 0 yes, 1 no or a further rule broken, 2 outside, 3 memory, 4 a device failed.
    pub fn status(self) -> u8
        ensures { result ≡ done_status self }
    {
        let status = self.ending.status();
        if self.is_broken {
            status.max(BROKEN)
        } else {
            status
        }
    }
}

/// What was found of a file.
#[derive(Drop)]
pub struct Found {
    /// That of the judgement. Whether an output failed meanwhile shows at its device.
    pub answer: Answer,
    /// What the further rules found, where they are asked for.
    pub strict: Option<FurtherRules>,
    /// What was surveyed; nothing where no option asks for it.
    pub survey: Survey,
    pub seen: Seen,
    /// What stands before the last lines.
    pub before: String,
    /// The headers of the first frame and of one of another size, with which YUV4MPEG2 ends.
    pub change: Option<(Head, Head)>,
}

/// A survey of nothing, by which a judgement is surveyed, and whom it tells how far it has come.
#[derive(Drop)]
pub struct Watch<M: Meter + Drop> {
    pub survey: Survey,
    pub meter: M,
    ghost fresh: { IsTold survey nothing_told },
}

/// How far a task judges, and whether it makes frames.
pub fn mode_of(task: Task) -> Mode
    ensures { result ≡ mode_of task }
{
    match task {
        Task::Units => Mode::Units,
        Task::Headers => Mode::Headers,
        Task::Check => Mode::Verdict,
        Task::Frames => Mode::Full,
        Task::Decode => Mode::Full,
        Task::Elements => Mode::Verdict,
        Task::Info => Mode::Verdict,
        Task::Report => Mode::Full,
        Task::Explain => Mode::Verdict,
    }
}

impl Found {
    /// Whether a further rule is broken.
    pub fn is_broken(&self) -> bool
        ensures yes { result ≡ true → BreakOne self.now.strict }
        ensures no { result ≡ false → BreakOne self.now.strict → ⊥ }
    {
        match &self.strict {
            Some(further) => is_broken(further),
            None => false,
        }
    }

    /// Where the answer stands.
    pub fn finding(&self) -> Option<Finding>
        ensures { IsFindingOf self.now result }
    {
        Finding::of(self.answer, &self.survey, &self.seen.start, self.seen.ended)
    }

    /// What is told where memory was wanting beside the judgement: that a read failed, where one did. Else None.
    pub fn if_unread(self) -> Option<Found>
        ensures same { IfSome result (λ found. found ≡ self) }
        ensures read { IfNone result (IsErrOf self.answer Read → ⊥) }
        ensures only { IfSome result (λ _. IsErrOf self.answer Read) }
    {
        match self.answer {
            Err(Stop::Read) => Some(self),
            _ => None,
        }
    }
}

/// Judges the open file with a sink, and surveys its calls.
pub fn judge<S: FrameSink + Drop, F: io::Read + Drop, M: Meter + Drop>(
    job: &Job<'_>,
    file: &mut OpenFile<F>,
    sink: S,
    watch: Watch<M>,
) -> (Surveyed<S, M>, Answer)
    requires sink { HasRoom S.failures sink }
    requires source { file.old.failures < 2 ^ 64 - 1 }
    ensures answer { IsAnswerOf job.now.task job.now.options.target (left_of F.remaining file.old.reader) result.1 }
    ensures read { IsErrOf result.1 Read → IsUnread file.old.failures file.old.reads file.new.failures file.new.reads }
    ensures read_told { TellsUnread file.old.failures file.new.failures result.1 }
    ensures took { S.took sink [] → OfBytes (left_of F.remaining file.old.reader) (λ bytes.
        (a : Account (terms_of (mode_of job.now.task) job.now.options.target) bytes result.1) × S.took result.0.sink (calls_in a)) }
    ensures some { S.took sink [] → (calls : List Call) × S.took result.0.sink calls }
    ensures surveyed { S.took sink [] → IsSurveyed job.now (left_of F.remaining file.old.reader) result.1 result.0.survey }
    ensures ended { M.has_ended result.0.meter }
{
    let Watch { survey, meter } = watch;
    let mut surveyed = Surveyed {
        sink,
        survey,
        meter,
    };
    let (mode, target) = (mode_of(job.task), job.options.target);
    let answer = run(job.alloc, file, &mut surveyed, mode, target);
    tell_end(&mut surveyed);
    (surveyed, answer)
}

/// What was found of a file by a judgement that kept its survey.
pub fn found_with(job: &Job<'_>, seen: Seen, answer: Answer, kept: Option<Survey>) -> Found
    requires { IsSome kept }
    ensures answer { result.answer ≡ answer }
    ensures further { result.strict ≡ None }
    ensures survey { IfSome kept (λ survey. result.survey ≡ survey) }
{
    match kept {
        Some(survey) => Found {
            answer,
            strict: None,
            survey,
            seen,
            before: String::new(job.alloc),
            change: None,
        },
        None => unreachable!(),
    }
}

/// Tells the meter that a judgement has ended.
fn tell_end<S: FrameSink + Drop, M: Meter + Drop>(surveyed: &mut Surveyed<S, M>)
    ensures sink { surveyed.new.sink ≡ surveyed.old.sink }
    ensures survey { surveyed.new.survey ≡ surveyed.old.survey }
    ensures ended { M.has_ended surveyed.new.meter }
{
    let byte = match surveyed.survey.unit {
        Some(unit) => unit.byte.saturating_add(unit.length),
        None => 0,
    };
    let pictures = surveyed.survey.picture_count();
    surveyed.meter.end(byte, pictures);
}

/// What a judgement without lines or frames left.
#[derive(Drop)]
struct Judged<S: FrameSink + Drop> {
    sink: S,
    survey: Survey,
    answer: Answer,
}

/// Judges the open file with a sink, and surveys its calls where an option asks for that. None where memory is wanting for the survey.
fn judge_plainly<S: FrameSink + Drop, F: io::Read + Drop, M: Meter + Drop>(
    job: &Job<'_>,
    file: &mut OpenFile<F>,
    mut sink: S,
    meter: M,
) -> Option<Judged<S>>
    requires sink { HasRoom S.failures sink }
    requires source { file.old.failures < 2 ^ 64 - 1 }
    ensures answer { IfSome result (λ judged. IsAnswerOf job.now.task job.now.options.target (left_of F.remaining file.old.reader) judged.answer) }
    ensures read { IfSome result (λ judged. IsErrOf judged.answer Read → IsUnread file.old.failures file.old.reads file.new.failures file.new.reads) }
    ensures read_told { IfSome result (λ judged. TellsUnread file.old.failures file.new.failures judged.answer) }
    ensures unread { IfNone result (HasReadAll file.old.failures file.new.failures) }
    ensures surveyed { IfSome result (λ judged. asks_for_survey job.now.options ≡ true → S.took sink [] →
        IsSurveyed job.now (left_of F.remaining file.old.reader) judged.answer judged.survey) }
{
    let Ok(survey) = Survey::new(job.alloc) else {
        return None;
    };
    if job.options.asks_for_survey() {
        let (surveyed, answer) = judge(job, file, sink, Watch { survey, meter });
        let Surveyed { sink, survey, .. } = surveyed;
        return Some(Judged {
            sink,
            survey,
            answer,
        });
    }
    let (mode, target) = (mode_of(job.task), job.options.target);
    let answer = run(job.alloc, file, &mut sink, mode, target);
    Some(Judged {
        sink,
        survey,
        answer,
    })
}

/// The lines of the last elements, before a no; no text before another answer. None where there is no memory for them.
fn trail_lines(alloc: Global, answer: Answer, sink: &TrailSink) -> Option<String>
    ensures text { IfSome result (λ text. string_bytes text ≡ trail_text sink.now.trail answer) }
    ensures read { IfNone result (IsErrOf answer Read → ⊥) }
{
    match answer {
        Err(Stop::No { .. }) => sink.trail().lines(alloc).ok(),
        _ => Some(String::new(alloc)),
    }
}

/// What a judgement by the further rules left.
#[derive(Drop)]
pub struct JudgedFurther<S: FrameSink + Drop, M: Meter + Drop> {
    pub sink: S,
    pub survey: Survey,
    pub meter: M,
    pub answer: Answer,
    pub further: FurtherRules,
}

/// Judges the open file with a sink and by the further rules, and surveys its calls where that is asked.
pub fn judge_further<S: FrameSink + Drop, F: io::Read + Drop, M: Meter + Drop>(
    job: &Job<'_>,
    file: &mut OpenFile<F>,
    sink: S,
    watch: Watch<M>,
    is_surveyed: bool,
) -> JudgedFurther<S, M>
    requires none { S.took sink [] }
    requires sink { HasRoom S.failures sink }
    requires source { file.old.failures < 2 ^ 64 - 1 }
    ensures answer { IsAnswerOf job.now.task job.now.options.target (left_of F.remaining file.old.reader) result.answer }
    ensures read { IsErrOf result.answer Read → IsUnread file.old.failures file.old.reads file.new.failures file.new.reads }
    ensures read_told { TellsUnread file.old.failures file.new.failures result.answer }
    ensures further { AreJudged (terms_of (mode_of job.now.task) job.now.options.target) (left_of F.remaining file.old.reader) result.answer
        result.further }
    ensures surveyed { is_surveyed ≡ true → IsSurveyed job.now (left_of F.remaining file.old.reader) result.answer result.survey }
    ensures unsurveyed { is_surveyed ≡ false → result.survey ≡ watch.survey }
    ensures ended { is_surveyed ≡ true → M.has_ended result.meter }
{
    let Watch { survey, meter } = watch;
    let mut sink = StrictSink::new(sink);
    let (mode, target) = (mode_of(job.task), job.options.target);
    if !is_surveyed {
        let judgement = judge_strictly(job.alloc, file, &mut sink, mode, target);
        return judged_further(sink, judgement, survey, meter);
    }
    let mut surveyed = Surveyed {
        sink,
        survey,
        meter,
    };
    let judgement = judge_strictly(job.alloc, file, &mut surveyed, mode, target);
    tell_end(&mut surveyed);
    let Surveyed {
        sink,
        survey,
        meter,
    } = surveyed;
    judged_further(sink, judgement, survey, meter)
}

/// The parts of a judgement by the further rules.
fn judged_further<S: FrameSink + Drop, M: Meter + Drop>(
    sink: StrictSink<S>,
    judgement: StrictJudgement,
    survey: Survey,
    meter: M,
) -> JudgedFurther<S, M>
    ensures answer { result.answer ≡ judgement.answer }
    ensures strict { result.further.strict ≡ sink.strict }
    ensures units { result.further.units ≡ judgement.units }
    ensures survey { result.survey ≡ survey }
    ensures meter { result.meter ≡ meter }
{
    let StrictJudgement { answer, units } = judgement;
    let StrictSink { sink, strict } = sink;
    JudgedFurther {
        sink,
        survey,
        meter,
        answer,
        further: FurtherRules { strict, units },
    }
}

/// A file that was judged, and the sink that was told of it. What the sink has to say of it is not in `found`.
#[derive(Drop)]
struct Checked<S: FrameSink + Drop> {
    sink: S,
    found: Found,
}

/// Judges the open file with a sink, and by the further rules. Its calls are surveyed where an option asks for that.
fn check_strictly<S: FrameSink + Drop, F: io::Read + Drop, M: Meter + Drop>(
    job: &Job<'_>,
    file: &mut OpenFile<F>,
    sink: S,
    meter: M,
) -> Option<Checked<S>>
    requires none { S.took sink [] }
    requires sink { HasRoom S.failures sink }
    requires source { file.old.failures < 2 ^ 64 - 1 }
    ensures answer { IfSome result (λ checked. IsAnswerOf job.now.task job.now.options.target (left_of F.remaining file.old.reader) checked.found.answer) }
    ensures read { IfSome result (λ checked. IsErrOf checked.found.answer Read → IsUnread file.old.failures file.old.reads file.new.failures file.new.reads) }
    ensures read_told { IfSome result (λ checked. TellsUnread file.old.failures file.new.failures checked.found.answer) }
    ensures unread { IfNone result (HasReadAll file.old.failures file.new.failures) }
    ensures further { IfSome result (λ checked. IsFound true (terms_of (mode_of job.now.task) job.now.options.target)
        (left_of F.remaining file.old.reader) checked.found.answer checked.found.strict) }
    ensures surveyed { IfSome result (λ checked. asks_for_survey job.now.options ≡ true →
        IsSurveyed job.now (left_of F.remaining file.old.reader) checked.found.answer checked.found.survey) }
{
    let Ok(survey) = Survey::new(job.alloc) else {
        return None;
    };
    let watch = Watch { survey, meter };
    let judged = judge_further(job, file, sink, watch, job.options.asks_for_survey());
    let JudgedFurther {
        sink,
        survey,
        answer,
        further,
        ..
    } = judged;
    let found = Found {
        answer,
        strict: Some(further),
        survey,
        seen: file.seen,
        before: String::new(job.alloc),
        change: None,
    };
    Some(Checked { sink, found })
}

/// Judges the open file with a sink, by the further rules too where they are asked for. Its calls are surveyed where an option asks for that. None where memory
/// is wanting for the survey.
fn check_with<S: FrameSink + Drop, F: io::Read + Drop, M: Meter + Drop>(
    job: &Job<'_>,
    file: &mut OpenFile<F>,
    sink: S,
    meter: M,
) -> Option<Checked<S>>
    requires none { S.took sink [] }
    requires sink { HasRoom S.failures sink }
    requires source { file.old.failures < 2 ^ 64 - 1 }
    ensures answer { IfSome result (λ checked. IsAnswerOf job.now.task job.now.options.target (left_of F.remaining file.old.reader) checked.found.answer) }
    ensures read { IfSome result (λ checked. IsErrOf checked.found.answer Read → IsUnread file.old.failures file.old.reads file.new.failures file.new.reads) }
    ensures read_told { IfSome result (λ checked. TellsUnread file.old.failures file.new.failures checked.found.answer) }
    ensures unread { IfNone result (HasReadAll file.old.failures file.new.failures) }
    ensures further { IfSome result (λ checked. IsFound job.now.options.strict (terms_of (mode_of job.now.task) job.now.options.target)
        (left_of F.remaining file.old.reader) checked.found.answer checked.found.strict) }
    ensures surveyed { IfSome result (λ checked. asks_for_survey job.now.options ≡ true →
        IsSurveyed job.now (left_of F.remaining file.old.reader) checked.found.answer checked.found.survey) }
{
    if job.options.strict {
        return check_strictly(job, file, sink, meter);
    }
    let judged = judge_plainly(job, file, sink, meter)?;
    let found = Found {
        answer: judged.answer,
        strict: None,
        survey: judged.survey,
        seen: file.seen,
        before: String::new(job.alloc),
        change: None,
    };
    Some(Checked {
        sink: judged.sink,
        found,
    })
}

/// Judges the open file for its last elements, which are told before a no.
fn check_noted<F: io::Read + Drop, M: Meter + Drop>(
    job: &Job<'_>,
    file: &mut OpenFile<F>,
    meter: M,
) -> Option<Found>
    requires { file.old.failures < 2 ^ 64 - 1 }
    ensures answer { IfSome result (λ found. IsAnswerOf job.now.task job.now.options.target (left_of F.remaining file.old.reader) found.answer) }
    ensures read { IfSome result (λ found. IsErrOf found.answer Read → IsUnread file.old.failures file.old.reads file.new.failures file.new.reads) }
    ensures read_told { IfSome result (λ found. TellsUnread file.old.failures file.new.failures found.answer) }
    ensures unread { IfNone result (HasReadAll file.old.failures file.new.failures) }
    ensures further { IfSome result (λ found. IsFound job.now.options.strict (terms_of (mode_of job.now.task) job.now.options.target)
        (left_of F.remaining file.old.reader) found.answer found.strict) }
    ensures surveyed { IfSome result (λ found. asks_for_survey job.now.options ≡ true →
        IsSurveyed job.now (left_of F.remaining file.old.reader) found.answer found.survey) }
{
    let Ok(trail) = TrailSink::new(job.alloc) else {
        return None;
    };
    let Checked { sink, mut found } = check_with(job, file, trail, meter)?;
    found.before = trail_lines(job.alloc, found.answer, &sink)?;
    Some(found)
}

/// Judges the open file without a note of its elements, which takes less time.
fn check_unnoted<F: io::Read + Drop, M: Meter + Drop>(
    job: &Job<'_>,
    file: &mut OpenFile<F>,
    meter: M,
) -> Option<Found>
    requires { file.old.failures < 2 ^ 64 - 1 }
    ensures answer { IfSome result (λ found. IsAnswerOf job.now.task job.now.options.target (left_of F.remaining file.old.reader) found.answer) }
    ensures read { IfSome result (λ found. IsErrOf found.answer Read → IsUnread file.old.failures file.old.reads file.new.failures file.new.reads) }
    ensures read_told { IfSome result (λ found. TellsUnread file.old.failures file.new.failures found.answer) }
    ensures unread { IfNone result (HasReadAll file.old.failures file.new.failures) }
    ensures further { IfSome result (λ found. IsFound job.now.options.strict (terms_of (mode_of job.now.task) job.now.options.target)
        (left_of F.remaining file.old.reader) found.answer found.strict) }
    ensures surveyed { IfSome result (λ found. asks_for_survey job.now.options ≡ true →
        IsSurveyed job.now (left_of F.remaining file.old.reader) found.answer found.survey) }
{
    let Checked { found, .. } = check_with(job, file, NoSink, meter)?;
    Some(found)
}

/// Whether an answer is told by a second reading alone: a no, with its last elements, and what came of a reading that was cut short. A read that failed is told
/// by the first. Write is never told by the first, which writes nothing.
pub fn is_told_again(answer: Answer, is_cut_short: bool) -> bool
    ensures no { result ≡ false → is_no answer ≡ false }
    ensures write { result ≡ false → answer ≡ Err Write → ⊥ }
    ensures read { result ≡ true → answer ≡ Err Read → ⊥ }
    ensures cut { is_cut_short ≡ true → result ≡ false → answer ≡ Err Read }
{
    match answer {
        Ok(_) => is_cut_short,
        Err(Stop::No { .. }) => true,
        Err(Stop::Outside { .. }) => is_cut_short,
        Err(Stop::Memory) => is_cut_short,
        Err(Stop::Read) => false,
        Err(Stop::Write) => true,
    }
}

/// Judges the open file without a note of its elements: what is told of it. None where a second reading tells it: a no with its last elements, and what was cut
/// short; and where memory is wanting.
pub fn glance_at<O: Opener + Drop>(job: &Job<'_>, files: &mut OpenedFiles<O>) -> Option<Found>
    requires { files.old.file.failures < 2 ^ 64 - 1 }
    ensures answer { IfSome result (λ found. IsAnswerOf job.now.task job.now.options.target (left_of O.File.Read.remaining files.old.file.reader)
        found.answer) }
    ensures read { IfSome result (λ found. IsErrOf found.answer Read → IsUnread files.old.file.failures files.old.file.reads
        files.new.file.failures files.new.file.reads) }
    ensures read_told { IfSome result (λ found. TellsUnread files.old.file.failures files.new.file.failures found.answer) }
    ensures unread { IfNone result (HasReadAll files.old.file.failures files.new.file.failures) }
    ensures further { IfSome result (λ found. IsFound job.now.options.strict (terms_of (mode_of job.now.task) job.now.options.target)
        (left_of O.File.Read.remaining files.old.file.reader) found.answer found.strict) }
    // A no is never told without its last elements.
    ensures no { IfSome result (λ found. is_no found.answer ≡ false) }
    // Of a reading that was cut short a read that failed is told alone.
    ensures whole { IfSome result (λ found. (cut : Bool) × O.cut_short files.new.opener cut × (cut ≡ true → IsErrOf found.answer Read)) }
    ensures write { IfSome result (λ found. IsErrOf found.answer Write → ⊥) }
    ensures opener { files.new.opener ≡ files.old.opener }
    ensures closed { files.new.unread ≡ files.old.unread }
{
    let found = check_unnoted(job, &mut files.file, NoMeter)?;
    if is_told_again(found.answer, files.is_cut_short()) {
        return None;
    }
    Some(found)
}

/// Judges the open file, for its last elements where they are told before a no.
pub fn check_file<F: io::Read + Drop, M: Meter + Drop>(
    job: &Job<'_>,
    file: &mut OpenFile<F>,
    meter: M,
) -> Option<Found>
    requires { file.old.failures < 2 ^ 64 - 1 }
    ensures answer { IfSome result (λ found. IsAnswerOf job.now.task job.now.options.target (left_of F.remaining file.old.reader) found.answer) }
    ensures read { IfSome result (λ found. IsErrOf found.answer Read → IsUnread file.old.failures file.old.reads file.new.failures file.new.reads) }
    ensures read_told { IfSome result (λ found. TellsUnread file.old.failures file.new.failures found.answer) }
    ensures unread { IfNone result (HasReadAll file.old.failures file.new.failures) }
    ensures further { IfSome result (λ found. IsFound job.now.options.strict (terms_of (mode_of job.now.task) job.now.options.target)
        (left_of F.remaining file.old.reader) found.answer found.strict) }
    ensures surveyed { IfSome result (λ found. asks_for_survey job.now.options ≡ true →
        IsSurveyed job.now (left_of F.remaining file.old.reader) found.answer found.survey) }
{
    if job.tells_elements() {
        return check_noted(job, file, meter);
    }
    check_unnoted(job, file, meter)
}

/// Judges the open file with a sink that is told what is chosen alone, and surveys its calls.
pub fn judge_chosen<S: FrameSink + Drop, K: Sheet, F: io::Read + Drop, M: Meter + Drop>(
    job: &Job<'_>,
    file: &mut OpenFile<F>,
    sink: S,
    watch: Watch<M>,
) -> (Narrowed<S, K>, Answer)
    requires choice { job.now.options.choice ≡ K.choice }
    requires sink { HasRoom S.failures sink }
    requires source { file.old.failures < 2 ^ 64 - 1 }
    ensures answer { IsAnswerOf job.now.task job.now.options.target (left_of F.remaining file.old.reader) result.1 }
    ensures read { IsErrOf result.1 Read → IsUnread file.old.failures file.old.reads file.new.failures file.new.reads }
    ensures read_told { TellsUnread file.old.failures file.new.failures result.1 }
    ensures took { S.took sink [] → OfBytes (left_of F.remaining file.old.reader) (λ bytes.
        (a : Account (terms_of (mode_of job.now.task) job.now.options.target) bytes result.1)
        × TookChosen S.took K.choice result.0.broke_off (record { reading = result.0.reading; pending = pending_call result.0.pending })
        result.0.sink (calls_in a)) }
    ensures some { S.took sink [] → (calls : List Call) × S.took result.0.sink calls }
    ensures surveyed { S.took sink [] → IsSurveyed job.now (left_of F.remaining file.old.reader) result.1 result.0.survey }
{
    let Watch { survey, .. } = watch;
    let mut narrowed: Narrowed<S, K> = Narrowed::new(sink, survey, job.options.choice);
    let (mode, target) = (mode_of(job.task), job.options.target);
    let answer = run(job.alloc, file, &mut narrowed, mode, target);
    (narrowed, answer)
}

/// What a file has. None where there is no memory for it.
fn info_text(job: &Job<'_>, found: &Found) -> Option<String> {
    let mut page = Page::new(job.alloc);
    let (survey, start) = (&found.survey, &found.seen.start);
    if job.options.json {
        put_info_object(&mut page, job.file, survey, start);
    } else {
        put_info(&mut page, survey, start, found.finding());
    }
    if page.is_short() || survey.is_short() {
        return None;
    }
    String::from_str(job.alloc, page.as_str()).ok()
}

/// Judges the open file for what it has.
pub fn info_file<F: io::Read + Drop, M: Meter + Drop>(
    job: &Job<'_>,
    file: &mut OpenFile<F>,
    meter: M,
) -> Option<Found>
    requires { file.old.failures < 2 ^ 64 - 1 }
    ensures answer { IfSome result (λ found. IsAnswerOf job.now.task job.now.options.target (left_of F.remaining file.old.reader) found.answer) }
    ensures read { IfSome result (λ found. IsErrOf found.answer Read → IsUnread file.old.failures file.old.reads file.new.failures file.new.reads) }
    ensures read_told { IfSome result (λ found. TellsUnread file.old.failures file.new.failures found.answer) }
    ensures unread { IfNone result (HasReadAll file.old.failures file.new.failures) }
    ensures further { IfSome result (λ found. found.strict ≡ None) }
    ensures surveyed { IfSome result (λ found. IsSurveyed job.now (left_of F.remaining file.old.reader) found.answer found.survey) }
{
    let Ok(survey) = Survey::new(job.alloc) else {
        return None;
    };
    let (surveyed, answer) = judge(job, file, NoSink, Watch { survey, meter });
    let Surveyed { survey, .. } = surveyed;
    let mut found = Found {
        answer,
        strict: None,
        survey,
        seen: file.seen,
        before: String::new(job.alloc),
        change: None,
    };
    let Some(before) = info_text(job, &found) else {
        return found.if_unread();
    };
    found.before = before;
    Some(found)
}
