//! What the words ask for beside the judgement of one file: options, several files, and the tasks that make texts of their own.
#![tactic(auto)]

ghost use Rattle.std.specs.Prelude.{◌≡◌, ◌≢◌, ℕ, ◌==◌, ◌-◌, ◌<◌, ◌^◌, ◌++◌, ◌⊎◌, ◌||◌, ◌&&◌, is_some, true, false, max, map, length, not, nat_le, List, codes};
ghost use Rattle.std.specs.Prelude.{Err, None, IsErrOf, IsSome, IfOk, IfSome, IfNone, string_bytes};
ghost use Rattle.clap.specs.Words.{subcommand_rows_of};
ghost use Rattle.h264_base.specs.declared.stop.Stop.TheVariants.{Memory, Read, Write};
ghost use Rattle.h264_lines.specs.Names.{shown};
ghost use Rattle.h264_pages.specs.Pages.{Adds};
ghost use Rattle.h264_lines.specs.Sent.{Sends};
ghost use Rattle.h264_lines.specs.Told.{ended};
ghost use Rattle.h264_report.specs.Written.{OfBytes};
ghost use Rattle.h264_lines.specs.Answer.{told_of};
ghost use Rattle.h264_command.specs.Explained.{IsExplained};
ghost use Rattle.h264_verify.specs.Units.{terms_of};
ghost use Rattle.h264_command.specs.Files.{counts, left_of, one_more, HasReadAll, IsUnread, TellsFailure, TellsUnread};
ghost use Rattle.h264_command.specs.Further.{BreakOne, IsFound, TellsBroken, IsNoVerdict};
ghost use Rattle.h264_command.specs.Commands.{output_of, span_of};
ghost use Rattle.h264_words.specs.declared.command_line.Task.TheVariants.{Check};
ghost use Rattle.h264_command.specs.More.{AreDone, HasTaken, IsAnswerOf, IsPutAside, IsStatus, IsToldAside, IsToldStatus, NoneTook, TellsCause, TellsWrites};
ghost use Rattle.h264_command.specs.More.{files_span, is_whole, work};
ghost use Rattle.h264_words.specs.Options.{asks_further, refusal_text};
ghost use Rattle.h264_command.specs.Surveys.{IsSurveyed, surveys};
ghost use Rattle.h264_command.specs.Totals.{total_line, total_object};
ghost use Rattle.h264_command.specs.Texts.{IsEnd, IsFileText, IsTextOf, TakesText, answers_aside, opening_in, prefix_of};
ghost use Rattle.h264_words.specs.Words.{mode_of, system_name};

use crate::command::FAULT;
use crate::decoding::decode_file;
use crate::explaining::{entry_labelled, put_entry};
use crate::files::{Maker, OpenFile, OpenedFiles, Opener};
use crate::job::{Done, Found, Job, check_file, glance_at, info_file};
use crate::listing::list_file;
use crate::reporting::report_file;
use crate::telling::{put_found, put_unjudged};
use h264_base::{Failed, Stop};
use h264_lines::{Device, Head, WriteDevice, put_text, shown, told_answer};
use h264_pages::pages::Page;
use h264_pages::survey::Meter;
use h264_report::{Ending, put_line, put_memory};
use h264_words::command_line::{Task, Wanted};
use h264_words::labels::nearest_label;
use h264_words::options::options_of;
use h264_words::refusal::{Clash, Refusal};
use std::alloc::{AllocError, Global};
use std::io;
use std::io::Write;

/// The exit status of a device that failed.
const FAILED: u8 = 4;

/// How many files had which answer.
#[derive(Clone, Copy)]
struct Totals {
    files: u64,
    yes: u64,
    no: u64,
    outside: u64,
    memory: u64,
    failed: u64,
    /// The greatest exit status.
    worst: u8,
}

impl Totals {
    /// The totals of no files.
    fn none() -> Totals
        ensures { result.worst ≡ 0 }
    {
        Totals {
            files: 0,
            yes: 0,
            no: 0,
            outside: 0,
            memory: 0,
            failed: 0,
            worst: 0,
        }
    }

    /// Counts a file by its exit status.
    fn add(&mut self, status: u8)
        ensures worst { self.new.worst ≡ max self.old.worst status }
        ensures files { self.new.files ≡ one_more true self.old.files }
        ensures yes { self.new.yes ≡ one_more (status == 0) self.old.yes }
        ensures no { self.new.no ≡ one_more (status == 1) self.old.no }
        ensures outside { self.new.outside ≡ one_more (status == 2) self.old.outside }
        ensures memory { self.new.memory ≡ one_more (status == 3) self.old.memory }
        ensures failed { self.new.failed ≡ one_more (not (nat_le status 3)) self.old.failed }
    {
        self.files = self.files.saturating_add(1);
        self.worst = self.worst.max(status);
        match status {
            0 => self.yes = self.yes.saturating_add(1),
            1 => self.no = self.no.saturating_add(1),
            2 => self.outside = self.outside.saturating_add(1),
            3 => self.memory = self.memory.saturating_add(1),
            _ => self.failed = self.failed.saturating_add(1),
        }
    }

    /// Adds the last line of several files.
    fn put(&self, page: &mut Page)
        ensures { Adds page.old page.new (total_line self.now) }
    {
        page.numbered("total: files ", self.files);
        page.numbered(" yes ", self.yes);
        page.numbered(" no ", self.no);
        page.numbered(" outside ", self.outside);
        page.numbered(" memory ", self.memory);
        page.numbered(" failed ", self.failed);
        page.put("\n");
    }

    /// Adds the last object of several files.
    fn put_object(&self, page: &mut Page)
        ensures { Adds page.old page.new (total_object self.now) }
    {
        page.put("{\"kind\":\"total\"");
        page.number_field("files", self.files);
        page.number_field("yes", self.yes);
        page.number_field("no", self.no);
        page.number_field("outside", self.outside);
        page.number_field("memory", self.memory);
        page.number_field("failed", self.failed);
        page.close_object();
    }
}

/// Writes the line that tells of a name, and of a cause after it.
#[tactic(auto, using(crate::proofs::Told::taken))]
fn put_blame<E: Device>(err: &mut E, front: &str, cause: &str)
    ensures kept { E.has_failed err.old ≡ true → E.has_failed err.new ≡ true }
    ensures told { E.has_failed err.new ≡ false → Sends (E.contents err.old) (E.contents err.new) (front.now ++ ended cause.now) }
{
    let _ = put_line(front, cause, err);
}

/// The front of the line that tells of a name. AllocError: there is no memory for it.
fn blame_front(alloc: Global, name: &str) -> Result<String, AllocError>
    ensures { IfOk result (λ s. string_bytes s ≡ codes "h264v: " ++ shown name.now) }
{
    let name = shown(alloc, name)?;
    let name = name.as_str();
    format!(in alloc; "h264v: {name}")
}

/// Says why a device or a file failed, by the system's cause. Where there is no memory for the cause, the line ends before it; where there is none for the
/// name, it says so.
pub fn blame<E: Device>(alloc: Global, err: &mut E, name: &str, cause: &io::Error)
    ensures kept { E.has_failed err.old ≡ true → E.has_failed err.new ≡ true }
    ensures told { E.has_failed err.new ≡ false → TellsCause (E.contents err.old) (E.contents err.new) name.now }
{
    let Ok(front) = blame_front(alloc, name) else {
        put_blame(err, "h264v: ", "memory");
        return;
    };
    match format!(in alloc; ": {cause}") {
        Ok(text) => put_blame(err, front.as_str(), text.as_str()),
        Err(_) => put_blame(err, front.as_str(), ""),
    }
}

/// Refuses the words, with a line on `err` that says why: the exit status.
#[tactic(auto, using(crate::proofs::Told::taken))]
fn refuse<E: Device>(err: &mut E, refusal: Refusal) -> u8
    ensures status { result ≡ 64 }
    ensures told { E.has_failed err.new ≡ false → Sends (E.contents err.old) (E.contents err.new) (codes "h264v: " ++ ended (refusal_text refusal)) }
{
    let _ = put_line("h264v: ", refusal.text(), err);
    FAULT
}

/// What is said of a label that no rule has. AllocError: there is no memory for it.
fn unknown_text(alloc: Global, label: &str) -> Result<String, AllocError> {
    let nearest = nearest_label(alloc, label)?.unwrap_or("");
    let label = shown(alloc, label)?;
    let label = label.as_str();
    format!(in alloc;
        "no rule has the label {label}; the nearest is {nearest}, and h264v explain --all lists all"
    )
}

/// Says that no rule has a label.
fn put_unknown<E: Device>(alloc: Global, err: &mut E, label: &str) {
    match unknown_text(alloc, label) {
        Ok(text) => put_blame(err, "h264v: ", text.as_str()),
        Err(_) => put_blame(err, "h264v: ", "memory"),
    }
}

/// Tells the entries of labels: the exit status. Where one label is unknown, nothing is told.
fn explain_labels<W: Device, E: Device>(
    alloc: Global,
    labels: &[&str],
    json: bool,
    out: &mut W,
    err: &mut E,
) -> u8
    ensures status { IsToldStatus result (output_of W.contents W.has_failed W.holds_back out.new) }
    ensures told { result ≡ 0 → (text : List ℕ) × IsExplained json (map (λ label. label.now) labels.now) text
        × Sends (W.contents out.old) (W.contents out.new) text }
{
    let mut text = String::new(alloc);
    for label in labels.iter() {
        let Some(entry) = entry_labelled(label) else {
            put_unknown(alloc, err, label);
            return FAULT;
        };
        if put_entry(alloc, &mut text, entry, json).is_err() {
            return put_memory(out).status();
        }
    }
    if put_text(out, text.as_str()) {
        return 0;
    }
    FAILED
}

/// Judges the open file as the task says. What the answer is written to is left to the caller. None where memory is wanting beside the judgement; then
/// nothing is written.
fn find<F: io::Read + Drop, W: Device, M: Meter + Drop>(
    job: &Job<'_>,
    file: &mut OpenFile<F>,
    out: &mut W,
    meter: M,
) -> Option<Found>
    requires { file.old.failures < 2 ^ 64 - 1 }
    ensures answer { IfSome result (λ found. IsAnswerOf job.now.task job.now.options.target (left_of F.remaining file.old.reader) found.answer) }
    ensures read { IfSome result (λ found. IsErrOf found.answer Read → IsUnread file.old.failures file.old.reads file.new.failures file.new.reads) }
    ensures read_told { IfSome result (λ found. TellsUnread file.old.failures file.new.failures found.answer) }
    ensures unread { IfNone result (HasReadAll file.old.failures file.new.failures) }
    ensures further { IfSome result (λ found. IsFound (asks_further job.now.task job.now.options.strict)
        (terms_of (mode_of job.now.task) job.now.options.target) (left_of F.remaining file.old.reader) found.answer found.strict) }
    ensures surveyed { IfSome result (λ found. surveys job.now.task job.now.options ≡ true →
        IsSurveyed job.now (left_of F.remaining file.old.reader) found.answer found.survey) }
    ensures text { IfSome result (λ found. OfBytes (left_of F.remaining file.old.reader) (λ bytes. TakesText (IsTextOf job.now.task
        job.now.options (opening_in job.now.options.json job.now.file.now job.now.prefix.now) bytes found.answer) (W.contents out.old)
        (output_of W.contents W.has_failed W.holds_back out.new))) }
    ensures untouched { IfNone result (out.new ≡ out.old) }
{
    match job.task {
        Task::Check => check_file(job, file, meter),
        Task::Decode => decode_file(job, file, out, meter),
        Task::Info => info_file(job, file, meter),
        Task::Report => report_file(job, file, out, meter),
        _ => list_file(job, file, out, meter),
    }
}

/// The name by which the system knows a file: standard input for `-`.
fn system_name(file: &str) -> &str
    ensures { result.now ≡ system_name file.now }
{
    if file == "-" { "/dev/stdin" } else { file }
}

/// Whether the answer of a task goes to standard error, since its output is something else.
fn answers_aside(task: Task) -> bool
    ensures { result ≡ answers_aside task }
{
    match task {
        Task::Decode => true,
        Task::Report => true,
        Task::Check => false,
        Task::Units => false,
        Task::Headers => false,
        Task::Frames => false,
        Task::Elements => false,
        Task::Info => false,
        Task::Explain => false,
    }
}

/// Whether a file that was opened is judged first without a note of its elements, which only a no needs: where `check` would tell them, it is not told how far
/// the judgement has come, which is told once, and the file can be read again.
fn is_glanced_at<O: Opener + Drop>(job: &Job<'_>, files: &OpenedFiles<O>) -> bool
    ensures { result ≡ true → job.now.task ≡ Check }
{
    job.task == Task::Check
        && job.tells_elements()
        && !job.options.progress
        && files.keep(system_name(job.file))
}

/// Opens a file and judges it, and writes its answer to `out`, or to `err` where the task writes something else to `out`.
fn do_file<O: Opener + Drop, W: Device, E: Device, M: Meter + Drop>(
    job: &Job<'_>,
    files: &mut OpenedFiles<O>,
    out: &mut W,
    err: &mut E,
    meter: M,
) -> Done
    requires { files.old.file.failures < 2 ^ 64 - 1 }
    ensures answer { IsAnswerOf job.now.task job.now.options.target (O.holds files.old.opener (system_name job.now.file.now)) result.ending.answer }
    ensures broken { TellsBroken (asks_further job.now.task job.now.options.strict) (terms_of (mode_of job.now.task) job.now.options.target)
        (O.holds files.old.opener (system_name job.now.file.now)) result }
    ensures read { IsErrOf result.ending.answer Read → IsUnread files.old.file.failures files.old.file.reads files.new.file.failures files.new.file.reads }
    ensures read_told { TellsFailure files.old.file.failures files.new.file.failures result.ending.answer }
    ensures holds { (name : List ℕ) → O.holds files.new.opener name ≡ O.holds files.old.opener name }
    ensures unread { files.new.unread ≡ files.old.unread }
    ensures failures { TellsWrites job.now.options.y4m result.ending (span_of W.contents W.has_failed W.holds_back out.old out.new)
        (output_of E.contents E.has_failed E.holds_back err.new) }
    ensures text { TakesText (IsFileText job.now.task job.now.options (opening_in job.now.options.json job.now.file.now job.now.prefix.now)
        (O.holds files.old.opener (system_name job.now.file.now)) result.ending.answer) (W.contents out.old)
        (output_of W.contents W.has_failed W.holds_back out.new) }
{
    let name = system_name(job.file);
    if let Err(Failed) = files.open(name) {
        return put_no_verdict(job, Stop::Read, out, err);
    }
    if !is_glanced_at(job, files) {
        return judge_opened(job, &mut files.file, out, err, meter);
    }
    if let Some(found) = glance_at(job, files) {
        return put_answer(job, &found, out, err);
    }
    match files.open_again(name) {
        Ok(()) => judge_opened(job, &mut files.file, out, err, meter),
        Err(Failed) => put_no_verdict(job, Stop::Read, out, err),
    }
}

/// Whether a judgement was broken off for its output: that failed, or is YUV4MPEG2, which ends where the size changes.
fn is_cut_off(job: &Job<'_>, found: &Found, failed: bool) -> bool
    ensures cut { result ≡ true → (failed ≡ true) ⊎ (job.now.options.y4m ≡ true) }
    ensures whole { result ≡ false → failed ≡ false }
    ensures change { result ≡ failed || (job.now.options.y4m && is_some found.now.change) }
{
    failed || job.options.y4m && found.change.is_some()
}

/// Why there is no verdict on a file that was read: an output failed, or else memory was wanting.
fn stop_of(failed: bool) -> Stop
    ensures { Err result ≡ told_of failed (Err Memory) }
{
    if failed { Stop::Write } else { Stop::Memory }
}

/// Says on standard error that the stream has no picture of the number that is chosen.
fn tell_absent<E: Device>(job: &Job<'_>, found: &Found, err: &mut E) {
    let Some(number) = job.options.choice.picture else {
        return;
    };
    let count = found.survey.picture_count();
    if job.options.quiet || number < count {
        return;
    }
    let Ok(front) = blame_front(job.alloc, job.file) else {
        put_blame(err, "h264v: ", "memory");
        return;
    };
    match format!(in job.alloc; ": there is no picture {number}: {count} pictures were read") {
        Ok(text) => put_blame(err, front.as_str(), text.as_str()),
        Err(_) => put_blame(err, "h264v: ", "memory"),
    }
}

/// The change of size that is told: none where the output failed.
fn change_told(change: Option<(Head, Head)>, failed: bool) -> Option<(Head, Head)> {
    if failed { None } else { change }
}

/// Judges the open file, and writes its answer to `out`, or to `err` where the task writes something else to `out`.
fn judge_opened<F: io::Read + Drop, W: Device, E: Device, M: Meter + Drop>(
    job: &Job<'_>,
    file: &mut OpenFile<F>,
    out: &mut W,
    err: &mut E,
    meter: M,
) -> Done
    requires { file.old.failures < 2 ^ 64 - 1 }
    ensures answer { IsAnswerOf job.now.task job.now.options.target (left_of F.remaining file.old.reader) result.ending.answer }
    ensures broken { TellsBroken (asks_further job.now.task job.now.options.strict) (terms_of (mode_of job.now.task) job.now.options.target)
        (left_of F.remaining file.old.reader) result }
    ensures read { IsErrOf result.ending.answer Read → IsUnread file.old.failures file.old.reads file.new.failures file.new.reads }
    ensures read_told { TellsFailure file.old.failures file.new.failures result.ending.answer }
    ensures failures { TellsWrites job.now.options.y4m result.ending (span_of W.contents W.has_failed W.holds_back out.old out.new)
        (output_of E.contents E.has_failed E.holds_back err.new) }
    ensures text { TakesText (IsFileText job.now.task job.now.options (opening_in job.now.options.json job.now.file.now job.now.prefix.now)
        (left_of F.remaining file.old.reader) result.ending.answer) (W.contents out.old)
        (output_of W.contents W.has_failed W.holds_back out.new) }
{
    let found = find(job, file, out, meter);
    // Where this fails, the device tells so.
    let _ = out.send_rest();
    let failed = out.did_fail();
    let Some(mut found) = found else {
        return put_no_verdict(job, stop_of(failed), out, err);
    };
    let broke_off = is_cut_off(job, &found, failed);
    found.answer = told_answer(found.answer, broke_off);
    found.change = change_told(found.change, failed);
    tell_absent(job, &found, err);
    put_answer(job, &found, out, err)
}

/// Writes what was found.
fn put_answer<W: Device, E: Device>(job: &Job<'_>, found: &Found, out: &mut W, err: &mut E) -> Done
    ensures answer { (result.ending.answer ≡ found.now.answer) ⊎ (result.ending.answer ≡ Err Memory) }
    ensures read { found.now.answer ≡ Err Read → result.ending.answer ≡ Err Read }
    ensures write { found.now.answer ≡ Err Write → result.ending.answer ≡ Err Write }
    ensures broken { result.is_broken ≡ true → BreakOne found.now.strict }
    ensures unbroken { result.is_broken ≡ false → BreakOne found.now.strict → ⊥ }
    ensures devices { IsPutAside result.ending.written (span_of W.contents W.has_failed W.holds_back out.old out.new)
        (output_of E.contents E.has_failed E.holds_back err.new) }
    ensures text { TakesText (IsEnd job.now.task job.now.options (opening_in job.now.options.json job.now.file.now job.now.prefix.now) result.ending.answer)
        (W.contents out.old) (output_of W.contents W.has_failed W.holds_back out.new) }
{
    if answers_aside(job.task) {
        return put_found(job, err, found);
    }
    put_found(job, out, found)
}

/// Writes that there is no verdict on a file.
fn put_no_verdict<W: Device, E: Device>(job: &Job<'_>, stop: Stop, out: &mut W, err: &mut E) -> Done
    ensures answer { result.ending.answer ≡ Err stop }
    ensures broken { result.is_broken ≡ false }
    ensures devices { IsPutAside result.ending.written (span_of W.contents W.has_failed W.holds_back out.old out.new)
        (output_of E.contents E.has_failed E.holds_back err.new) }
    ensures text { IsNoVerdict (Err stop) →
        TakesText (IsEnd job.now.task job.now.options (opening_in job.now.options.json job.now.file.now job.now.prefix.now) (Err stop))
        (W.contents out.old) (output_of W.contents W.has_failed W.holds_back out.new) }
{
    if answers_aside(job.task) {
        return put_unjudged(job, err, stop);
    }
    put_unjudged(job, out, stop)
}

/// Says why a file could not be read, where it could not.
pub fn blame_reading<F: io::Read + Drop, E: Device>(
    alloc: Global,
    file: &OpenFile<F>,
    err: &mut E,
    name: &str,
)
    ensures kept { E.has_failed err.old ≡ true → E.has_failed err.new ≡ true }
    ensures told { IsSome file.now.cause → E.has_failed err.new ≡ false → TellsCause (E.contents err.old) (E.contents err.new) name.now }
    ensures untold { file.now.cause ≡ None → err.new ≡ err.old }
{
    if let Some(cause) = &file.cause {
        blame(alloc, err, name, cause);
    }
}

/// Says why an output failed, where it did.
pub fn blame_output<W: Write + Drop, E: Device>(
    alloc: Global,
    device: &WriteDevice<W>,
    err: &mut E,
    name: &str,
)
    ensures told { IsSome device.now.cause → E.has_failed err.new ≡ false → TellsCause (E.contents err.old) (E.contents err.new) name.now }
    ensures untold { device.now.cause ≡ None → err.new ≡ err.old }
{
    if let Some(cause) = &device.cause {
        blame(alloc, err, name, cause);
    }
}

/// What stands before each line of one of several files: its name. AllocError: there is no memory for it.
fn prefix_of(alloc: Global, file: &str) -> Result<String, AllocError>
    ensures { IfOk result (λ s. string_bytes s ≡ prefix_of true file.now) }
{
    let mut prefix = shown(alloc, file)?;
    prefix.push_str(": ")?;
    Ok(prefix)
}

/// Judges one of several files, whose lines begin with its name.
fn do_named<O: Opener + Drop, W: Device, E: Device, M: Meter + Drop>(
    job: &Job<'_>,
    files: &mut OpenedFiles<O>,
    out: &mut W,
    err: &mut E,
    meter: M,
) -> Done
    requires { files.old.file.failures < 2 ^ 64 - 1 }
    ensures answer { IsAnswerOf job.now.task job.now.options.target (O.holds files.old.opener (system_name job.now.file.now)) result.ending.answer }
    ensures broken { TellsBroken (asks_further job.now.task job.now.options.strict) (terms_of (mode_of job.now.task) job.now.options.target)
        (O.holds files.old.opener (system_name job.now.file.now)) result }
    ensures read { IsErrOf result.ending.answer Read → IsUnread files.old.file.failures files.old.file.reads files.new.file.failures files.new.file.reads }
    ensures read_told { TellsFailure files.old.file.failures files.new.file.failures result.ending.answer }
    ensures holds { (name : List ℕ) → O.holds files.new.opener name ≡ O.holds files.old.opener name }
    ensures unread { files.new.unread ≡ files.old.unread }
    ensures failures { TellsWrites job.now.options.y4m result.ending (span_of W.contents W.has_failed W.holds_back out.old out.new)
        (output_of E.contents E.has_failed E.holds_back err.new) }
    ensures text { TakesText (IsFileText job.now.task job.now.options (opening_in job.now.options.json job.now.file.now (prefix_of true job.now.file.now))
        (O.holds files.old.opener (system_name job.now.file.now)) result.ending.answer) (W.contents out.old)
        (output_of W.contents W.has_failed W.holds_back out.new) }
{
    if job.options.json {
        return do_file(job, files, out, err, meter);
    }
    let Ok(prefix) = prefix_of(job.alloc, job.file) else {
        return put_no_verdict(job, Stop::Memory, out, err);
    };
    let named = Job {
        prefix: prefix.as_str(),
        ..*job
    };
    do_file(&named, files, out, err, meter)
}

/// Judges several files, and writes their totals: the worst exit status. Once a device has failed no more of them is judged.
fn do_files<O: Opener + Drop, W: Device, E: Device, M: Meter + Drop + Copy>(
    job: &Job<'_>,
    names: &[&str],
    files: &mut OpenedFiles<O>,
    out: &mut W,
    err: &mut E,
    meter: M,
) -> u8
    requires several { length names.now ≢ 1 }
    ensures { AreDone (work job.now.task job.now.options) (files_span (λ name. O.holds files.old.opener name)
        (counts files.old.file.failures files.old.file.reads files.old.unread)
        (counts files.new.file.failures files.new.file.reads files.new.unread) NoneTook) (map (λ n. n.now) names.now) result
        (span_of W.contents W.has_failed W.holds_back out.old out.new)
        (output_of E.contents E.has_failed E.holds_back err.new) }
{
    let mut totals = Totals::none();
    files.restart();
    for name in names.iter() {
        let one = Job { file: name, ..*job };
        let done = do_named(&one, files, out, err, meter);
        blame_reading(job.alloc, &files.file, err, name);
        files.close();
        if out.did_fail() || !done.ending.written {
            return FAILED;
        }
        totals.add(done.status());
    }
    let mut page = Page::new(job.alloc);
    if job.options.json {
        totals.put_object(&mut page);
    } else if !job.options.quiet {
        totals.put(&mut page);
    }
    if !put_text(out, page.as_str()) {
        return FAILED;
    }
    totals.worst
}

/// Judges one file: how that ended.
fn do_one<O: Opener + Drop, W: Device, E: Device, M: Meter + Drop>(
    job: &Job<'_>,
    files: &mut OpenedFiles<O>,
    out: &mut W,
    err: &mut E,
    meter: M,
) -> Done
    requires { files.old.file.failures < 2 ^ 64 - 1 }
    ensures answer { IsAnswerOf job.now.task job.now.options.target (O.holds files.old.opener (system_name job.now.file.now)) result.ending.answer }
    ensures broken { TellsBroken (asks_further job.now.task job.now.options.strict) (terms_of (mode_of job.now.task) job.now.options.target)
        (O.holds files.old.opener (system_name job.now.file.now)) result }
    ensures read { IsErrOf result.ending.answer Read → IsUnread files.old.file.failures files.old.file.reads files.new.file.failures files.new.file.reads }
    ensures read_told { TellsFailure files.old.file.failures files.new.file.failures result.ending.answer }
    ensures unread { files.new.unread ≡ files.old.unread }
    ensures failures { TellsWrites job.now.options.y4m result.ending (span_of W.contents W.has_failed W.holds_back out.old out.new)
        (output_of E.contents E.has_failed E.holds_back err.new) }
    ensures text { TakesText (IsFileText job.now.task job.now.options (opening_in job.now.options.json job.now.file.now job.now.prefix.now)
        (O.holds files.old.opener (system_name job.now.file.now)) result.ending.answer) (W.contents out.old)
        (output_of W.contents W.has_failed W.holds_back out.new) }
{
    let done = do_file(job, files, out, err, meter);
    blame_reading(job.alloc, &files.file, err, job.file);
    done
}

/// Whether an output is whole: all was written, and the answer is a verdict.
fn is_whole(ending: Ending) -> bool
    ensures { result ≡ is_whole ending }
{
    ending.written
        && !matches!(
            ending.answer,
            Err(Stop::Memory) | Err(Stop::Read) | Err(Stop::Write)
        )
}

/// Gives an output its name, where it is whole; else what has the name keeps it. How the judgement ended then: where the name can't be given, not all is
/// written.
fn close_output<O: Opener + Maker + Drop, E: Device>(
    alloc: Global,
    files: &mut OpenedFiles<O>,
    written: O::Output,
    name: &str,
    done: Done,
    err: &mut E,
) -> Done
    ensures answer { result.ending.answer ≡ done.ending.answer }
    ensures broken { result.is_broken ≡ done.is_broken }
    ensures whole { is_whole result.ending ≡ true → is_whole done.ending ≡ true }
    ensures finished { is_whole result.ending ≡ true → O.is_finished written }
    ensures file { files.new.file ≡ files.old.file }
    ensures unread { files.new.unread ≡ files.old.unread }
{
    if !is_whole(done.ending) {
        files.abandon(written);
        return done;
    }
    match files.finish(written) {
        Ok(()) => done,
        Err(cause) => {
            blame(alloc, err, name, &cause);
            let ending = Ending {
                written: false,
                ..done.ending
            };
            Done { ending, ..done }
        }
    }
}

/// Judges one file with its output in a file of its own, which is made once the input is open: how that ended.
fn do_output<O: Opener + Maker + Drop, E: Device, M: Meter + Drop>(
    job: &Job<'_>,
    files: &mut OpenedFiles<O>,
    output: &str,
    err: &mut E,
    meter: M,
) -> Done
    requires { files.old.file.failures < 2 ^ 64 - 1 }
    ensures answer { IsAnswerOf job.now.task job.now.options.target (O.holds files.old.opener (system_name job.now.file.now)) result.ending.answer }
    ensures broken { TellsBroken (asks_further job.now.task job.now.options.strict) (terms_of (mode_of job.now.task) job.now.options.target)
        (O.holds files.old.opener (system_name job.now.file.now)) result }
    ensures read { IsErrOf result.ending.answer Read → IsUnread files.old.file.failures files.old.file.reads files.new.file.failures files.new.file.reads }
    ensures read_told { TellsFailure files.old.file.failures files.new.file.failures result.ending.answer }
    ensures unread { files.new.unread ≡ files.old.unread }
    ensures output { IsToldAside result.ending (IsFileText job.now.task job.now.options
        (opening_in job.now.options.json job.now.file.now job.now.prefix.now) (O.holds files.old.opener (system_name job.now.file.now)) result.ending.answer)
        (HasTaken O.goes_to O.is_finished O.Output.Write.contents output.now) }
{
    if files.open(system_name(job.file)).is_err() {
        let done = put_unjudged(job, err, Stop::Read);
        blame_reading(job.alloc, &files.file, err, job.file);
        return done;
    }
    let made = match files.make(output) {
        Ok(made) => made,
        Err(cause) => {
            blame(job.alloc, err, output, &cause);
            return put_unjudged(job, err, Stop::Write);
        }
    };
    let mut device = WriteDevice::new(made);
    let done = judge_opened(job, &mut files.file, &mut device, err, meter);
    blame_reading(job.alloc, &files.file, err, job.file);
    blame_output(job.alloc, &device, err, output);
    let WriteDevice { writer, .. } = device;
    close_output(job.alloc, files, writer, output, done, err)
}

/// Does what the words ask beside a judgement of one file without options, and gives the exit status: the worst of the files', 64 for a fault of the
/// words, whose text goes to `err`.
pub fn more<O: Opener + Maker + Drop, W: Device, E: Device, M: Meter + Drop + Copy>(
    alloc: Global,
    wanted: &Wanted<'_>,
    files: &mut OpenedFiles<O>,
    out: &mut W,
    err: &mut E,
    meter: M,
) -> u8
    requires { files.old.file.failures < 2 ^ 64 - 1 }
    ensures { IsStatus wanted.now.request.task (subcommand_rows_of wanted.now.matches) (files_span (λ name. O.holds files.old.opener name)
        (counts files.old.file.failures files.old.file.reads files.old.unread)
        (counts files.new.file.failures files.new.file.reads files.new.unread) (HasTaken O.goes_to O.is_finished O.Output.Write.contents)) result
        (span_of W.contents W.has_failed W.holds_back out.old out.new)
        (span_of E.contents E.has_failed E.holds_back err.old err.new) }
{
    let options = match options_of(wanted) {
        Ok(options) => options,
        Err(refusal) => return refuse(err, refusal),
    };
    let names = wanted.files().unwrap_or(&[]);
    let job = Job {
        alloc,
        task: wanted.request.task,
        options,
        file: wanted.request.file,
        prefix: "",
    };
    if job.task == Task::Explain {
        return explain_labels(alloc, names, options.json, out, err);
    }
    if names.len() != 1 {
        return do_files(&job, names, files, out, err, meter);
    }
    let job = Job {
        file: names[0],
        ..job
    };
    let Some(output) = options.output_file() else {
        return do_one(&job, files, out, err, meter).status();
    };
    if files.is_same(system_name(job.file), output) {
        return refuse(err, Refusal::Clash(Clash::OutputIsInput));
    }
    do_output(&job, files, output, err, meter).status()
}
