//! The command line.
#![tactic(auto)]

ghost use Rattle.std.specs.Prelude.{◌≡◌, ◌-◌, ◌<◌, ◌^◌, ◌⊎◌, Bool, true, false, List, Some, Err, IsErrOf, IfSome, IfNone, codes, map, string_bytes};
ghost use Rattle.h264_base.specs.Call.{HasRoom};
ghost use Rattle.clap.specs.Words.{Text, subcommand_of, takes, kind_of};
ghost use Rattle.clap.specs.declared.error.kind.ErrorKind.TheVariants as kinds;
ghost use Rattle.h264_base.specs.declared.mode.Mode.TheVariants as modes;
ghost use Rattle.h264_lines.specs.Sent.{Sends, Takes, wrote};
ghost use Rattle.h264_report.specs.Written.{OfBytes, Checks, last_line};
ghost use Rattle.h264_command.specs.Commands.{Performs, SaysAlone, TellsFailures, IsExcused, Faults, Comes, ComesTo, failed_read, files_read, span_of};
ghost use Rattle.h264_command.specs.Files.{left_of, HasFailedToRead, HasReadAll, IsUnread, TellsUnread};
ghost use Rattle.h264_words.specs.declared.command_line.Task.TheVariants as tasks;
ghost use Rattle.h264_words.specs.declared.command_line.Wanted.{Wanted as WantedView};
ghost use Rattle.h264_command.specs.declared.outcome.Outcome.TheVariants as outcomes;
ghost use Rattle.h264_words.specs.Words.{program, asks, name_of, value_in, is_judging, IsTarget};
ghost use Rattle.h264_words.specs.Options.{IsPlain};

use crate::files::{OpenedFiles, Opener};
use crate::job::is_told_again;
use crate::outcome::Outcome;
use clap::Error;
use clap::error::ErrorKind;
use h264_base::{Failed, Mode, Stop, Target};
use h264_lines::{Device, Listing, put_text, shown};
use h264_report::{Ending, check, decode, judge_unnoted, list, put_answer, put_memory};
use h264_verify::Source;
use h264_words::command_line::{Request, Task, asked, listed};
use std::alloc::{AllocError, Global};

/// What is said where the words name no task.
const NO_TASK: &str = "h264v: no command is given; h264v --help lists them\n";

/// The exit status of a fault of the words.
pub const FAULT: u8 = 64;

/// Does a task with a file that can be opened, for this target.
fn perform<R: Source, W: Device, E: Device>(
    alloc: Global,
    task: Task,
    target: Target,
    source: &mut R,
    out: &mut W,
    err: &mut E,
) -> Ending
    requires room { HasRoom R.failures source.old }
    requires judging { is_judging task ≡ true }
    ensures excused { IsExcused (HasFailedToRead (R.failures source.old) (R.failures source.new) (R.was_read source.old) (R.was_read source.new))
        (HasReadAll (R.failures source.old) (R.failures source.new)) result
        (span_of W.contents W.has_failed W.holds_back out.old out.new) (span_of E.contents E.has_failed E.holds_back err.old err.new) }
    ensures performs { OfBytes (R.left source.old) (λ bytes. Performs task target bytes result (wrote (W.contents out.old) (W.contents out.new))
        (wrote (E.contents err.old) (E.contents err.new))) }
{
    match task {
        Task::Check => check(alloc, target, source, out),
        Task::Units => list(alloc, Mode::Units, target, Listing::Units, source, out),
        Task::Headers => list(alloc, Mode::Headers, target, Listing::Slices, source, out),
        Task::Frames => list(alloc, Mode::Full, target, Listing::Frames, source, out),
        Task::Decode => decode(alloc, target, source, out, err),
        Task::Elements => list(alloc, Mode::Verdict, target, Listing::Elements, source, out),
        Task::Info => unreachable!(),
        Task::Report => unreachable!(),
        Task::Explain => unreachable!(),
    }
}

/// Says on a device that a file can't be read.
fn put_unread<D: Device>(alloc: Global, device: &mut D) -> Ending
    ensures answer { result.answer ≡ Err Stop.Read }
    ensures says { Takes result.written (D.contents device.old) (D.contents device.new) (last_line modes.Full (Err Stop.Read)) }
    ensures handed_over { result.written ≡ true → D.holds_back device.new ≡ false }
    ensures quiet { result.written ≡ true → D.has_failed device.new ≡ D.has_failed device.old }
    ensures unwritten { result.written ≡ false → D.has_failed device.new ≡ true }
{
    put_answer(alloc, Mode::Full, Err(Stop::Read), device)
}

/// Says that a file can't be opened.
fn no_file<W: Device, E: Device>(alloc: Global, task: Task, out: &mut W, err: &mut E) -> Ending
    requires { is_judging task ≡ true }
    ensures answer { result.answer ≡ Err Stop.Read }
    ensures failures { TellsFailures (failed_read result.written) (span_of W.contents W.has_failed W.holds_back out.old out.new)
        (span_of E.contents E.has_failed E.holds_back err.old err.new) }
    ensures says { SaysAlone task (failed_read result.written) (wrote (W.contents out.old) (W.contents out.new))
        (wrote (E.contents err.old) (E.contents err.new)) }
{
    match task {
        Task::Decode => put_unread(alloc, err),
        Task::Check => put_unread(alloc, out),
        Task::Units => put_unread(alloc, out),
        Task::Headers => put_unread(alloc, out),
        Task::Frames => put_unread(alloc, out),
        Task::Elements => put_unread(alloc, out),
        Task::Info => unreachable!(),
        Task::Report => unreachable!(),
        Task::Explain => unreachable!(),
    }
}

/// Says why words are refused: the exit status of a fault of the words.
fn refused<E: Device>(err: &mut E, text: &str) -> u8
    ensures status { result ≡ 64 }
    ensures handed_over { (E.holds_back err.new ≡ false) ⊎ (E.has_failed err.new ≡ true) }
    ensures told { E.has_failed err.new ≡ false → Sends (E.contents err.old) (E.contents err.new) text.now }
{
    let _ = put_text(err, text);
    FAULT
}

/// The words as they stand in lines. AllocError: there is no memory for them.
fn shown_words(alloc: Global, words: &[String]) -> Result<Vec<String>, AllocError> {
    let mut all: Vec<String> = Vec::new(alloc);
    for word in words.iter() {
        all.push(shown(alloc, word.as_str())?)?;
    }
    Ok(all)
}

/// What is said of words that ask for nothing, with each word in it as it stands in lines. AllocError: there is no memory for it.
fn fault_text(alloc: Global, words: &[String]) -> Result<String, AllocError> {
    let words = shown_words(alloc, words)?;
    if let Err(error) = listed(alloc, words.as_slice()) {
        return format!(in alloc; "{error}");
    }
    match asked(alloc, words.as_slice()) {
        Err(error) => format!(in alloc; "{error}"),
        Ok(_) => String::from_str(alloc, NO_TASK),
    }
}

/// Says why the words ask for nothing: the exit status of a fault of the words. Where memory was wanting for that, it is said on `out`.
fn fault<W: Device, E: Device>(
    alloc: Global,
    given: &[String],
    error: &Error,
    out: &mut W,
    err: &mut E,
) -> u8
    ensures { (words : List Text) → (takes program words ≡ true → kind_of error.now ≡ kinds.OutOfMemory) →
        Faults words result (span_of W.contents W.has_failed W.holds_back out.old out.new) (span_of E.contents E.has_failed E.holds_back err.old err.new) }
{
    if error.kind() == ErrorKind::OutOfMemory {
        return put_memory(out).status();
    }
    match fault_text(alloc, given) {
        Ok(text) => refused(err, text.as_str()),
        Err(_) => put_memory(out).status(),
    }
}

/// Whether a file of this name, which was opened, is judged first without a note of its elements: by `check`, where the file can be read again.
fn is_glanced_at<O: Opener + Drop>(task: Task, name: &str, files: &OpenedFiles<O>) -> bool
    ensures { result ≡ true → task ≡ tasks.Check }
{
    task == Task::Check && files.keep(name)
}

/// Judges the open file without a note of its elements, for this target, and writes the last line of what is told of it. None where a second reading tells it:
/// a no with its last elements, and what was cut short; then nothing is written.
fn glance<O: Opener + Drop, W: Device>(
    alloc: Global,
    target: Target,
    files: &mut OpenedFiles<O>,
    out: &mut W,
) -> Option<Ending>
    requires { files.old.file.failures < 2 ^ 64 - 1 }
    ensures checks { IfSome result (λ ending. OfBytes (left_of O.File.Read.remaining files.old.file.reader)
        (λ bytes. Checks target bytes ending (wrote (W.contents out.old) (W.contents out.new)))) }
    ensures read { IfSome result (λ ending. IsErrOf ending.answer Stop.Read → IsUnread files.old.file.failures files.old.file.reads
        files.new.file.failures files.new.file.reads) }
    // A read that failed is told as Read.
    ensures read_told { IfSome result (λ ending. TellsUnread files.old.file.failures files.new.file.failures ending.answer) }
    ensures write { IfSome result (λ ending. IsErrOf ending.answer Stop.Write → ⊥) }
    ensures quiet { IfSome result (λ ending. ending.written ≡ true → W.has_failed out.new ≡ W.has_failed out.old) }
    ensures handed_over { IfSome result (λ ending. ending.written ≡ true → W.holds_back out.new ≡ false) }
    ensures failed { IfSome result (λ ending. ending.written ≡ false → W.has_failed out.new ≡ true) }
    // Of a reading that was cut short a read that failed is told alone.
    ensures whole { IfSome result (λ ending. (cut : Bool) × O.cut_short files.new.opener cut × (cut ≡ true → IsErrOf ending.answer Stop.Read)) }
    ensures untold { IfNone result (out.new ≡ out.old) }
    ensures unfailed { IfNone result (HasReadAll files.old.file.failures files.new.file.failures) }
    ensures opener { files.new.opener ≡ files.old.opener }
{
    let answer = judge_unnoted(alloc, target, &mut files.file);
    if is_told_again(answer, files.is_cut_short()) {
        return None;
    }
    Some(put_answer(alloc, Mode::Full, answer, out))
}

/// Does what is asked of a file that stands for itself, for this target. Only a no of `check` needs its last elements: a file that can be read again is judged
/// without a note of them first.
fn serve<O: Opener + Drop, W: Device, E: Device>(
    alloc: Global,
    request: Request<'_>,
    target: Target,
    files: &mut OpenedFiles<O>,
    out: &mut W,
    err: &mut E,
) -> u8
    requires room { files.old.file.failures < 2 ^ 64 - 1 }
    requires judging { is_judging request.task ≡ true }
    ensures { (words : List Text) → asks program words ≡ Some (name_of request.entry.task, Some request.entry.file.now) →
        IsPlain (subcommand_of program words) request.entry.file.now →
        IsTarget (value_in (subcommand_of program words) (codes "target")) target → Comes words (files_read (λ name. O.holds files.old.opener name)
        (IsUnread files.old.file.failures files.old.file.reads files.new.file.failures files.new.file.reads)
        (HasReadAll files.old.file.failures files.new.file.failures)) result (span_of W.contents W.has_failed W.holds_back out.old out.new)
        (span_of E.contents E.has_failed E.holds_back err.old err.new) }
{
    let Request { task, file } = request;
    if let Err(Failed) = files.open(file) {
        return no_file(alloc, task, out, err).status();
    }
    if !is_glanced_at(task, file, files) {
        return perform(alloc, task, target, &mut files.file, out, err).status();
    }
    if let Some(ending) = glance(alloc, target, files, out) {
        return ending.status();
    }
    match files.open_again(file) {
        Ok(()) => perform(alloc, task, target, &mut files.file, out, err).status(),
        Err(Failed) => no_file(alloc, task, out, err).status(),
    }
}

/// Does what the words ask, the program's name first among them, where they ask for a judgement of one FILE and have no option but `--target`, and gives
/// the exit status: 0 yes, 1 no, 2 outside, 3 memory, 4 a device failed, 64 a fault of the words, whose text goes to `err`. Else nothing is written, and
/// what they ask is handed on.
pub fn command<'a, O: Opener + Drop, W: Device, E: Device>(
    alloc: Global,
    words: &'a [String],
    files: &mut OpenedFiles<O>,
    out: &mut W,
    err: &mut E,
) -> Outcome<'a>
    requires { files.old.file.failures < 2 ^ 64 - 1 }
    ensures comes { ComesTo (map (λ w. string_bytes w) words.now) (files_read (λ name. O.holds files.old.opener name)
        (IsUnread files.old.file.failures files.old.file.reads files.new.file.failures files.new.file.reads)
        (HasReadAll files.old.file.failures files.new.file.failures)) result
        (span_of W.contents W.has_failed W.holds_back out.old out.new) (span_of E.contents E.has_failed E.holds_back err.old err.new) }
    // No file is opened where what they ask is handed on.
    ensures kept { (wanted : WantedView) → result ≡ outcomes.More wanted → files.new ≡ files.old }
{
    match asked(alloc, words) {
        Err(error) => Outcome::Fault(fault(alloc, words, &error, out, err)),
        Ok(None) => Outcome::Fault(refused(err, NO_TASK)),
        Ok(Some(wanted)) => match wanted.plain_target() {
            Some(target) => {
                let request = wanted.request;
                Outcome::Done(request.file, serve(alloc, request, target, files, out, err))
            }
            None => Outcome::More(wanted),
        },
    }
}
