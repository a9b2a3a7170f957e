//! The program, over any words, files and streams.
#![tactic(auto)]

ghost use Rattle.std.specs.Prelude.{◌≡◌, ◌-◌, ◌<◌, ◌^◌, List, Some, map, string_bytes};
ghost use Rattle.clap.specs.Words.{Text, subcommand_rows_of};
ghost use Rattle.h264_command.specs.Commands.{output_by, span_by, span_of};
ghost use Rattle.h264_command.specs.Files.{counts};
ghost use Rattle.h264_command.specs.More.{HasTaken, IsStatus, Ends, Runs, RunsOnSome, files_span};

use crate::command::command;
use crate::files::{Maker, OpenedFiles, Opener};
use crate::lists::{Listed, Lister, listed_words};
use crate::more::{blame_output, blame_reading, more};
use crate::outcome::Outcome;
use h264_lines::{Device, WriteDevice};
use h264_pages::survey::{Meter, NoMeter};
use h264_report::put_memory;
use h264_words::command_line::Wanted;
use h264_words::words::Words;
use std::alloc::Global;
use std::io;
use std::io::{ErrorKind, Write};

/// Does what the words ask beside a judgement of one FILE, and tells the meter how far it has come, where that is asked: the exit status.
fn run_more<O, W, E, M>(
    alloc: Global,
    wanted: &Wanted<'_>,
    files: &mut OpenedFiles<O>,
    out: &mut W,
    err: &mut E,
    meter: M,
) -> u8
where
    O: Opener + Maker + Drop,
    W: Device,
    E: Device,
    M: Meter + Drop + Copy,
    requires { files.old.file.failures < 2 ^ 64 - 1 }
    ensures { IsStatus wanted.now.request.task (subcommand_rows_of wanted.now.matches) (files_span (λ name. O.holds files.old.opener name)
        (counts files.old.file.failures files.old.file.reads files.old.unread)
        (counts files.new.file.failures files.new.file.reads files.new.unread) (HasTaken O.goes_to O.is_finished O.Output.Write.contents)) result
        (span_of W.contents W.has_failed W.holds_back out.old out.new)
        (span_of E.contents E.has_failed E.holds_back err.old err.new) }
{
    if wanted.has("progress") {
        return more(alloc, wanted, files, out, err, meter);
    }
    more(alloc, wanted, files, out, err, NoMeter)
}

/// Does what these words ask, the program's name first among them: the exit status. Where a FILE could not be read, standard error is told why.
fn answer_words<O, W, E, M>(
    alloc: Global,
    words: &[String],
    files: &mut OpenedFiles<O>,
    out: &mut WriteDevice<W>,
    err: &mut WriteDevice<E>,
    meter: M,
) -> u8
where
    O: Opener + Maker + Drop,
    W: Write + Drop,
    E: Write + Drop,
    M: Meter + Drop + Copy,
    requires { files.old.file.failures < 2 ^ 64 - 1 }
    ensures { Ends (map (λ w. string_bytes w) words.now) (files_span (λ name. O.holds files.old.opener name)
        (counts files.old.file.failures files.old.file.reads files.old.unread)
        (counts files.new.file.failures files.new.file.reads files.new.unread) (HasTaken O.goes_to O.is_finished O.Output.Write.contents)) result
        (span_by W.contents out.old out.new) (output_by E.contents err.old) }
{
    match command(alloc, words, files, out, err) {
        Outcome::Fault(status) => status,
        Outcome::Done(name, status) => {
            blame_reading(alloc, &files.file, err, name);
            status
        }
        Outcome::More(wanted) => run_more(alloc, &wanted, files, out, err, meter),
    }
}

/// Whether a write failed since no one reads any more, as where `head` has its lines.
fn is_broken_pipe(cause: &Option<io::Error>) -> bool {
    match cause {
        Some(cause) => cause.kind() == ErrorKind::BrokenPipe,
        None => false,
    }
}

/// Does what these words ask, the program's name first among them, or the plain words that stand for them: the exit status.
fn follow_words<O, W, E, M>(
    alloc: Global,
    words: &[String],
    files: &mut OpenedFiles<O>,
    out: &mut WriteDevice<W>,
    err: &mut WriteDevice<E>,
    meter: M,
) -> u8
where
    O: Opener + Maker + Lister + Drop,
    W: Write + Drop,
    E: Write + Drop,
    M: Meter + Drop + Copy,
    requires { files.old.file.failures < 2 ^ 64 - 1 }
    ensures { Runs (map (λ w. string_bytes w) words.now) (files_span (λ name. O.holds files.old.opener name)
        (counts files.old.file.failures files.old.file.reads files.old.unread)
        (counts files.new.file.failures files.new.file.reads files.new.unread) (HasTaken O.goes_to O.is_finished O.Output.Write.contents)) result
        (span_by W.contents out.old out.new) (output_by E.contents err.old) }
{
    match listed_words(alloc, words, files.opener(), err) {
        Ok(None) => answer_words(alloc, words, files, out, err, meter),
        Ok(Some(Listed::Words(plain))) => {
            answer_words(alloc, plain.as_slice(), files, out, err, meter)
        }
        Ok(Some(Listed::Fault(status))) => status,
        Err(_) => put_memory(out).status(),
    }
}

/// Does what these words ask, the program's name first among them: the exit status. Then standard error is told why standard output failed, where it did, but
/// for a pipe that no one reads any more.
pub fn run_words<O, W, E, M>(
    alloc: Global,
    words: &[String],
    files: &mut OpenedFiles<O>,
    out: &mut WriteDevice<W>,
    err: &mut WriteDevice<E>,
    meter: M,
) -> u8
where
    O: Opener + Maker + Lister + Drop,
    W: Write + Drop,
    E: Write + Drop,
    M: Meter + Drop + Copy,
    requires { files.old.file.failures < 2 ^ 64 - 1 }
    ensures { Runs (map (λ w. string_bytes w) words.now) (files_span (λ name. O.holds files.old.opener name)
        (counts files.old.file.failures files.old.file.reads files.old.unread)
        (counts files.new.file.failures files.new.file.reads files.new.unread) (HasTaken O.goes_to O.is_finished O.Output.Write.contents)) result
        (span_by W.contents out.old out.new) (output_by E.contents err.old) }
{
    let status = follow_words(alloc, words, files, out, err, meter);
    if !is_broken_pipe(&out.cause) {
        blame_output(alloc, out, err, "standard output");
    }
    status
}

/// The program: does what the words ask, and gives the exit status; 3 where memory is wanting for the words.
pub fn program<A, O, W, E, M>(
    alloc: Global,
    words: &A,
    files: &mut OpenedFiles<O>,
    out: &mut WriteDevice<W>,
    err: &mut WriteDevice<E>,
    meter: M,
) -> u8
where
    A: Words,
    O: Opener + Maker + Lister + Drop,
    W: Write + Drop,
    E: Write + Drop,
    M: Meter + Drop + Copy,
    requires { files.old.file.failures < 2 ^ 64 - 1 }
    ensures known { (words' : List Text) → A.known words.now ≡ Some words' →
        Runs words' (files_span (λ name. O.holds files.old.opener name)
        (counts files.old.file.failures files.old.file.reads files.old.unread)
        (counts files.new.file.failures files.new.file.reads files.new.unread) (HasTaken O.goes_to O.is_finished O.Output.Write.contents)) result
        (span_by W.contents out.old out.new) (output_by E.contents err.old) }
    ensures some { RunsOnSome (files_span (λ name. O.holds files.old.opener name)
        (counts files.old.file.failures files.old.file.reads files.old.unread)
        (counts files.new.file.failures files.new.file.reads files.new.unread) (HasTaken O.goes_to O.is_finished O.Output.Write.contents)) result
        (span_by W.contents out.old out.new) (output_by E.contents err.old) }
{
    match words.words(alloc) {
        Ok(given) => run_words(alloc, given.as_slice(), files, out, err, meter),
        Err(_) => put_memory(out).status(),
    }
}
