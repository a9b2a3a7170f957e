//! Files as sources of streams.
#![tactic(auto)]

ghost use Rattle.std.specs.Prelude.{◌≡◌, ℕ, ◌+◌, ◌-◌, ◌<◌, ◌^◌, true, false, nat_lt, Bool, List, Option, None, Some, Ok, IfOk, IfErr, OnOk, OnErr};
ghost use Rattle.h264_base.specs.Call.{HasRoom, IsQuiet};
ghost use Rattle.std.specs.IoError.{error_kind, kind_in, os_error_kinds};
ghost use Rattle.std.specs.Io.KnownBytes.{Keeps};
ghost use Rattle.h264_command.specs.Files.{left_of, one_more, was_read_by};

use h264_base::Failed;
use h264_pages::pages::Start;
use h264_verify::Source;
use std::io;
use std::io::{ErrorKind, Read, Write};

/// Opens what a name stands for.
pub trait Opener {
    /// What is read.
    type File: Read + Drop;

    /// What a file of this name holds, where it is known.
    ghost holds: { Self → List ℕ → Option (List ℕ) } = { λ _ _. None };

    /// The file of this name, to be read from its start.
    fn open(&mut self, name: &str) -> io::Result<Self::File>
        ensures opened { IfOk result (λ file. Keeps (holds self.old name.now) (Self.File.Read.remaining file)) }
        // What is known of the others stays so.
        ensures others { (other : List ℕ) → holds self.new other ≡ holds self.old other };

    /// Prepares the file of this name, which was opened last and of which nothing was read yet, for a second reading by `open_again`. Whether there can be one.
    fn keep(&self, name: &str) -> bool;

    /// The file of this name, which was opened last and kept, to be read again from where it began. What comes of a second reading is told for itself, and may
    /// be another answer where the file was changed meanwhile.
    fn open_again(&mut self, name: &str) -> io::Result<Self::File>
        ensures opened { IfOk result (λ file. Keeps (holds self.old name.now) (Self.File.Read.remaining file)) }
        ensures others { (other : List ℕ) → holds self.new other ≡ holds self.old other };

    /// Whether it may be said of the last reading that it was cut short.
    ghost cut_short: { Self → Bool → Type 0 } = { λ _ _. Unit {0} };

    /// Whether the last reading ended before its file did, since no more of it could be kept. What came of such a reading is nothing to be told.
    fn is_cut_short(&self) -> bool
        ensures { cut_short self.now result };
}

/// Makes files to write to.
pub trait Maker {
    /// What is written to.
    type Output: Write + Drop;

    /// Whether what an output is given goes to the file of this name, once it is finished.
    ghost goes_to: { Self.Output → List ℕ → Type 0 } = { λ _ _. Unit {0} };

    /// Whether an output was finished.
    ghost is_finished: { Self.Output → Type 0 } = { λ _. Unit {0} };

    /// A new output to the file of this name. What has the name keeps it until the output is finished.
    fn make(&mut self, name: &str) -> io::Result<Self::Output>
        ensures named { IfOk result (λ output. goes_to output name.now) };

    /// Gives a whole output its name.
    fn finish(&mut self, output: Self::Output) -> io::Result<()>
        ensures finished { OnOk result (is_finished output) };

    /// Lets go of an output that is not whole. What has its name keeps it.
    fn abandon(&mut self, output: Self::Output);

    /// Whether two names stand for one file.
    fn is_same(&self, name: &str, other: &str) -> bool;
}

/// What was seen of the file that was opened last.
#[derive(Clone, Copy)]
pub struct Seen {
    /// Its first bytes.
    pub start: Start,
    /// Whether its end was read.
    pub ended: bool,
}

impl Seen {
    /// Nothing was seen.
    pub fn new() -> Seen {
        Seen {
            start: Start::new(),
            ended: false,
        }
    }

    /// Notes a read, which put so many bytes at the front of a piece.
    fn note(&mut self, piece: &[u8], read: Option<usize>) {
        let Some(count) = read else {
            return;
        };
        if count == 0 {
            self.ended = true;
        } else if count <= piece.len() {
            self.start.note(&piece[..count]);
        }
    }
}

/// How often a file is read at most.
const MOST_READS: u64 = (1 << 41) - 1;

/// The file that was opened last. Its counts are private: one rises only where a read is tried, and where a file is opened.
#[derive(Drop)]
pub struct OpenFile<F: Read + Drop> {
    reader: Option<F>,
    /// How often it was read.
    reads: u64,
    /// How often it could not be opened or read, or was read too often.
    failures: u64,
    pub seen: Seen,
    /// The system's cause of the last failure.
    pub cause: Option<io::Error>,
}

impl<F: Read + Drop> OpenFile<F> {
    /// No file.
    fn none() -> OpenFile<F>
        ensures reader { result.reader ≡ None }
        ensures reads { result.reads ≡ 0 }
        ensures no_failure { result.failures ≡ 0 }
    {
        OpenFile {
            reader: None,
            reads: 0,
            failures: 0,
            seen: Seen::new(),
            cause: None,
        }
    }

    /// Takes a file that was opened, to be read from its start. Failed: it could not be opened, by a cause that is kept.
    fn begin(&mut self, opened: io::Result<F>) -> Result<(), Failed>
        requires { self.old.failures < 2 ^ 64 - 1 }
        ensures reader { IfOk opened (λ reader. self.new.reader ≡ Some reader) }
        ensures unopened { OnErr result (self.new.reader ≡ self.old.reader) }
        ensures reads { self.new.reads ≡ self.old.reads }
        ensures kept { OnOk result (self.new.failures ≡ self.old.failures) }
        ensures opened { OnErr opened (OnOk result ⊥) }
        ensures failed { OnErr result (self.new.failures ≡ self.old.failures + 1) }
    {
        match opened {
            Ok(reader) => {
                self.reader = Some(reader);
                self.seen = Seen::new();
                Ok(())
            }
            Err(error) => {
                self.cause = Some(error);
                self.fail()
            }
        }
    }

    /// Counts a failure.
    fn fail<T>(&mut self) -> Result<T, Failed>
        requires { self.old.failures < 2 ^ 64 - 1 }
        ensures err { OnOk result ⊥ }
        ensures others { self.new ≡ record self.old { failures = self.old.failures + 1 } }
    {
        self.failures += 1;
        Err(Failed)
    }
}

/// The files of an opener.
#[derive(Drop)]
pub struct OpenedFiles<O: Opener + Drop> {
    opener: O,
    pub file: OpenFile<O::File>,
    /// How many of those that are closed could not be opened or read, or were read too often.
    unread: u64,
}

impl<O: Opener + Drop> OpenedFiles<O> {
    /// Files of which none is open.
    pub fn new(opener: O) -> OpenedFiles<O>
        ensures opener { result.opener ≡ opener }
        ensures reads { result.file.reads ≡ 0 }
        ensures no_failure { result.file.failures ≡ 0 }
        ensures unread { result.unread ≡ 0 }
    {
        OpenedFiles {
            opener,
            file: OpenFile::none(),
            unread: 0,
        }
    }

    /// What opens files.
    pub fn opener(&self) -> &O {
        &self.opener
    }

    /// Prepares the file of this name, which was opened last and of which nothing was read yet, for a second reading by `open_again`. Whether there can be one.
    pub fn keep(&self, name: &str) -> bool {
        self.opener.keep(name)
    }

    /// Whether the last reading ended before its file did, since no more of it could be kept.
    pub fn is_cut_short(&self) -> bool
        ensures { O.cut_short self.now.opener result }
    {
        self.opener.is_cut_short()
    }

    /// Closes the open file, and counts it where it could not be opened or read.
    pub fn close(&mut self)
        ensures opener { self.new.opener ≡ self.old.opener }
        ensures closed { self.new.file.reader ≡ None }
        ensures reads { self.new.file.reads ≡ 0 }
        ensures no_failure { self.new.file.failures ≡ 0 }
        ensures unread { self.new.unread ≡ one_more (nat_lt 0 self.old.file.failures) self.old.unread }
    {
        if self.file.failures > 0 {
            self.unread = self.unread.saturating_add(1);
        }
        self.file = OpenFile::none();
    }

    /// Closes the open file, and forgets the count of those that are closed.
    pub fn restart(&mut self)
        ensures opener { self.new.opener ≡ self.old.opener }
        ensures closed { self.new.file.reader ≡ None }
        ensures reads { self.new.file.reads ≡ 0 }
        ensures no_failure { self.new.file.failures ≡ 0 }
        ensures unread { self.new.unread ≡ 0 }
    {
        self.file = OpenFile::none();
        self.unread = 0;
    }
}

impl<O: Opener + Maker + Drop> OpenedFiles<O> {
    /// A new output to the file of this name.
    pub fn make(&mut self, name: &str) -> io::Result<O::Output>
        ensures named { IfOk result (λ output. O.goes_to output name.now) }
        ensures file { self.new.file ≡ self.old.file }
        ensures unread { self.new.unread ≡ self.old.unread }
    {
        self.opener.make(name)
    }

    /// Gives a whole output its name.
    pub fn finish(&mut self, output: O::Output) -> io::Result<()>
        ensures finished { OnOk result (O.is_finished output) }
        ensures file { self.new.file ≡ self.old.file }
        ensures unread { self.new.unread ≡ self.old.unread }
    {
        self.opener.finish(output)
    }

    /// Lets go of an output that is not whole.
    pub fn abandon(&mut self, output: O::Output)
        ensures file { self.new.file ≡ self.old.file }
        ensures unread { self.new.unread ≡ self.old.unread }
    {
        self.opener.abandon(output);
    }

    /// Whether two names stand for one file.
    pub fn is_same(&self, name: &str, other: &str) -> bool {
        self.opener.is_same(name, other)
    }
}

/// Whether a read that gave this error was interrupted: whether the error is of the kind of EINTR, error 4 of the system.
fn is_interruption(error: &io::Error) -> bool
    ensures yes { result ≡ true → error_kind error.now ≡ kind_in os_error_kinds 4 }
    ensures no { result ≡ false → error_kind error.now ≡ kind_in os_error_kinds 4 → ⊥ }
{
    matches!(error.kind(), ErrorKind::Interrupted)
}

/// What came of a read: so many bytes; or None where it was interrupted, which is no failure.
///
/// Failed: it failed by any other cause, which is kept.
fn outcome(read: io::Result<usize>, cause: &mut Option<io::Error>) -> Result<Option<usize>, Failed>
    ensures bytes { IfOk read (λ n. result ≡ Ok (Some n)) }
    ensures interrupted { IfErr read (λ e. error_kind e ≡ kind_in os_error_kinds 4 → result ≡ Ok None) }
    ensures failed { IfErr read (λ e. (error_kind e ≡ kind_in os_error_kinds 4 → ⊥) → OnOk result ⊥) }
    ensures cause { IfErr read (λ e. (error_kind e ≡ kind_in os_error_kinds 4 → ⊥) → cause.new ≡ Some e) }
    ensures no_cause { OnOk result (cause.new ≡ cause.old) }
{
    match read {
        Ok(n) => Ok(Some(n)),
        Err(error) => {
            if is_interruption(&error) {
                Ok(None)
            } else {
                *cause = Some(error);
                Err(Failed)
            }
        }
    }
}

impl<F: Read + Drop> Source for OpenFile<F> {
    ghost left = { λ s. left_of F.remaining s.reader };

    ghost was_read = { λ s n. was_read_by s.reads s.failures n };

    ghost failures = { λ s. s.failures };

    fn read(&mut self, piece: &mut [u8]) -> Result<Option<usize>, Failed> {
        if self.reads >= MOST_READS {
            return self.fail();
        }
        self.reads += 1;
        let Some(reader) = &mut self.reader else {
            return self.fail();
        };
        match outcome(reader.read(piece), &mut self.cause) {
            Ok(bytes) => {
                self.seen.note(piece, bytes);
                Ok(bytes)
            }
            Err(Failed) => self.fail(),
        }
    }
}

impl<O: Opener + Drop> OpenedFiles<O> {
    /// Opens the file of this name, to be read from its start.
    ///
    /// Failed: it can't be opened.
    pub fn open(&mut self, name: &str) -> Result<(), Failed>
        requires { self.old.file.failures < 2 ^ 64 - 1 }
        ensures opened { OnOk result (Keeps (O.holds self.old.opener name.now) (left_of O.File.Read.remaining self.new.file.reader)) }
        ensures reads { OnOk result ((n : ℕ) → was_read_by self.old.file.reads self.old.file.failures n →
            was_read_by self.new.file.reads self.new.file.failures n) }
        ensures kept { OnOk result (self.new.file.failures ≡ self.old.file.failures) }
        ensures failed { OnErr result (self.new.file.failures ≡ self.old.file.failures + 1) }
        ensures unopened { OnErr result (self.new.file.reader ≡ self.old.file.reader) }
        ensures holds { (other : List ℕ) → O.holds self.new.opener other ≡ O.holds self.old.opener other }
        ensures unread { self.new.unread ≡ self.old.unread }
    {
        let opened = self.opener.open(name);
        self.file.begin(opened)
    }

    /// Opens the file of this name again, which was opened last and kept, to be read from where it began.
    ///
    /// Failed: it can't be opened.
    pub fn open_again(&mut self, name: &str) -> Result<(), Failed>
        requires { self.old.file.failures < 2 ^ 64 - 1 }
        ensures opened { OnOk result (Keeps (O.holds self.old.opener name.now) (left_of O.File.Read.remaining self.new.file.reader)) }
        ensures reads { OnOk result ((n : ℕ) → was_read_by self.old.file.reads self.old.file.failures n →
            was_read_by self.new.file.reads self.new.file.failures n) }
        ensures kept { OnOk result (self.new.file.failures ≡ self.old.file.failures) }
        ensures failed { OnErr result (self.new.file.failures ≡ self.old.file.failures + 1) }
        ensures unopened { OnErr result (self.new.file.reader ≡ self.old.file.reader) }
        ensures holds { (other : List ℕ) → O.holds self.new.opener other ≡ O.holds self.old.opener other }
        ensures unread { self.new.unread ≡ self.old.unread }
    {
        let opened = self.opener.open_again(name);
        self.file.begin(opened)
    }
}
