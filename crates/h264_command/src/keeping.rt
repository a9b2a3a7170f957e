//! An input of which what is read is kept, so that it can be read again from where it began.
#![tactic(auto)]

ghost use Rattle.std.specs.Prelude.{◌≡◌, ◌≢◌, ◌++◌, ◌⊎◌, [], take, drop, Ok, IfOk, IsOk, OnErr, MatchResult, true, false};
ghost use Rattle.std.specs.Io.{ReadsAtMost};
ghost use Rattle.std.specs.Io.KnownBytes.{Appends, Consumes, IsAtEnd, Keeps, ReadConsumes};
ghost use Rattle.h264_command.specs.Keeping.{GaveAgain, IsCounted, IsKept, IsWithin, all_kept, left_kept, to_come};
ghost use Rattle.h264_command.specs.declared.keeping.Stage.TheVariants as stages;

use crate::storing::{Bounds, KeptBytes, Store};
use std::alloc::Global;
use std::cell::RefCell;
use std::io;
use std::io::{ErrorKind, Read};

/// What becomes of the bytes of an input.
#[derive(Clone, Copy)]
enum Stage {
    /// They are given.
    Given,
    /// They are given and kept.
    Kept,
    /// Those that were kept are given once more, and after them those that are left.
    Again,
}

/// An input, and what was kept of it.
#[derive(Drop)]
pub struct KeptInput<R: Read + Drop, S: Store + Drop> {
    reader: R,
    stage: Stage,
    kept: KeptBytes<S>,
    /// Whether the input's end was read while it was kept.
    has_ended: bool,
    /// Whether the last reading ended since no more could be kept.
    is_cut_short: bool,
}

impl<R: Read + Drop, S: Store + Drop> KeptInput<R, S> {
    /// An input of which nothing is kept, and what is to keep it.
    pub fn new(reader: R, kept: KeptBytes<S>) -> KeptInput<R, S>
        ensures reader { result.reader ≡ reader }
        ensures kept { result.kept ≡ kept }
        ensures given { result.stage ≡ stages.Given }
        ensures unended { result.has_ended ≡ false }
        ensures whole { result.is_cut_short ≡ false }
    {
        KeptInput {
            reader,
            stage: Stage::Given,
            kept,
            has_ended: false,
            is_cut_short: false,
        }
    }

    /// Has what is read from now on kept.
    pub fn keep(&mut self)
        ensures { self.new ≡ record self.old { stage = stages.Kept } }
    {
        self.stage = Stage::Kept;
    }

    /// Has what was kept given once more, and after it what is left. Whether anything was to be kept.
    pub fn begin_again(&mut self) -> bool
        ensures start { self.new ≡ record self.old { stage = self.new.stage; kept = record self.old.kept { given = 0 }; is_cut_short = false } }
        ensures again { result ≡ true → (self.old.stage ≡ stages.Kept) × (self.new.stage ≡ stages.Again) }
        ensures none { result ≡ false → (self.old.stage ≢ stages.Kept) × (self.new.stage ≡ self.old.stage) }
    {
        self.is_cut_short = false;
        self.kept.begin_again();
        match self.stage {
            Stage::Kept => {
                self.stage = Stage::Again;
                true
            }
            Stage::Given => false,
            Stage::Again => false,
        }
    }

    /// Whether the last reading ended since no more could be kept, and not at the input's end.
    pub fn is_cut_short(&self) -> bool
        ensures { result ≡ self.now.is_cut_short }
    {
        self.is_cut_short
    }

    /// Reads on, and keeps what is read. Where no more can be kept, nothing is read, and the reading ends.
    fn read_kept(&mut self, piece: &mut [u8]) -> io::Result<usize>
        ensures bound { ReadsAtMost result piece.new }
        ensures kept { IfOk result (λ n. IsKept S.remaining self.old.kept self.new.kept (take n piece.new)) }
        ensures none { OnErr result (IsKept S.remaining self.old.kept self.new.kept []) }
        // Where the store's bytes are known and counted, what is read goes to the end of what is kept.
        ensures order { IfOk result (λ n. IsCounted self.old.kept.stored (S.remaining self.old.kept.store) →
            Appends (all_kept S.remaining self.old.kept) (all_kept S.remaining self.new.kept) (take n piece.new)) }
        ensures counted { IsCounted self.old.kept.stored (S.remaining self.old.kept.store) →
            IsCounted self.new.kept.stored (S.remaining self.new.kept.store) }
        // They are the reader's.
        ensures read { MatchResult result (λ n. Consumes (R.remaining self.old.reader) (R.remaining self.new.reader) (take n piece.new))
            (λ _. Keeps (R.remaining self.old.reader) (R.remaining self.new.reader)) }
        ensures end { result ≡ Ok 0 → (self.new.is_cut_short ≡ true) ⊎ (self.new.has_ended ≡ true) }
        ensures ended { self.old.has_ended ≡ false → self.new.has_ended ≡ true → IsAtEnd (R.remaining self.new.reader) }
        ensures others { self.new ≡ record self.old {
          reader = self.new.reader;
          kept = self.new.kept;
          has_ended = self.new.has_ended;
          is_cut_short = self.new.is_cut_short;
        } }
        ensures within { IsWithin self.old.kept → IsWithin self.new.kept }
        ensures most { self.new.kept.most ≡ self.old.kept.most }
        ensures given { self.new.kept.given ≡ self.old.kept.given }
    {
        match self.kept.read_from(&mut self.reader, piece)? {
            Some(n) => {
                self.has_ended = n == 0;
                Ok(n)
            }
            None => {
                self.is_cut_short = true;
                Ok(0)
            }
        }
    }

    /// Gives what was kept once more, and after it what is left.
    fn read_again(&mut self, piece: &mut [u8]) -> io::Result<usize>
        ensures bound { ReadsAtMost result piece.new }
        ensures fits { drop self.old.kept.given self.old.kept.memory.items ≢ [] → IsOk result }
        ensures gave { drop self.old.kept.given self.old.kept.memory.items ≢ [] → IfOk result (λ n.
            GaveAgain (drop self.old.kept.given self.old.kept.memory.items) (drop self.new.kept.given self.new.kept.memory.items) piece.old piece.new n) }
        // Nothing is read after the end that was read.
        ensures ended { drop self.old.kept.given self.old.kept.memory.items ≡ [] → self.old.kept.stored ≡ 0 → self.old.kept.refused.items ≡ [] →
            self.old.has_ended ≡ true → result ≡ Ok 0 }
        ensures bytes { self.old.stage ≡ stages.Again → ReadConsumes
            (to_come self.old.stage self.old.has_ended (left_kept S.remaining self.old.kept) (R.remaining self.old.reader))
            (to_come self.new.stage self.new.has_ended (left_kept S.remaining self.new.kept) (R.remaining self.new.reader)) result piece.new }
        ensures end { self.new.has_ended ≡ self.old.has_ended }
        ensures most { self.new.kept.most ≡ self.old.kept.most }
    {
        let n = self.kept.read(piece)?;
        if n > 0 || piece.is_empty() || self.has_ended {
            return Ok(n);
        }
        self.stage = Stage::Given;
        self.reader.read(piece)
    }
}

impl<R: Read + Drop, S: Store + Drop> Read for KeptInput<R, S> {
    ghost remaining = { λ s. to_come s.stage s.has_ended (left_kept S.remaining s.kept) (R.remaining s.reader) };

    fn read(&mut self, piece: &mut [u8]) -> io::Result<usize> {
        match self.stage {
            Stage::Given => self.reader.read(piece),
            Stage::Kept => self.read_kept(piece),
            Stage::Again => self.read_again(piece),
        }
    }
}

/// A reader of the input that was opened last.
#[derive(Drop)]
pub struct SharedInput<'a, R: Read + Drop, S: Store + Drop> {
    input: &'a RefCell<Option<KeptInput<R, S>>>,
}

impl<R: Read + Drop, S: Store + Drop> Read for SharedInput<'_, R, S> {
    fn read(&mut self, piece: &mut [u8]) -> io::Result<usize> {
        let mut input = self.input.try_borrow_mut()?;
        match &mut *input {
            Some(input) => input.read(piece),
            None => Err(io::Error::from(ErrorKind::NotFound)),
        }
    }
}

/// Keeps what is read of the input that was opened last, where that is asked.
#[derive(Drop)]
pub struct Keeper<'a, R: Read + Drop, S: Store + Drop> {
    pub alloc: Global,
    /// The input; none before the first is opened.
    pub input: &'a RefCell<Option<KeptInput<R, S>>>,
    /// How many bytes are kept at most.
    pub most: Bounds,
}

impl<'a, R: Read + Drop, S: Store + Drop> Keeper<'a, R, S> {
    /// A reader of this input, of which nothing is kept yet, and a store for what memory is not to hold of it.
    pub fn open(&self, reader: R, store: S) -> io::Result<SharedInput<'a, R, S>> {
        let kept = KeptBytes::new(self.alloc, self.most, store);
        let mut input = self.input.try_borrow_mut()?;
        *input = Some(KeptInput::new(reader, kept));
        Ok(SharedInput { input: self.input })
    }

    /// Has what is read of the input kept, of which nothing was read yet. Whether there is one.
    pub fn keep(&self) -> bool {
        let Ok(mut input) = self.input.try_borrow_mut() else {
            return false;
        };
        match &mut *input {
            Some(input) => {
                input.keep();
                true
            }
            None => false,
        }
    }

    /// A reader of what was kept of the input, and of what is left of it. None where nothing was to be kept.
    pub fn open_again(&self) -> io::Result<Option<SharedInput<'a, R, S>>> {
        let mut input = self.input.try_borrow_mut()?;
        match &mut *input {
            Some(input) => {
                if input.begin_again() {
                    Ok(Some(SharedInput { input: self.input }))
                } else {
                    Ok(None)
                }
            }
            None => Ok(None),
        }
    }

    /// Whether the last reading of the input ended since no more could be kept.
    pub fn is_cut_short(&self) -> bool {
        let Ok(input) = self.input.try_borrow() else {
            return true;
        };
        match &*input {
            Some(input) => input.is_cut_short(),
            None => false,
        }
    }
}
