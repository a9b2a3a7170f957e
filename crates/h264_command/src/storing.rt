//! Bytes that are kept in their order: so many in memory, and those after them in a store.
#![tactic(auto)]

ghost use Rattle.std.specs.Prelude.{◌≡◌, ◌≢◌, ◌<◌, ◌≤◌, ◌+◌, ◌++◌, [], length, drop, take, Ok, IfOk, IfSome, IfNone, IsOk, OnErr, MatchResult};
ghost use Rattle.std.specs.Io.{ReadsAtMost};
ghost use Rattle.std.specs.Io.KnownBytes.{Appends, Consumes, IsAtEnd, Keeps, ReadConsumes};
ghost use Rattle.h264_command.specs.Keeping.{GaveAgain, IsKept, IsWithin, count_read, counted_bytes, left_kept};

use std::alloc::Global;
use std::io::{ErrorKind, Read};
use std::{io, mem};

/// Takes bytes, and gives them back once, in the order in which it took them.
pub trait Store: Read {
    /// Takes a piece. Err: it holds none of its bytes.
    fn put(&mut self, piece: &[u8]) -> io::Result<()>
        ensures { MatchResult result (λ _. Appends (Self.remaining self.old) (Self.remaining self.new) piece.now)
            (λ _. Keeps (Self.remaining self.old) (Self.remaining self.new)) };
}

/// How many bytes are kept at most.
#[derive(Clone, Copy)]
pub struct Bounds {
    /// In memory.
    pub memory: usize,
    /// In a store.
    pub store: usize,
}

/// Bytes that are kept, to be given once: those in memory, after them those of the store, and at last a piece that the store refused.
#[derive(Drop)]
pub struct KeptBytes<S: Store + Drop> {
    alloc: Global,
    most: Bounds,
    memory: Vec<u8>,
    /// How many of those in memory were given.
    given: usize,
    store: S,
    /// How many bytes the store holds.
    stored: usize,
    /// The piece that the store refused.
    refused: Vec<u8>,
}

impl<S: Store + Drop> KeptBytes<S> {
    /// No bytes, and a store that holds none.
    pub fn new(alloc: Global, most: Bounds, store: S) -> KeptBytes<S>
        ensures most { result.most ≡ most }
        ensures memory { result.memory.items ≡ [] }
        ensures given { result.given ≡ 0 }
        ensures store { result.store ≡ store }
        ensures stored { result.stored ≡ 0 }
        ensures refused { result.refused.items ≡ [] }
    {
        KeptBytes {
            alloc,
            most,
            memory: Vec::new(alloc),
            given: 0,
            store,
            stored: 0,
            refused: Vec::new(alloc),
        }
    }

    /// Has them given from the first on.
    pub fn begin_again(&mut self)
        ensures { self.new ≡ record self.old { given = 0 } }
    {
        self.given = 0;
    }

    /// Reads on into memory: how many bytes. None where there is no room; then nothing is read.
    fn read_to_memory<R: Read>(
        &mut self,
        reader: &mut R,
        piece: &mut [u8],
    ) -> io::Result<Option<usize>>
        ensures bound { IfOk result (λ r. count_read r ≤ length piece.new) }
        ensures kept { IfOk result (λ r. self.new.memory.items ≡ self.old.memory.items ++ take (count_read r) piece.new) }
        ensures none { OnErr result (self.new.memory.items ≡ self.old.memory.items) }
        // They are the reader's.
        ensures read { MatchResult result (λ r. Consumes (R.remaining reader.old) (R.remaining reader.new) (take (count_read r) piece.new))
            (λ _. Keeps (R.remaining reader.old) (R.remaining reader.new)) }
        ensures unread { IfOk result (λ r. IfNone r (reader.new ≡ reader.old)) }
        ensures end { result ≡ Ok (Some 0) → IsAtEnd (R.remaining reader.new) }
        ensures within { IsWithin self.old → IsWithin self.new }
        ensures others { self.new ≡ record self.old { memory = self.new.memory } }
    {
        let room = self.most.memory.saturating_sub(self.memory.len());
        let count = piece.len().min(room);
        if count == 0 || self.memory.reserve(count).is_err() {
            return Ok(None);
        }
        let n = reader.read(&mut piece[..count])?;
        match self.memory.extend_from_slice(&piece[..n]) {
            Ok(()) => Ok(Some(n)),
            Err(_) => unreachable!(),
        }
    }

    /// Reads on into the store: how many bytes. None where there is no room; then nothing is read. A piece that the store refuses is kept apart: room for it is
    /// taken before it is read.
    fn read_to_store<R: Read>(
        &mut self,
        reader: &mut R,
        piece: &mut [u8],
    ) -> io::Result<Option<usize>>
        requires { self.old.refused.items ≡ [] }
        ensures bound { IfOk result (λ r. count_read r ≤ length piece.new) }
        ensures kept { IfOk result (λ r. IsKept S.remaining self.old self.new (take (count_read r) piece.new)) }
        ensures none { OnErr result (IsKept S.remaining self.old self.new []) }
        // They are the reader's.
        ensures read { MatchResult result (λ r. Consumes (R.remaining reader.old) (R.remaining reader.new) (take (count_read r) piece.new))
            (λ _. Keeps (R.remaining reader.old) (R.remaining reader.new)) }
        ensures unread { IfOk result (λ r. IfNone r (reader.new ≡ reader.old)) }
        ensures end { result ≡ Ok (Some 0) → IsAtEnd (R.remaining reader.new) }
        ensures within { IsWithin self.old → IsWithin self.new }
        ensures others { self.new ≡ record self.old { store = self.new.store; stored = self.new.stored; refused = self.new.refused } }
    {
        let room = self.most.store.saturating_sub(self.stored);
        let count = piece.len().min(room);
        if count == 0 || self.refused.reserve(count).is_err() {
            return Ok(None);
        }
        let n = reader.read(&mut piece[..count])?;
        if n == 0 {
            return Ok(Some(0));
        }
        if self.store.put(&piece[..n]).is_ok() {
            self.stored += n;
            return Ok(Some(n));
        }
        match self.refused.extend_from_slice(&piece[..n]) {
            Ok(()) => Ok(Some(n)),
            Err(_) => unreachable!(),
        }
    }

    /// Reads on, and keeps what is read: how many bytes. None where no more can be kept; then nothing is read. After a piece that the store refused there is
    /// no place for another.
    pub fn read_from<R: Read>(
        &mut self,
        reader: &mut R,
        piece: &mut [u8],
    ) -> io::Result<Option<usize>>
        ensures bound { IfOk result (λ r. count_read r ≤ length piece.new) }
        ensures kept { IfOk result (λ r. IsKept S.remaining self.old self.new (take (count_read r) piece.new)) }
        ensures none { OnErr result (IsKept S.remaining self.old self.new []) }
        // They are the reader's.
        ensures read { MatchResult result (λ r. Consumes (R.remaining reader.old) (R.remaining reader.new) (take (count_read r) piece.new))
            (λ _. Keeps (R.remaining reader.old) (R.remaining reader.new)) }
        ensures unread { IfOk result (λ r. IfNone r (reader.new ≡ reader.old)) }
        ensures end { result ≡ Ok (Some 0) → IsAtEnd (R.remaining reader.new) }
        ensures within { IsWithin self.old → IsWithin self.new }
        ensures others { self.new ≡ record self.old {
          memory = self.new.memory;
          store = self.new.store;
          stored = self.new.stored;
          refused = self.new.refused;
        } }
    {
        if !self.refused.is_empty() {
            return Ok(None);
        }
        if self.stored == 0 {
            if let Some(n) = self.read_to_memory(reader, piece)? {
                return Ok(Some(n));
            }
        }
        self.read_to_store(reader, piece)
    }

    /// Gives the next of those in memory: how many.
    fn give(&mut self, piece: &mut [u8]) -> usize
        ensures gave { GaveAgain (drop self.old.given self.old.memory.items) (drop self.new.given self.new.memory.items) piece.old piece.new result }
        ensures end { result ≡ 0 → 0 < length piece.new → drop self.new.given self.new.memory.items ≡ [] }
        ensures others { self.new ≡ record self.old { given = self.new.given } }
    {
        let left = self.memory.len().saturating_sub(self.given);
        let n = left.min(piece.len());
        if n == 0 {
            return 0;
        }
        let end = self.given + n;
        piece[..n].copy_from_slice(&self.memory[self.given..end]);
        self.given = end;
        n
    }

    /// Gives the next of those in the store: how many. Err also where the store ends before it gave all.
    fn give_stored(&mut self, piece: &mut [u8]) -> io::Result<usize>
        ensures bound { ReadsAtMost result piece.new }
        ensures bytes { MatchResult result (λ n. Consumes (counted_bytes self.old.stored (S.remaining self.old.store))
            (counted_bytes self.new.stored (S.remaining self.new.store)) (take n piece.new))
            (λ _. Keeps (counted_bytes self.old.stored (S.remaining self.old.store)) (counted_bytes self.new.stored (S.remaining self.new.store))) }
        ensures some { IfOk result (λ n. 0 < n) }
        ensures count { IfOk result (λ n. self.new.stored + n ≡ self.old.stored) }
        ensures others { self.new ≡ record self.old { store = self.new.store; stored = self.new.stored } }
    {
        let count = piece.len().min(self.stored);
        let n = self.store.read(&mut piece[..count])?;
        if n == 0 {
            return Err(io::Error::from(ErrorKind::UnexpectedEof));
        }
        self.stored -= n;
        Ok(n)
    }

    /// Puts the piece that the store refused in the place of what was in memory.
    fn turn_to_refused(&mut self)
        ensures left { drop self.old.given self.old.memory.items ≡ [] → self.old.stored ≡ 0 → left_kept S.remaining self.new ≡ left_kept S.remaining self.old }
        ensures memory { self.new.memory ≡ self.old.refused }
        ensures refused { self.new.refused.items ≡ [] }
        ensures others { self.new ≡ record self.old { memory = self.new.memory; given = 0; refused = self.new.refused } }
    {
        self.memory = mem::replace(&mut self.refused, Vec::new(self.alloc));
        self.given = 0;
    }

    /// Gives the next of the piece that the store refused, after which there is nothing: how many.
    fn give_refused(&mut self, piece: &mut [u8]) -> usize
        requires memory { drop self.old.given self.old.memory.items ≡ [] }
        requires stored { self.old.stored ≡ 0 }
        ensures bound { result ≤ length piece.new }
        ensures bytes { Consumes (left_kept S.remaining self.old) (left_kept S.remaining self.new) (take result piece.new) }
        ensures end { result ≡ 0 → 0 < length piece.new → IsAtEnd (left_kept S.remaining self.new) }
        ensures none { self.old.refused.items ≡ [] → result ≡ 0 }
        ensures most { self.new.most ≡ self.old.most }
    {
        self.turn_to_refused();
        self.give(piece)
    }
}

impl<S: Store + Drop> Read for KeptBytes<S> {
    ghost remaining = { λ k. left_kept S.remaining k };

    fn read(&mut self, piece: &mut [u8]) -> io::Result<usize>
        ensures bound { ReadsAtMost result piece.new }
        ensures bytes { ReadConsumes (left_kept S.remaining self.old) (left_kept S.remaining self.new) result piece.new }
        ensures fits { drop self.old.given self.old.memory.items ≢ [] → IsOk result }
        ensures unstored { self.old.stored ≡ 0 → IsOk result }
        ensures gave { drop self.old.given self.old.memory.items ≢ [] → IfOk result (λ n.
            GaveAgain (drop self.old.given self.old.memory.items) (drop self.new.given self.new.memory.items) piece.old piece.new n) }
        // Nothing is given but what was kept.
        ensures end { drop self.old.given self.old.memory.items ≡ [] → self.old.stored ≡ 0 → self.old.refused.items ≡ [] → result ≡ Ok 0 }
        ensures most { self.new.most ≡ self.old.most }
    {
        let n = self.give(piece);
        if n > 0 || piece.is_empty() {
            return Ok(n);
        }
        if self.stored > 0 {
            return self.give_stored(piece);
        }
        Ok(self.give_refused(piece))
    }
}
