//! A store of bytes, of whose calls some go wrong.
#![tactic(auto)]

use h264_command::storing::Store;
use std::alloc::Global;
use std::io;
use std::io::{ErrorKind, Read};

/// How many bytes are put into a store at most, and the numbers of the put that it refuses, of the read that fails, and of that from which on it gives nothing.
#[derive(Clone, Copy)]
pub struct Storing {
    pub most: usize,
    pub refused_put: usize,
    pub failing_read: usize,
    pub ending_read: usize,
}

/// A store that takes all, and never fails.
pub const ALL: Storing = Storing {
    most: usize::MAX,
    refused_put: usize::MAX,
    failing_read: usize::MAX,
    ending_read: usize::MAX,
};

/// A store into which nothing is put.
pub const NOTHING: Storing = Storing { most: 0, ..ALL };

/// The bytes of a store, of which each read gives one.
#[derive(Drop)]
pub struct Queue {
    bytes: Vec<u8>,
    /// How many of these were given.
    given: usize,
    storing: Storing,
    puts: usize,
    reads: usize,
}

impl Queue {
    /// None yet.
    pub fn new(alloc: Global, storing: Storing) -> Queue {
        Queue {
            bytes: Vec::new(alloc),
            given: 0,
            storing,
            puts: 0,
            reads: 0,
        }
    }
}

impl Read for Queue {
    fn read(&mut self, piece: &mut [u8]) -> io::Result<usize> {
        let read = self.reads;
        self.reads = self.reads.saturating_add(1);
        if read == self.storing.failing_read {
            return Err(io::Error::from(ErrorKind::Other));
        }
        if self.given >= self.bytes.len() || piece.is_empty() || read >= self.storing.ending_read {
            return Ok(0);
        }
        piece[0] = self.bytes[self.given];
        self.given += 1;
        Ok(1)
    }
}

impl Store for Queue {
    fn put(&mut self, piece: &[u8]) -> io::Result<()> {
        let put = self.puts;
        self.puts = self.puts.saturating_add(1);
        if put == self.storing.refused_put {
            return Err(io::Error::from(ErrorKind::StorageFull));
        }
        self.bytes.extend_from_slice(piece)?;
        Ok(())
    }
}
