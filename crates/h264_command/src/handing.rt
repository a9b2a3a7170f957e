//! An output that is handed over before each read of the input, so that no line waits while the input does.
#![tactic(auto)]

use std::cell::RefCell;
use std::io;
use std::io::{Read, Write};

/// A writer that is shared with the readers of the input.
#[derive(Drop)]
pub struct SharedWriter<'a, W: Write + Drop> {
    pub writer: &'a RefCell<W>,
}

impl<W: Write + Drop> Write for SharedWriter<'_, W> {
    fn write(&mut self, bytes: &[u8]) -> io::Result<usize> {
        self.writer.try_borrow_mut()?.write(bytes)
    }

    fn flush(&mut self) -> io::Result<()> {
        self.writer.try_borrow_mut()?.flush()
    }
}

/// A reader that hands over what a writer holds back before it reads. Where that fails, the writer keeps what it holds, and its next write or flush tells it.
#[derive(Drop)]
pub struct HandingReader<'a, R: Read + Drop, W: Write + Drop> {
    pub reader: R,
    pub out: SharedWriter<'a, W>,
}

impl<R: Read + Drop, W: Write + Drop> Read for HandingReader<'_, R, W> {
    fn read(&mut self, piece: &mut [u8]) -> io::Result<usize> {
        let _ = self.out.flush();
        self.reader.read(piece)
    }
}
