//! That no line waits while the input does: all that was written is handed over before each read.
#![tactic(auto)]

use crate::tests::words;
use h264_command::files::{Maker, OpenedFiles, Opener};
use h264_command::handing::{HandingReader, SharedWriter};
use h264_command::lists::{Below, Lister};
use h264_command::program::run_words;
use h264_lines::WriteDevice;
use h264_pages::survey::NoMeter;
use std::alloc::Global;
use std::cell::RefCell;
use std::io;
use std::io::{ErrorKind, Read, Write};
use std::process::Abort;
use std::test::Fail;

/// A writer that holds back what it is given until it is flushed.
#[derive(Drop)]
struct Held {
    given: usize,
    handed: usize,
}

impl Write for Held {
    fn write(&mut self, bytes: &[u8]) -> io::Result<usize> {
        self.given = self.given.saturating_add(bytes.len());
        Ok(bytes.len())
    }

    fn flush(&mut self) -> io::Result<()> {
        self.handed = self.given;
        Ok(())
    }
}

/// Reads a byte at a time, and notes whether anything was held back meanwhile, and how much was handed over before the last read.
#[derive(Drop)]
struct Watching<'a> {
    rest: &'a [u8],
    out: &'a RefCell<Held>,
    handed: &'a RefCell<usize>,
}

impl Read for Watching<'_> {
    fn read(&mut self, piece: &mut [u8]) -> io::Result<usize> {
        let out = self.out.try_borrow()?;
        if out.handed != out.given {
            return Err(io::Error::from(ErrorKind::Other));
        }
        let mut handed = self.handed.try_borrow_mut()?;
        *handed = out.handed;
        let [first, rest @ ..] = self.rest else {
            return Ok(0);
        };
        if piece.is_empty() {
            return Ok(0);
        }
        piece[0] = *first;
        self.rest = rest;
        Ok(1)
    }
}

/// Opens one stream.
#[derive(Clone, Copy)]
struct Watched<'a> {
    bytes: &'a [u8],
    out: &'a RefCell<Held>,
    handed: &'a RefCell<usize>,
}

impl<'a> Opener for Watched<'a> {
    type File = HandingReader<'a, Watching<'a>, Held>;

    fn open(&mut self, _name: &str) -> io::Result<HandingReader<'a, Watching<'a>, Held>> {
        Ok(HandingReader {
            reader: Watching {
                rest: self.bytes,
                out: self.out,
                handed: self.handed,
            },
            out: SharedWriter { writer: self.out },
        })
    }

    fn keep(&self, _name: &str) -> bool {
        false
    }

    fn open_again(&mut self, name: &str) -> io::Result<HandingReader<'a, Watching<'a>, Held>> {
        self.open(name)
    }

    fn is_cut_short(&self) -> bool {
        false
    }
}

impl Lister for Watched<'_> {
    fn listed_in(&self, _list: &str) -> io::Result<Vec<String>> {
        Err(io::Error::from(ErrorKind::NotFound))
    }

    fn below(&self, _folder: &str) -> io::Result<Below> {
        Err(io::Error::from(ErrorKind::NotFound))
    }

    fn name_input(&self, _name: &str) -> io::Result<()> {
        Ok(())
    }
}

impl Maker for Watched<'_> {
    type Output = Held;

    fn make(&mut self, _name: &str) -> io::Result<Held> {
        Err(io::Error::from(ErrorKind::PermissionDenied))
    }

    fn finish(&mut self, _output: Held) -> io::Result<()> {
        Ok(())
    }

    fn abandon(&mut self, _output: Held) {}

    fn is_same(&self, _name: &str, _other: &str) -> bool {
        false
    }
}

/// Three units, and the start code of a fourth.
const STREAM: &str = "000000016742c00ada710000000168ce388000000165888493c0000001619a22a0000001";

/// The lines of the first three units.
const LINES: &str =
    "unit 4 type 7 ref 3 bytes 6\nunit 14 type 8 ref 3 bytes 4\nunit 21 type 5 ref 3 bytes 5\nunit 29 type 1 ref 3 bytes 4\n";

#[test]
fn handed_over_before_each_read(rt: HostRuntime) -> Result<(), Fail> {
    let alloc: Global = rt.alloc();
    let stream = hex::decode(alloc, STREAM)?;
    let shared = RefCell::new(Held {
        given: 0,
        handed: 0,
    });
    let handed = RefCell::new(0usize);
    let mut files = OpenedFiles::new(Watched {
        bytes: stream.as_slice(),
        out: &shared,
        handed: &handed,
    });
    let mut out = WriteDevice::new(SharedWriter { writer: &shared });
    let mut err: WriteDevice<Vec<u8>> = WriteDevice::new(Vec::new(alloc));
    let words = words(alloc, &["h264v", "units", "stream"])?;
    let status = run_words(
        alloc,
        words.as_slice(),
        &mut files,
        &mut out,
        &mut err,
        NoMeter,
    );
    // The last start code has no unit.
    assert_eq!(rt; status, 1);
    assert_eq!(rt; *handed.try_borrow()?, LINES.len());
    Ok(())
}
