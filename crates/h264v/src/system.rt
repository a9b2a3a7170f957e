//! What the system gives: words and files.
#![tactic(auto)]

use crate::folders::{below, names_of};
use crate::output::{SystemOutput, is_link_of_the_system, make_output};
use crate::temporary::TemporaryFile;
use h264_command::files::{Maker, Opener};
use h264_command::handing::{HandingReader, SharedWriter};
use h264_command::keeping::{Keeper, KeptInput, SharedInput};
use h264_command::lists::{Below, Lister};
use h264_command::storing::Bounds;
use h264_words::words::{Words, has_odd_byte, words_of};
use std::alloc::Global;
use std::cell::RefCell;
use std::fs::File;
use std::io::{ErrorKind, Read, Write};
use std::{fs, io};

/// The words that the system gives.
#[derive(Clone, Copy)]
pub struct SystemWords<'a> {
    pub rt: &'a HostRuntime,
}

impl Words for SystemWords<'_> {
    fn words(&self, alloc: Global) -> io::Result<Vec<String>> {
        words_of(self.rt, alloc)
    }
}

/// How many bytes are kept at most of a file that the system gives once, as a pipe. Those of the store are an hour of 9 Mbit/s.
const MOST_KEPT: Bounds = Bounds {
    memory: 16 * 1024 * 1024,
    store: 4 * 1024 * 1024 * 1024,
};

/// A reader of the file that was opened last.
type SystemInput<'a, 'r> = SharedInput<'a, File, TemporaryFile<'r>>;

/// The file that was opened last, and what is kept of it.
pub type Opened<'r> = RefCell<Option<KeptInput<File, TemporaryFile<'r>>>>;

/// The files of the system. Each hands over what waits for standard output before it is read.
#[derive(Drop)]
pub struct SystemFiles<'a, 'r, W: Write + Drop> {
    rt: &'r HostRuntime,
    /// Standard output.
    out: &'a RefCell<W>,
    /// The name that stands for standard input, where it has one of its own.
    input: RefCell<Option<String>>,
    keeper: Keeper<'a, File, TemporaryFile<'r>>,
}

impl<'a, 'r, W: Write + Drop> SystemFiles<'a, 'r, W> {
    /// The files, and standard output.
    pub fn new(
        rt: &'r HostRuntime,
        out: &'a RefCell<W>,
        opened: &'a Opened<'r>,
    ) -> SystemFiles<'a, 'r, W> {
        SystemFiles {
            rt,
            out,
            input: RefCell::new(None),
            keeper: Keeper {
                alloc: rt.alloc(),
                input: opened,
                most: MOST_KEPT,
            },
        }
    }

    /// A reader of this input.
    fn handing(&self, reader: SystemInput<'a, 'r>) -> HandingReader<'a, SystemInput<'a, 'r>, W> {
        HandingReader {
            reader,
            out: SharedWriter { writer: self.out },
        }
    }

    /// Whether this name stands for standard input.
    fn names_input(&self, name: &str) -> bool {
        match self.input.try_borrow() {
            Ok(input) => match &*input {
                Some(input) => input.as_str() == name,
                None => false,
            },
            Err(_) => false,
        }
    }
}

/// The name by which the system knows standard input.
const STANDARD_INPUT: &str = "/dev/stdin";

/// Opens standard input.
fn open_standard_input(rt: &HostRuntime) -> io::Result<File> {
    match fs::open(rt, STANDARD_INPUT) {
        Err(error) if error.kind() == ErrorKind::NotFound => Err(io::Error::new(
            ErrorKind::NotFound,
            "standard input is closed",
        )),
        opened => opened,
    }
}

/// Opens the file of this name.
fn open_input(rt: &HostRuntime, name: &str) -> io::Result<File> {
    if name == STANDARD_INPUT {
        open_standard_input(rt)
    } else if has_odd_byte(name) {
        Err(io::Error::new(
            ErrorKind::InvalidFilename,
            "a name that is not UTF-8: give the file on standard input",
        ))
    } else {
        fs::open(rt, name)
    }
}

/// Whether a name stands for a regular file, and is none of the system's for an open file, of which a part may have been read.
fn is_lasting_file(rt: &HostRuntime, name: &str) -> bool {
    if name == STANDARD_INPUT || is_link_of_the_system(rt, name) {
        return false;
    }
    match fs::metadata(rt, name) {
        Ok(metadata) => metadata.is_file(),
        Err(_) => false,
    }
}

impl<'a, 'r, W: Write + Drop> Opener for SystemFiles<'a, 'r, W> {
    type File = HandingReader<'a, SystemInput<'a, 'r>, W>;

    fn open(&mut self, name: &str) -> io::Result<HandingReader<'a, SystemInput<'a, 'r>, W>> {
        let name = if self.names_input(name) {
            STANDARD_INPUT
        } else {
            name
        };
        let file = open_input(self.rt, name)?;
        Ok(self.handing(self.keeper.open(file, TemporaryFile::new(self.rt))?))
    }

    fn keep(&self, name: &str) -> bool {
        let is_lasting = !self.names_input(name) && is_lasting_file(self.rt, name);
        is_lasting || self.keeper.keep()
    }

    fn open_again(&mut self, name: &str) -> io::Result<HandingReader<'a, SystemInput<'a, 'r>, W>> {
        match self.keeper.open_again()? {
            Some(reader) => Ok(self.handing(reader)),
            None => self.open(name),
        }
    }

    fn is_cut_short(&self) -> bool {
        self.keeper.is_cut_short()
    }
}

impl<W: Write + Drop> Lister for SystemFiles<'_, '_, W> {
    fn listed_in(&self, list: &str) -> io::Result<Vec<String>> {
        let name = if list == "-" { STANDARD_INPUT } else { list };
        let mut bytes: Vec<u8> = Vec::new(self.rt.alloc());
        open_input(self.rt, name)?.read_to_end(&mut bytes)?;
        Ok(names_of(self.rt.alloc(), bytes.as_slice())?)
    }

    fn below(&self, folder: &str) -> io::Result<Below> {
        below(self.rt, folder)
    }

    fn name_input(&self, name: &str) -> io::Result<()> {
        let name = String::from_str(self.rt.alloc(), name)?;
        *self.input.try_borrow_mut()? = Some(name);
        Ok(())
    }
}

impl<'r, W: Write + Drop> Maker for SystemFiles<'_, 'r, W> {
    type Output = SystemOutput<'r>;

    fn make(&mut self, name: &str) -> io::Result<SystemOutput<'r>> {
        make_output(self.rt, name)
    }

    fn finish(&mut self, output: SystemOutput<'r>) -> io::Result<()> {
        output.finish()
    }

    fn abandon(&mut self, output: SystemOutput<'r>) {
        output.abandon();
    }

    fn is_same(&self, name: &str, other: &str) -> bool {
        match (
            fs::canonicalize(self.rt, name),
            fs::canonicalize(self.rt, other),
        ) {
            (Ok(name), Ok(other)) => name == other,
            _ => false,
        }
    }
}
