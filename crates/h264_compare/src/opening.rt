//! The start of a reconstruction: its first samples, or the header of YUV4MPEG2.
#![tactic(auto)]

ghost use Rattle.std.specs.Prelude.{◌≡◌, ◌<◌, ◌≤◌, length};
ghost use Rattle.h264_compare.specs.Opened.{remaining_of};

use crate::given::{Lack, Layout, read_byte};
use std::io;
use std::io::Read;

/// What begins a file of YUV4MPEG2.
const SIGN: [u8; 10] = *b"YUV4MPEG2 ";

/// How many bytes that is.
const SIGN_LENGTH: usize = 10;

/// The most bytes that a header may have after that.
const MOST_HEADER: usize = 1024;

/// A reader of which the first bytes were read, and are given again.
#[derive(Drop)]
pub struct Ahead<R: Read + Drop> {
    reader: R,
    first: [u8; SIGN_LENGTH],
    /// Those from `next` to `end` are to be given again.
    next: usize,
    end: usize,
}

impl<R: Read + Drop> Read for Ahead<R> {
    ghost use Rattle.h264_compare.specs.Opened.{remaining_of};

    ghost remaining = { λ s. remaining_of R.remaining s };

    fn read(&mut self, buf: &mut [u8]) -> io::Result<usize> {
        if self.next < self.end && self.next < SIGN_LENGTH {
            if buf.is_empty() {
                return Ok(0);
            }
            buf[0] = self.first[self.next];
            self.next += 1;
            return Ok(1);
        }
        self.reader.read(buf)
    }
}

/// What a header says.
#[derive(Clone, Copy, Debug, Default, PartialEq, Eq)]
pub struct Header {
    /// The width in luma samples, where it is a number.
    pub width: Option<u64>,
    /// The height in luma samples, where it is a number.
    pub height: Option<u64>,
    /// Whether it names other samples than 4:2:0 in 8 bits.
    pub other_chroma: bool,
}

/// Why a reconstruction can't be opened.
#[derive(Drop, Debug)]
pub enum Unopened {
    /// It can't be read, by this cause, where the system gives one.
    Unread(Option<io::Error>),
    /// Its header ends within it, is too long, or has no width or no height.
    BadHeader,
    /// Its samples are not 4:2:0 in 8 bits.
    OtherChroma,
}

/// A reconstruction before its first frame.
#[derive(Drop)]
pub struct Opened<R: Read + Drop> {
    pub reader: Ahead<R>,
    pub layout: Layout,
}

/// The number that decimal digits say. None where there is another byte, no digit, or no room for it.
fn number_of(digits: &[u8]) -> Option<u64> {
    if digits.is_empty() {
        return None;
    }
    let mut number: u64 = 0;
    for digit in digits {
        if !digit.is_ascii_digit() {
            return None;
        }
        number = number
            .checked_mul(10)?
            .checked_add(u64::from(*digit & 0x0F))?;
    }
    Some(number)
}

/// Whether a name of samples is one of 4:2:0 in 8 bits.
fn is_420(name: &[u8]) -> bool {
    name == b"420".as_slice()
        || name == b"420jpeg".as_slice()
        || name == b"420mpeg2".as_slice()
        || name == b"420paldv".as_slice()
}

impl Header {
    /// Notes a field: its letter, and what follows.
    fn note(&mut self, field: &[u8]) {
        if field.is_empty() {
            return;
        }
        let value = &field[1..];
        match field[0] {
            b'W' => self.width = number_of(value),
            b'H' => self.height = number_of(value),
            b'C' => self.other_chroma = !is_420(value),
            _ => {}
        }
    }

    /// What the fields of a header say, which blanks part.
    pub fn of(fields: &[u8]) -> Header {
        let mut header = Header::default();
        for field in fields.split(|byte| *byte == b' ') {
            header.note(field);
        }
        header
    }

    /// How the frames lie after it.
    fn layout(self) -> Result<Layout, Unopened> {
        if self.other_chroma {
            return Err(Unopened::OtherChroma);
        }
        match (self.width, self.height) {
            (Some(width), Some(height)) => Ok(Layout::Y4m { width, height }),
            _ => Err(Unopened::BadHeader),
        }
    }
}

/// Reads the rest of a header's line, and what it says.
fn read_header<R: Read>(reader: &mut R) -> Result<Header, Unopened> {
    let mut line = [0; MOST_HEADER];
    for i in 0..MOST_HEADER {
        match read_byte(reader) {
            Ok(b'\n') => return Ok(Header::of(&line[..i])),
            Ok(byte) => line[i] = byte,
            Err(Lack::Unread(cause)) => return Err(Unopened::Unread(cause)),
            Err(_) => return Err(Unopened::BadHeader),
        }
    }
    Err(Unopened::BadHeader)
}

/// Opens a reconstruction: reads the header of YUV4MPEG2, if it begins with one.
pub fn open_reconstruction<R: Read + Drop>(reader: R) -> Result<Opened<R>, Unopened> {
    let mut ahead = Ahead {
        reader,
        first: [0; SIGN_LENGTH],
        next: 0,
        end: 0,
    };
    for i in 0..SIGN_LENGTH {
        match read_byte(&mut ahead.reader) {
            Ok(byte) => {
                ahead.first[i] = byte;
                ahead.end = i + 1;
            }
            Err(Lack::Unread(cause)) => return Err(Unopened::Unread(cause)),
            Err(_) => break,
        }
    }
    if ahead.end < SIGN_LENGTH || ahead.first != SIGN {
        return Ok(Opened {
            reader: ahead,
            layout: Layout::Bare,
        });
    }
    ahead.end = 0;
    let header = read_header(&mut ahead.reader)?;
    let layout = header.layout()?;
    Ok(Opened {
        reader: ahead,
        layout,
    })
}
