//! What the program writes to words and a stream: what no contract says of it, its texts and its statuses.
#![tactic(auto)]

use crate::check_tests::{RULES, SAMPLES, SLICE_DATA};
use crate::frame_tests::{COMPUTED, CROPPED, FRAMES};
use crate::header_tests::{MARKINGS, PICTURES};
use crate::set_tests::{SETS_0, SETS_1, SETS_2, SETS_3};
use crate::stores::{NOTHING, Queue, Storing};
use crate::target_tests::{FOR_BASELINE, FOR_MAIN_IP};
use h264_command::files::{Maker, OpenedFiles, Opener};
use h264_command::keeping::{Keeper, SharedInput};
use h264_command::lists::{Below, Lister};
use h264_command::program::run_words;
use h264_command::storing::Bounds;
use h264_lines::{WriteDevice, shown};
use h264_pages::survey::NoMeter;
use h264_words::glob::is_match;
use h264_words::words::words_of;
use md5::{Digest, Md5};
use std::alloc::Global;
use std::cell::RefCell;
use std::env::{Env, FillError};
use std::io;
use std::io::{ErrorKind, Read, Write};
use std::process::Abort;
use std::test::Fail;

/// How many bytes a read and a write take at most, and the numbers of the read, of the write on standard output and of that on standard error that fail.
#[derive(Clone, Copy)]
pub struct Devices {
    /// How often the stream can be opened, where it can be read again.
    pub openings: Option<usize>,
    /// How many of its bytes can be kept in memory, where it can be read once and is kept.
    pub most_kept: Option<usize>,
    /// The store for what memory is not to hold.
    pub storing: Storing,
    pub read_size: usize,
    /// The number of the opening in which a read fails.
    pub failing_opening: usize,
    pub failing_read: usize,
    pub write_size: usize,
    pub failing_write: usize,
    pub failing_error: usize,
}

/// Devices that take all, and never fail.
pub const WELL: Devices = Devices {
    openings: None,
    most_kept: None,
    storing: NOTHING,
    read_size: usize::MAX,
    failing_opening: 0,
    failing_read: usize::MAX,
    write_size: usize::MAX,
    failing_write: usize::MAX,
    failing_error: usize::MAX,
};

/// A file of bytes, of which a read fails.
#[derive(Drop)]
struct Pieces<'a> {
    rest: &'a [u8],
    reads: usize,
    size: usize,
    failing: usize,
}

impl Read for Pieces<'_> {
    fn read(&mut self, piece: &mut [u8]) -> io::Result<usize> {
        let read = self.reads;
        self.reads = self.reads.saturating_add(1);
        if read == self.failing {
            return Err(io::Error::from(ErrorKind::Other));
        }
        let wanted = self.size.min(self.rest.len()).min(piece.len());
        let (front, rest) = self.rest.split_at(wanted);
        piece[..wanted].copy_from_slice(front);
        self.rest = rest;
        Ok(wanted)
    }
}

/// Opens the one stream that there is, by any name that begins with `stream`, and makes outputs: none of the name `full`, and one of the name `kept` that can't
/// be finished.
#[derive(Drop)]
struct OneStream<'a, 'b> {
    alloc: Global,
    bytes: &'b [u8],
    devices: Devices,
    /// How often it was opened.
    opened: usize,
    keeper: Keeper<'a, Pieces<'b>, Queue>,
    /// The output that was finished.
    finished: &'a RefCell<Option<Vec<u8>>>,
}

impl<'a, 'b> Opener for OneStream<'a, 'b> {
    type File = SharedInput<'a, Pieces<'b>, Queue>;

    fn open(&mut self, name: &str) -> io::Result<SharedInput<'a, Pieces<'b>, Queue>> {
        let opening = self.opened;
        self.opened = self.opened.saturating_add(1);
        let can_open = self.devices.openings.is_none_or(|most| opening < most);
        if !name.starts_with("stream") || !can_open {
            return Err(io::Error::from(ErrorKind::NotFound));
        }
        let fails = opening == self.devices.failing_opening;
        let pieces = Pieces {
            rest: self.bytes,
            reads: 0,
            size: self.devices.read_size,
            failing: if fails {
                self.devices.failing_read
            } else {
                usize::MAX
            },
        };
        let store = Queue::new(self.alloc, self.devices.storing);
        self.keeper.open(pieces, store)
    }

    fn keep(&self, _name: &str) -> bool {
        self.devices.openings.is_some() || self.devices.most_kept.is_some() && self.keeper.keep()
    }

    fn open_again(&mut self, name: &str) -> io::Result<SharedInput<'a, Pieces<'b>, Queue>> {
        match self.keeper.open_again()? {
            Some(reader) => Ok(reader),
            None => self.open(name),
        }
    }

    fn is_cut_short(&self) -> bool {
        self.keeper.is_cut_short()
    }
}

/// An output, and whether it can be finished.
#[derive(Drop)]
struct Output {
    text: Vec<u8>,
    can_finish: bool,
}

impl Write for Output {
    fn write(&mut self, bytes: &[u8]) -> io::Result<usize> {
        self.text.write(bytes)
    }

    fn flush(&mut self) -> io::Result<()> {
        Ok(())
    }
}

impl Maker for OneStream<'_, '_> {
    type Output = Output;

    fn make(&mut self, name: &str) -> io::Result<Output> {
        if name == "full" {
            return Err(io::Error::from(ErrorKind::PermissionDenied));
        }
        Ok(Output {
            text: Vec::new(self.alloc),
            can_finish: name != "kept",
        })
    }

    fn finish(&mut self, output: Output) -> io::Result<()> {
        let Output { text, can_finish } = output;
        if !can_finish {
            return Err(io::Error::from(ErrorKind::PermissionDenied));
        }
        let mut finished = self.finished.try_borrow_mut()?;
        *finished = Some(text);
        Ok(())
    }

    fn abandon(&mut self, _output: Output) {}

    fn is_same(&self, name: &str, other: &str) -> bool {
        name == other
    }
}

/// Two files below any folder but `none`, one of which is no stream's, and beside them a socket; a list has two names.
impl Lister for OneStream<'_, '_> {
    fn listed_in(&self, list: &str) -> io::Result<Vec<String>> {
        if list != "list" {
            return Err(io::Error::from(ErrorKind::NotFound));
        }
        names(self.alloc, &["stream", "-"])
    }

    fn below(&self, folder: &str) -> io::Result<Below> {
        if folder == "none" {
            return Err(io::Error::from(ErrorKind::NotFound));
        }
        Ok(Below {
            files: names(
                self.alloc,
                &["stream/1.264", "stream/2.h264", "stream/3.264"],
            )?,
            others: names(self.alloc, &["stream/socket"])?,
        })
    }

    fn name_input(&self, _name: &str) -> io::Result<()> {
        Ok(())
    }
}

/// Names, as a list has them.
fn names(alloc: Global, given: &[&str]) -> io::Result<Vec<String>> {
    let mut names: Vec<String> = Vec::new(alloc);
    for name in given {
        names.push(String::from_str(alloc, name)?)?;
    }
    Ok(names)
}

/// A writer that takes at most so many bytes a call, and fails at the call of this number, and at no other.
#[derive(Drop)]
struct FailsAt {
    text: Vec<u8>,
    calls: usize,
    size: usize,
    failing: usize,
}

impl Write for FailsAt {
    fn write(&mut self, bytes: &[u8]) -> io::Result<usize> {
        let call = self.calls;
        self.calls = self.calls.saturating_add(1);
        if call == self.failing {
            return Err(io::Error::from(ErrorKind::Other));
        }
        self.text.write(&bytes[..bytes.len().min(self.size)])
    }

    fn flush(&mut self) -> io::Result<()> {
        Ok(())
    }
}

/// What was written, and the status.
#[derive(Drop)]
pub struct Written {
    pub out: Vec<u8>,
    pub err: Vec<u8>,
    /// How many writes of `out` there were.
    pub writes: usize,
    /// The output of `--output`, where it was finished.
    pub finished: Option<Vec<u8>>,
    pub status: u8,
}

/// A writer that holds nothing yet.
fn writer(alloc: Global, size: usize, failing: usize) -> FailsAt {
    FailsAt {
        text: Vec::new(alloc),
        calls: 0,
        size,
        failing,
    }
}

/// The words of a command line.
pub fn words(alloc: Global, given: &[&str]) -> Result<Vec<String>, Fail> {
    let mut words: Vec<String> = Vec::new(alloc);
    for word in given {
        words.push(String::from_str(alloc, word)?)?;
    }
    Ok(words)
}

/// What the program writes to words, over a stream that comes by such devices.
fn run_over(alloc: Global, words: &[String], bytes: &[u8], devices: Devices) -> Written {
    let finished = RefCell::new(None);
    let opened = RefCell::new(None);
    let keeper = Keeper {
        alloc,
        input: &opened,
        most: Bounds {
            memory: devices.most_kept.unwrap_or(0),
            store: devices.storing.most,
        },
    };
    let mut files = OpenedFiles::new(OneStream {
        alloc,
        bytes,
        devices,
        opened: 0,
        keeper,
        finished: &finished,
    });
    let mut out = WriteDevice::new(writer(alloc, devices.write_size, devices.failing_write));
    let mut err = WriteDevice::new(writer(alloc, devices.write_size, devices.failing_error));
    let status = run_words(alloc, words, &mut files, &mut out, &mut err, NoMeter);
    let WriteDevice { writer: out, .. } = out;
    let WriteDevice { writer: err, .. } = err;
    Written {
        out: out.text,
        err: err.text,
        writes: out.calls,
        finished: finished.into_inner(),
        status,
    }
}

/// What the program writes to the words given.
pub fn answer(
    alloc: Global,
    given: &[&str],
    bytes: &[u8],
    devices: Devices,
) -> Result<Written, Fail> {
    let words = words(alloc, given)?;
    Ok(run_over(alloc, words.as_slice(), bytes, devices))
}

/// Whether bytes begin so.
pub fn begins_with(bytes: &[u8], front: &[u8]) -> bool {
    front.len() <= bytes.len() && &bytes[..front.len()] == front
}

/// Whether bytes end so.
pub fn ends_with(bytes: &[u8], end: &[u8]) -> bool {
    end.len() <= bytes.len() && &bytes[bytes.len() - end.len()..] == end
}

/// A stream in hexadecimal digits, what is printed of it, and the status.
pub struct Case {
    pub name: &'static str,
    pub stream: &'static str,
    pub text: &'static str,
    pub status: u8,
}

const UNITS: [&str; 3] = ["h264v", "units", "stream"];

const HEADERS: [&str; 3] = ["h264v", "headers", "stream"];

const CHECK: [&str; 3] = ["h264v", "check", "stream"];

const FRAMES_OF: [&str; 3] = ["h264v", "frames", "stream"];

const CHECK_BASELINE: [&str; 5] = ["h264v", "check", "--target", "baseline", "stream"];

const CHECK_MAIN_IP: [&str; 5] = ["h264v", "check", "--target", "main-ip", "stream"];

/// That a text ends with this one, before which lines of elements may stand, where it has none.
fn check_end(rt: &impl Abort, all: &Written, text: &[u8], name: &str) {
    let out = all.out.as_slice();
    assert!(rt; ends_with(out, text), "{name}");
    let has_more = begins_with(out, b"element ") && !begins_with(text, b"element ");
    assert!(rt; out.len() == text.len() || has_more, "{name}");
}

/// That the words answer to streams as these cases say.
fn check_cases(
    rt: &(impl Abort + AllocGlobal),
    words: &[&str],
    cases: &[Case],
) -> Result<(), Fail> {
    for case in cases {
        let stream = hex::decode(rt.alloc(), case.stream)?;
        let all = answer(rt.alloc(), words, stream.as_slice(), WELL)?;
        check_end(rt, &all, case.text.as_bytes(), case.name);
        assert_eq!(rt; all.status, case.status, "{}", case.name);
    }
    Ok(())
}

/// The stream of one frame.
const ONE_FRAME: &[u8] = &[
    0x00, 0x00, 0x00, 0x01, 0x67, 0x42, 0xC0, 0x0A, 0xDA, 0x71, 0x00, 0x00, 0x00, 0x01, 0x68, 0xCE,
    0x38, 0x80, 0x00, 0x00, 0x01, 0x65, 0x88, 0x84, 0x93, 0xC0,
];

/// What `units` says last of each front of the stream of one frame, from no byte on: the rule that it breaks after its last byte, or yes.
const FRONTS_AS_UNITS: [&str; 26] = [
    "yes: units 0\n",
    "yes: units 0\n",
    "yes: units 0\n",
    "yes: units 0\n",
    "no: bit 32: EmptyUnit (clause B.1)\n",
    "no: bit 40: CodeWord (clause 9.1)\n",
    "no: bit 48: CodeWord (clause 9.1)\n",
    "no: bit 56: CodeWord (clause 9.1)\n",
    "no: bit 64: CodeWord (clause 9.1)\n",
    "no: bit 72: CodeWord (clause 9.1)\n",
    "yes: units 1\n",
    "yes: units 1\n",
    "yes: units 1\n",
    "yes: units 1\n",
    "no: bit 112: EmptyUnit (clause B.1)\n",
    "no: bit 120: CodeWord (clause 9.1)\n",
    "no: bit 128: CodeWord (clause 9.1)\n",
    "no: bit 136: Trailing (clause 7.3.2)\n",
    "yes: units 2\n",
    "yes: units 2\n",
    "yes: units 2\n",
    "no: bit 168: EmptyUnit (clause B.1)\n",
    "yes: units 3\n",
    "yes: units 3\n",
    "yes: units 3\n",
    "yes: units 3\n",
];

/// What `check` says last of each front of it, from no byte on: each breaks a rule after its last byte.
const FRONTS_AS_CHECK: [&str; 26] = [
    "no: bit 0: NoPicture (clause 7.4.1)\n",
    "no: bit 8: NoPicture (clause 7.4.1)\n",
    "no: bit 16: NoPicture (clause 7.4.1)\n",
    "no: bit 24: NoPicture (clause 7.4.1)\n",
    "no: bit 32: EmptyUnit (clause B.1)\n",
    "no: bit 40: CodeWord (clause 9.1)\n",
    "no: bit 48: CodeWord (clause 9.1)\n",
    "no: bit 56: CodeWord (clause 9.1)\n",
    "no: bit 64: CodeWord (clause 9.1)\n",
    "no: bit 72: CodeWord (clause 9.1)\n",
    "no: bit 80: NoPicture (clause 7.4.1)\n",
    "no: bit 88: NoPicture (clause 7.4.1)\n",
    "no: bit 96: NoPicture (clause 7.4.1)\n",
    "no: bit 104: NoPicture (clause 7.4.1)\n",
    "no: bit 112: EmptyUnit (clause B.1)\n",
    "no: bit 120: CodeWord (clause 9.1)\n",
    "no: bit 128: CodeWord (clause 9.1)\n",
    "no: bit 136: Trailing (clause 7.3.2)\n",
    "no: bit 144: NoPicture (clause 7.4.1)\n",
    "no: bit 152: NoPicture (clause 7.4.1)\n",
    "no: bit 160: NoPicture (clause 7.4.1)\n",
    "no: bit 168: EmptyUnit (clause B.1)\n",
    "no: bit 176: CodeWord (clause 9.1)\n",
    "no: bit 184: CodeWord (clause 9.1)\n",
    "no: bit 192: CodeWord (clause 9.1)\n",
    "no: bit 200: ResidualWord (clause 9.2)\n",
];

/// That the answers to each front of the stream of one frame end so.
fn check_fronts(
    rt: &(impl Abort + AllocGlobal),
    words: &[&str],
    ends: &[&str],
) -> Result<(), Fail> {
    for (length, end) in ends.iter().enumerate() {
        let (front, _) = ONE_FRAME.split_at(length.min(ONE_FRAME.len()));
        let all = answer(rt.alloc(), words, front, WELL)?;
        assert!(rt; ends_with(all.out.as_slice(), end.as_bytes()), "{length}");
    }
    Ok(())
}

/// Streams and the headers of their units, of which `units` judges nothing more.
const STREAMS: [Case; 12] = [
    Case {
        name: "nothing",
        stream: "",
        text: "yes: units 0\n",
        status: 0,
    },
    Case {
        name: "one frame",
        stream: "000000016742c00ada710000000168ce388000000165888493c0",
        text: "unit 4 type 7 ref 3 bytes 6\nunit 14 type 8 ref 3 bytes 4\nunit 21 type 5 ref 3 bytes 5\nyes: units 3\n",
        status: 0,
    },
    Case {
        name: "emulation broken",
        stream: "000000016742c00ada710000000168ce388000000165888493c000000106050000030480",
        text: "unit 4 type 7 ref 3 bytes 6\nunit 14 type 8 ref 3 bytes 4\nunit 21 type 5 ref 3 bytes 5\nno: bit 272: Emulation (clause 7.4.1)\n",
        status: 1,
    },
    Case {
        name: "stray byte",
        stream: "000002",
        text: "no: bit 16: ByteStream (clause B.1)\n",
        status: 1,
    },
    Case {
        name: "bare start code",
        stream: "000001",
        text: "no: bit 24: EmptyUnit (clause B.1)\n",
        status: 1,
    },
    Case {
        name: "bare start code and zeros",
        stream: "000001000000",
        text: "no: bit 24: EmptyUnit (clause B.1)\n",
        status: 1,
    },
    Case {
        name: "header rules",
        stream: "000001e7",
        text: "no: bit 24: ForbiddenBit (clause 7.4.1)\n",
        status: 1,
    },
    Case {
        name: "set that is no reference",
        stream: "00000107",
        text: "no: bit 24: RefIdc (clause 7.4.1)\n",
        status: 1,
    },
    Case {
        name: "delimiter that is a reference",
        stream: "00000129",
        text: "no: bit 24: RefIdc (clause 7.4.1)\n",
        status: 1,
    },
    Case {
        name: "partition",
        stream: "00000142",
        text: "no: bit 24: Partition (clause A.2)\n",
        status: 1,
    },
    // A second frame, which is a skipped macroblock.
    Case {
        name: "two frames",
        stream: "000000016742c00ada710000000168ce388000000165888493c0000001619a22a0",
        text: "unit 4 type 7 ref 3 bytes 6\nunit 14 type 8 ref 3 bytes 4\nunit 21 type 5 ref 3 bytes 5\nunit 29 type 1 ref 3 bytes 4\nyes: units 4\n",
        status: 0,
    },
    // A gap in frame_num, which `units` does not look at.
    Case {
        name: "gap",
        stream: "000000016742c00ada710000000168ce388000000165888493c0000001619a42a0",
        text: "unit 4 type 7 ref 3 bytes 6\nunit 14 type 8 ref 3 bytes 4\nunit 21 type 5 ref 3 bytes 5\nunit 29 type 1 ref 3 bytes 4\nyes: units 4\n",
        status: 0,
    },
];

/// Levels, profiles, sizes and buffers of sequence parameter sets.
const SETS: [Case; 16] = [
    Case {
        name: "frame too large",
        stream: "000000016742c00ada0c1310",
        text: "unit 4 type 7 ref 3 bytes 8\nno: bit 80: FrameSize (clause A.3)\n",
        status: 1,
    },
    Case {
        name: "frame that fits",
        stream: "000000016742c00ada0b1310",
        text: "unit 4 type 7 ref 3 bytes 8\nyes: units 1\n",
        status: 0,
    },
    Case {
        name: "level 6",
        stream: "000000016742c03cda71",
        text: "unit 4 type 7 ref 3 bytes 6\noutside: bit 56: Level6\n",
        status: 2,
    },
    Case {
        name: "buffer of the vui",
        stream: "000000016742c00ada7201e306540000000168ce388000000165888493c0",
        text: "unit 4 type 7 ref 3 bytes 10\nunit 18 type 8 ref 3 bytes 4\nunit 25 type 5 ref 3 bytes 5\nyes: units 3\n",
        status: 0,
    },
    Case {
        name: "buffer below the references",
        stream: "000000016742c00ada7201e306700000000168ce388000000165888493c0",
        text: "unit 4 type 7 ref 3 bytes 10\nno: bit 106: Vui (clause E.2)\n",
        status: 1,
    },
    Case {
        name: "level idc 9",
        stream: "000000016742c009da0b1310",
        text: "unit 4 type 7 ref 3 bytes 8\nyes: units 1\n",
        status: 0,
    },
    Case {
        name: "level idc 10",
        stream: "000000016742c00ada0b1310",
        text: "unit 4 type 7 ref 3 bytes 8\nyes: units 1\n",
        status: 0,
    },
    Case {
        name: "level idc 52",
        stream: "000000016742c034da0b1310",
        text: "unit 4 type 7 ref 3 bytes 8\nyes: units 1\n",
        status: 0,
    },
    Case {
        name: "level idc 99",
        stream: "000000016742c063da0b1310",
        text: "unit 4 type 7 ref 3 bytes 8\nno: bit 56: Range (clause 7.4)\n",
        status: 1,
    },
    Case {
        name: "level idc 62",
        stream: "000000016742c03eda0b1310",
        text: "unit 4 type 7 ref 3 bytes 8\noutside: bit 56: Level6\n",
        status: 2,
    },
    Case {
        name: "level 11",
        stream: "000000016742c00bda0c1310",
        text: "unit 4 type 7 ref 3 bytes 8\nyes: units 1\n",
        status: 0,
    },
    Case {
        name: "level 1b by its flag",
        stream: "000000016742d00bda0c1310",
        text: "unit 4 type 7 ref 3 bytes 8\nno: bit 80: FrameSize (clause A.3)\n",
        status: 1,
    },
    Case {
        name: "main profile alone",
        stream: "00000001674d000ada71",
        text: "unit 4 type 7 ref 3 bytes 6\nno: bit 40: Profile (clause A.2)\n",
        status: 1,
    },
    Case {
        name: "main profile with its flag",
        stream: "00000001674d800ada71",
        text: "unit 4 type 7 ref 3 bytes 6\nyes: units 1\n",
        status: 0,
    },
    // Two sets whose VUI gives buffers of one frame and of two.
    Case {
        name: "buffers of one and two frames",
        stream: "000000016742c00af4e403f4a0000000016742c00af4e403f4e0",
        text: "unit 4 type 7 ref 3 bytes 9\nunit 17 type 7 ref 3 bytes 9\nyes: units 2\n",
        status: 0,
    },
    // A set that allows gaps in frame_num, with two reference frames.
    Case {
        name: "set that allows gaps",
        stream: "000000016742c00adbf1",
        text: "unit 4 type 7 ref 3 bytes 6\nyes: units 1\n",
        status: 0,
    },
];

/// Arguments of which the first is `h264v`, and the second is these bytes.
#[derive(Drop)]
struct Arguments<'a> {
    second: &'a [u8],
}

impl Arguments<'_> {
    fn bytes(&self, i: usize) -> Result<&[u8], FillError> {
        match i {
            0 => Ok(b"h264v"),
            1 => Ok(self.second),
            _ => Err(FillError::NotPresent),
        }
    }
}

impl Env for Arguments<'_> {
    fn arg(&self, i: usize, buf: &mut [u8]) -> Result<usize, FillError> {
        let bytes = self.bytes(i)?;
        if bytes.len() > buf.len() {
            return Err(FillError::TooLong);
        }
        buf[..bytes.len()].copy_from_slice(bytes);
        Ok(bytes.len())
    }

    fn var(&self, _name: &str, _buf: &mut [u8]) -> Result<usize, FillError> {
        Err(FillError::NotPresent)
    }

    fn var_at(&self, _i: usize, _buf: &mut [u8]) -> Result<usize, FillError> {
        Err(FillError::NotPresent)
    }
}

/// The digest of the text `abc`, as RFC 1321 has it.
#[test]
fn digest_of_abc(rt: HostRuntime) -> Result<(), Fail> {
    let mut hasher = Md5::new();
    hasher.update(b"abc".as_slice());
    let digits = hex::encode(rt.alloc(), hasher.finalize())?;
    assert_eq!(rt; digits.as_str(), "900150983cd24fb0d6963f7d28e17f72");
    Ok(())
}

/// Bytes of an argument, the word that is made of them, and how a line has it.
const ARGUMENTS: [(&[u8], &str, &str); 4] = [
    (b"units", "units", "units"),
    (b"caf\xC3\xA9.264", "caf\u{e9}.264", "caf\u{e9}.264"),
    (b"a\xFF.264", "a\0ff.264", "a\\xff.264"),
    (
        b"\xE9\n\x1B\xC2\x9B\\",
        "\0e9\n\x1B\u{9B}\\",
        "\\xe9\\n\\x1b\\xc2\\x9b\\\\",
    ),
];

/// Patterns and names, and whether they match.
const PATTERNS: [(&str, &str, bool); 10] = [
    ("*.264", "clip.264", true),
    ("*.264", "clip.h264", false),
    ("*264", "clip.h264", true),
    ("clip", "clip", true),
    ("clip", "clips", false),
    ("c?ip", "clip", true),
    ("c?ip", "cip", false),
    ("caf?", "caf\u{e9}", true),
    ("*a*b*", "xxaxxaxb", true),
    ("", "x", false),
];

#[test]
fn patterns(rt: HostRuntime) {
    for (pattern, name, matches) in PATTERNS {
        assert_eq!(rt; is_match(pattern, name), matches, "{pattern} {name}");
    }
}

#[test]
fn words_of_bytes(rt: HostRuntime) -> Result<(), Fail> {
    let alloc = rt.alloc();
    for (second, word, line) in ARGUMENTS {
        let words = words_of(&Arguments { second }, alloc)?;
        assert_eq!(rt; words.len(), 2);
        assert_eq!(rt; words[1].as_str(), word);
        assert_eq!(rt; shown(alloc, word)?.as_str(), line);
    }
    Ok(())
}

fn units(rt: &(impl Abort + AllocGlobal)) -> Result<(), Fail> {
    check_cases(rt, &UNITS, &STREAMS)?;
    check_cases(rt, &UNITS, &SETS)
}

fn sets_bit_by_bit(rt: &(impl Abort + AllocGlobal)) -> Result<(), Fail> {
    check_cases(rt, &UNITS, &SETS_0)?;
    check_cases(rt, &UNITS, &SETS_1)?;
    check_cases(rt, &UNITS, &SETS_2)?;
    check_cases(rt, &UNITS, &SETS_3)
}

fn headers(rt: &(impl Abort + AllocGlobal)) -> Result<(), Fail> {
    check_cases(rt, &HEADERS, &PICTURES)?;
    check_cases(rt, &HEADERS, &MARKINGS)
}

fn slice_data(rt: &(impl Abort + AllocGlobal)) -> Result<(), Fail> {
    check_cases(rt, &CHECK, &SLICE_DATA)?;
    check_cases(rt, &CHECK, &SAMPLES)?;
    check_cases(rt, &CHECK, &RULES)
}

fn frames(rt: &(impl Abort + AllocGlobal)) -> Result<(), Fail> {
    check_cases(rt, &FRAMES_OF, &FRAMES)?;
    check_cases(rt, &FRAMES_OF, &COMPUTED)?;
    check_cases(rt, &FRAMES_OF, &CROPPED)
}

fn targets(rt: &(impl Abort + AllocGlobal)) -> Result<(), Fail> {
    check_cases(rt, &CHECK_BASELINE, &FOR_BASELINE)?;
    check_cases(rt, &CHECK_MAIN_IP, &FOR_MAIN_IP)
}

fn fronts(rt: &(impl Abort + AllocGlobal)) -> Result<(), Fail> {
    check_fronts(rt, &UNITS, &FRONTS_AS_UNITS)?;
    check_fronts(rt, &CHECK, &FRONTS_AS_CHECK)
}

#[test]
fn answers(rt: HostRuntime) -> Result<(), Fail> {
    units(&rt)?;
    sets_bit_by_bit(&rt)?;
    headers(&rt)?;
    slice_data(&rt)?;
    frames(&rt)?;
    targets(&rt)?;
    fronts(&rt)
}
