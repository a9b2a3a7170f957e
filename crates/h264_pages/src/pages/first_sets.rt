//! The first parameter sets of a byte stream, wherever they stand in it.
#![tactic(auto)]

use h264_units::NalUnitType;

/// How many bytes of a sequence parameter set are kept. Eight scaling lists of the longest entries take 477 of them (7.3.2.1.1.1), and the other elements up to
/// the size some 30, where no count cycle is long.
const SEQUENCE_BYTES: usize = 512;

/// How many bytes of a picture parameter set are kept. Two ids of 63 bits and entropy_coding_mode_flag take 16 (7.3.2.2).
const PICTURE_BYTES: usize = 16;

/// How many bytes 00 begin a start code (B.1.1).
const CODE_ZEROS: u8 = 2;

/// The byte after them in a start code. With 00 in its place they end a unit too.
const CODE_END: u8 = 1;

/// The byte after two bytes 00 that is no part of a unit's RBSP: emulation_prevention_three_byte (7.3.1).
const EMULATION: u8 = 3;

/// How far the first unit of a type has come.
#[derive(Clone, Copy, PartialEq, Eq)]
enum Progress {
    /// None has begun.
    Sought,
    /// It has begun, and the next byte may be one of its.
    Open,
    /// It has ended, or all that is kept of it is known.
    Closed,
}

/// The first `N` bytes of the RBSP of the first unit of a type.
#[derive(Clone, Copy)]
struct FirstUnit<const N: usize> {
    bytes: [u8; N],
    /// How many of them are known.
    known: usize,
    progress: Progress,
}

impl<const N: usize> FirstUnit<N> {
    /// A unit that has not begun.
    fn new() -> FirstUnit<N> {
        FirstUnit {
            bytes: [0; N],
            known: 0,
            progress: Progress::Sought,
        }
    }

    /// A unit of its type begins, after its header.
    fn begin(&mut self) {
        if self.progress == Progress::Sought {
            self.progress = Progress::Open;
        }
    }

    /// The unit that is open in the stream ends.
    fn end(&mut self) {
        if self.progress == Progress::Open {
            self.progress = Progress::Closed;
        }
    }

    /// Keeps a byte of the RBSP, if there is a place for it.
    fn keep(&mut self, byte: u8) {
        match self.bytes.get_mut(self.known) {
            Some(place) => {
                *place = byte;
                self.known += 1;
            }
            None => self.progress = Progress::Closed,
        }
    }

    /// Notes that so many bytes 00 and this one come next in the unit that is open in the stream.
    fn note(&mut self, zeros: u8, byte: u8) {
        if self.progress != Progress::Open {
            return;
        }
        for _ in 0..zeros {
            self.keep(0);
        }
        if zeros < CODE_ZEROS || byte != EMULATION {
            self.keep(byte);
        }
    }

    /// The bytes that are known. None: the unit has not begun.
    fn rbsp(&self) -> Option<&[u8]> {
        match self.progress {
            Progress::Sought => None,
            Progress::Open | Progress::Closed => self.bytes.get(..self.known),
        }
    }
}

/// The first sequence parameter set and the first picture parameter set of a byte stream, which comes in pieces.
#[derive(Clone, Copy)]
pub struct FirstSets {
    sequence: FirstUnit<SEQUENCE_BYTES>,
    picture: FirstUnit<PICTURE_BYTES>,
    /// How many bytes 00 came last, at most two.
    zeros: u8,
    /// Whether a start code came last, so that the next byte is a unit's header.
    is_at_header: bool,
}

impl FirstSets {
    /// Those of a stream of which no byte came.
    pub fn new() -> FirstSets {
        FirstSets {
            sequence: FirstUnit::new(),
            picture: FirstUnit::new(),
            zeros: 0,
            is_at_header: false,
        }
    }

    /// The first bytes of the RBSP of the sequence parameter set, at most 512. None: none has begun.
    pub fn sequence(&self) -> Option<&[u8]> {
        self.sequence.rbsp()
    }

    /// The first bytes of the RBSP of the picture parameter set, at most 16. None: none has begun.
    pub fn picture(&self) -> Option<&[u8]> {
        self.picture.rbsp()
    }

    /// Notes the next bytes of the stream.
    pub fn note(&mut self, bytes: &[u8]) {
        for byte in bytes {
            if self.is_whole() {
                return;
            }
            self.note_byte(*byte);
        }
    }

    /// Whether all that is kept is known.
    fn is_whole(&self) -> bool {
        self.sequence.progress == Progress::Closed && self.picture.progress == Progress::Closed
    }

    /// Notes the next byte. Bytes 00 are a unit's once another byte shows that they do not end it.
    fn note_byte(&mut self, byte: u8) {
        let zeros = self.zeros;
        self.zeros = if byte == 0 {
            zeros.saturating_add(1).min(CODE_ZEROS)
        } else {
            0
        };
        if zeros == CODE_ZEROS && byte <= CODE_END {
            self.sequence.end();
            self.picture.end();
            self.is_at_header = byte == CODE_END;
        } else if self.is_at_header {
            self.is_at_header = false;
            self.begin(byte);
        } else if byte != 0 {
            self.sequence.note(zeros, byte);
            self.picture.note(zeros, byte);
        }
    }

    /// Notes a unit's header.
    fn begin(&mut self, header: u8) {
        match NalUnitType::of(header) {
            NalUnitType::SequenceSet => self.sequence.begin(),
            NalUnitType::PictureSet => self.picture.begin(),
            _ => {}
        }
    }
}
