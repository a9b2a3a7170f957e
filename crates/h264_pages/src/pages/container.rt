//! What is kept of an input: its first bytes, which may be those of a container, and its first parameter sets.
#![tactic(auto)]

ghost use Rattle.std.specs.Prelude.{◌≡◌, ◌≤◌, Some, IfSome};
ghost use Rattle.h264_pages.specs.Reasons.{container_name, container_title};
ghost use Rattle.h264_pages.specs.Starts.{stands_at, byte_at, container_of, first_unit, is_hevc_type, is_hevc_at, begins_hevc};

use crate::pages::first_sets::FirstSets;

/// A file that holds streams between other bytes, or another kind of stream.
#[derive(Clone, Copy)]
pub enum Container {
    /// ISO base media: MP4 and MOV.
    Mp4,
    /// Matroska and WebM.
    Mkv,
    /// MPEG-2 transport stream.
    Ts,
    Avi,
    Flv,
}

/// The bytes of a packet of a transport stream (H.222.0, 2.4.3).
const PACKET: usize = 188;

/// How many of an input's first bytes are kept, by which a container is known: a packet, and the first byte of the next.
const FIRST_BYTES: usize = PACKET + 1;

/// The first bytes of an input, and its first parameter sets.
#[derive(Clone, Copy)]
pub struct Start {
    bytes: [u8; FIRST_BYTES],
    /// How many of them are known.
    known: usize,
    sets: FirstSets,
}

/// The byte with which each packet of a transport stream begins.
const SYNC: u8 = 0x47;

/// The second byte of a unit's header in HEVC, of the lowest layer (H.265, 7.3.1.2).
const HEVC_LAYER: u8 = 1;

impl Container {
    /// What it is, for a sentence.
    pub fn title(self) -> &'static str
        ensures { result.now ≡ container_title self }
    {
        match self {
            Container::Mp4 => "an MP4 or MOV file",
            Container::Mkv => "a Matroska or WebM file",
            Container::Ts => "an MPEG-2 transport stream",
            Container::Avi => "an AVI file",
            Container::Flv => "an FLV file",
        }
    }

    /// Its name, which is that of a file's ending.
    pub fn name(self) -> &'static str
        ensures { result.now ≡ container_name self }
    {
        match self {
            Container::Mp4 => "mp4",
            Container::Mkv => "mkv",
            Container::Ts => "ts",
            Container::Avi => "avi",
            Container::Flv => "flv",
        }
    }
}

impl Start {
    /// No bytes.
    pub fn new() -> Start {
        Start {
            bytes: [0; FIRST_BYTES],
            known: 0,
            sets: FirstSets::new(),
        }
    }

    /// Notes further bytes.
    pub fn note(&mut self, bytes: &[u8]) {
        for byte in bytes.iter().take(FIRST_BYTES.saturating_sub(self.known)) {
            self.note_first(*byte);
        }
        self.sets.note(bytes);
    }

    /// Keeps a byte, if there is a place for it.
    fn note_first(&mut self, byte: u8) {
        if let Some(place) = self.bytes.get_mut(self.known) {
            *place = byte;
            self.known += 1;
        }
    }

    /// The first parameter sets.
    pub fn sets(&self) -> &FirstSets {
        &self.sets
    }

    /// The byte at a place; 0 where it is not known.
    fn at(&self, place: usize) -> u8
        ensures { result ≡ byte_at place self.now.bytes }
    {
        self.bytes.get(place).copied().unwrap_or(0)
    }

    /// Whether these bytes stand from a place on.
    fn has(&self, place: usize, text: &[u8]) -> bool
        requires { place ≤ 189 }
        ensures { result ≡ stands_at place text.now self.now.bytes }
    {
        self.bytes[place..].starts_with(text)
    }

    /// The container that they begin.
    #[tactic(auto, unfolding(crate::specs::Starts::container_of))]
    pub fn container(&self) -> Option<Container>
        ensures { result ≡ container_of self.now.bytes }
    {
        if self.has(4, b"ftyp") || self.has(4, b"moov") {
            return Some(Container::Mp4);
        }
        if self.has(0, &[0x1a, 0x45, 0xdf, 0xa3]) {
            return Some(Container::Mkv);
        }
        if self.has(0, b"RIFF") && self.has(8, b"AVI ") {
            return Some(Container::Avi);
        }
        if self.has(0, b"FLV") {
            return Some(Container::Flv);
        }
        if self.at(0) == SYNC && self.at(PACKET) == SYNC {
            return Some(Container::Ts);
        }
        None
    }

    /// The place after the first start code, where one begins the input.
    fn first_unit(&self) -> Option<usize>
        ensures place { result ≡ first_unit self.now.bytes }
        ensures small { IfSome result (λ place. place ≤ 4) }
    {
        if self.has(0, &[0, 0, 0, 1]) {
            return Some(4);
        }
        if self.has(0, &[0, 0, 1]) {
            return Some(3);
        }
        None
    }

    /// Whether a parameter set or a delimiter of HEVC stands at a place.
    fn is_hevc_at(&self, place: usize) -> bool
        requires { place ≤ 4 }
        ensures { result ≡ is_hevc_at (Some place) self.now.bytes }
    {
        is_hevc_type(self.at(place) / 2) && self.at(place + 1) == HEVC_LAYER
    }

    /// Whether they begin a byte stream of HEVC, with a parameter set or a delimiter.
    #[tactic(auto, unfolding(crate::specs::Starts::begins_hevc))]
    pub fn is_hevc(&self) -> bool
        ensures { result ≡ begins_hevc self.now.bytes }
    {
        match self.first_unit() {
            Some(place) => self.is_hevc_at(place),
            None => false,
        }
    }
}

/// Whether a unit of this nal_unit_type is a parameter set or a delimiter of HEVC (H.265, table 7-1).
fn is_hevc_type(kind: u8) -> bool
    ensures { result ≡ is_hevc_type kind }
{
    matches!(kind, 32 | 33 | 34 | 35)
}
