//! The samples of a frame, compared with the next bytes of a reconstruction.
#![tactic(auto)]

ghost use Rattle.std.specs.Prelude.{◌≡◌, ℕ, ◌∷◌, true, false, ◌<◌, ◌≤◌, ◌+◌, ◌-◌, ◌^◌, [], length, take, drop, None, Some, IfOk, IfErr, OnErr, IsTrue};
ghost use Rattle.std.specs.Io.KnownBytes.{Consumes, Keeps, IsAtEnd};
ghost use Rattle.h264_dpb.specs.Shown.{fits, width_in, height_in};
ghost use Rattle.h264_lines.specs.Frames.{shown_bytes};
ghost use Rattle.h264_compare.specs.Given.{Compares, EndsAt};
ghost use Rattle.h264_compare.specs.Numbers.{AreNumbersOf};
ghost use Rattle.h264_compare.specs.Compared.{ComparesFrame, ComparesNext, picture_of};
ghost use Rattle.h264_compare.specs.Stands.{stands};

use crate::given::{Lack, Layout, pass_line, read_byte, read_some};
use crate::numbers::Numbers;
use crate::shown::{ShownFrame, shown_frame};
use h264_dpb::Rectangle;
use h264_lines::rows::{part_at, part_count};
use h264_plane::Frame;
use std::io::Read;

/// The most bytes that are read at once.
const PIECE: usize = 4096;

/// A reconstruction that is compared.
#[derive(Drop)]
pub struct Comparison<R: Read + Drop> {
    pub reader: R,
    pub numbers: Numbers,
    piece: [u8; PIECE],
}

/// Samples that were compared with what was read.
#[derive(Clone, Copy)]
struct Matched {
    count: usize,
    differs: bool,
}

/// How the comparison of some samples ended: whether some differ, and what the reconstruction lacks, if it could not be compared with all of them.
#[derive(Drop)]
pub struct Run {
    pub differs: bool,
    pub lack: Option<Lack>,
}

/// The first samples.
fn front(samples: &[u8], n: usize) -> &[u8]
    requires { n ≤ length samples.now }
    ensures { result.now ≡ take n samples.now }
{
    &samples[..n]
}

/// The samples after the first.
fn after(samples: &[u8], n: usize) -> &[u8]
    requires { n ≤ length samples.now }
    ensures { result.now ≡ drop n samples.now }
{
    &samples[n..]
}

/// Reads some bytes to the front of a piece, as many as `most` at most.
fn read_at_most<R: Read>(reader: &mut R, piece: &mut [u8], most: usize) -> Result<usize, Lack>
    requires some { 0 < most }
    requires room { 0 < length piece.old }
    ensures some { IfOk result (λ n. (0 < n) × (n ≤ length piece.new) × (n ≤ most)) }
    ensures bytes { IfOk result (λ n. Consumes (R.remaining reader.old) (R.remaining reader.new) (take n piece.new)) }
    ensures kept { OnErr result (Keeps (R.remaining reader.old) (R.remaining reader.new)) }
    ensures ended { IfErr result (λ lack. EndsAt lack (R.remaining reader.new)) }
{
    if most < piece.len() {
        return read_some(reader, &mut piece[..most]);
    }
    read_some(reader, piece)
}

impl<R: Read + Drop> Comparison<R> {
    /// A comparison of nothing yet.
    pub fn new(reader: R) -> Comparison<R>
        ensures reader { result.reader ≡ reader }
        ensures numbers { AreNumbersOf result.numbers [] }
    {
        Comparison {
            reader,
            numbers: Numbers::default(),
            piece: [0; PIECE],
        }
    }

    /// Compares the first of some samples, which stand at this byte of a frame, with the next bytes.
    fn compare_some(
        &mut self,
        frame: ShownFrame,
        byte: u64,
        samples: &[u8],
    ) -> Result<Matched, Lack>
        requires some { 0 < length samples.now }
        requires small { byte + length samples.now < 2 ^ 40 }
        ensures count { IfOk result (λ m. (0 < m.count) × (m.count ≤ length samples.now)) }
        ensures compares { IfOk result (λ m. Compares frame byte (stands R.remaining self.old) (stands R.remaining self.new) (take m.count samples.now)
            m.differs None) }
        ensures numbers { OnErr result (self.new.numbers ≡ self.old.numbers) }
        ensures kept { OnErr result (Keeps (R.remaining self.old.reader) (R.remaining self.new.reader)) }
        ensures ended { IfErr result (λ lack. EndsAt lack (R.remaining self.new.reader)) }
    {
        match read_at_most(&mut self.reader, &mut self.piece, samples.len()) {
            Ok(count) => {
                let (made, given) = (front(samples, count), front(&self.piece, count));
                let differs = self.numbers.note_run(frame, byte, made, given);
                Ok(Matched { count, differs })
            }
            Err(lack) => Err(lack),
        }
    }

    /// Compares samples, which stand at this byte of a frame, with the next bytes.
    fn compare_part(&mut self, frame: ShownFrame, byte: u64, samples: &[u8]) -> Run
        requires { byte + length samples.now < 2 ^ 40 }
        ensures { Compares frame byte (stands R.remaining self.old) (stands R.remaining self.new) samples.now result.differs result.lack }
    {
        self.numbers.squares.know_range();
        let (mut rest, mut at, mut differs) = (samples, byte, false);
        for _ in 0..samples.len() {
            if rest.is_empty() {
                return Run {
                    differs,
                    lack: None,
                };
            }
            match self.compare_some(frame, at, rest) {
                Ok(matched) => {
                    differs |= matched.differs;
                    at += matched.count as u64;
                    rest = after(rest, matched.count);
                }
                Err(lack) => {
                    return Run {
                        differs,
                        lack: Some(lack),
                    };
                }
            }
        }
        Run {
            differs,
            lack: None,
        }
    }

    /// Compares what is shown of a frame with the next bytes.
    fn compare_shown(&mut self, shown: ShownFrame, frame: &Frame, rectangle: Rectangle) -> Run
        requires inside { IsTrue (fits rectangle frame.now) }
        requires width { shown.width ≡ width_in rectangle frame.now }
        requires height { shown.height ≡ height_in rectangle frame.now }
        ensures { Compares shown 0 (stands R.remaining self.old) (stands R.remaining self.new) (shown_bytes frame.now rectangle) result.differs result.lack }
    {
        self.numbers.squares.know_range();
        let _luma = shown.luma();
        let (mut byte, mut differs) = (0, false);
        for k in 0..part_count(frame, rectangle) {
            let part = part_at(frame, rectangle, k);
            let run = self.compare_part(shown, byte, part);
            differs |= run.differs;
            match run.lack {
                None => byte += part.len() as u64,
                Some(lack) => {
                    return Run {
                        differs,
                        lack: Some(lack),
                    };
                }
            }
        }
        Run {
            differs,
            lack: None,
        }
    }

    /// Passes what stands before a frame, and compares what is shown of the frame with the next bytes.
    fn compare_next(
        &mut self,
        layout: Layout,
        shown: ShownFrame,
        frame: &Frame,
        rectangle: Rectangle,
    ) -> Run
        requires inside { IsTrue (fits rectangle frame.now) }
        requires width { shown.width ≡ width_in rectangle frame.now }
        requires height { shown.height ≡ height_in rectangle frame.now }
        ensures { ComparesNext layout shown (stands R.remaining self.old) (stands R.remaining self.new) (shown_bytes frame.now rectangle) result }
    {
        self.numbers.squares.know_range();
        if !layout.suits(shown) {
            return Run {
                differs: false,
                lack: Some(Lack::OtherSize),
            };
        }
        match pass_line(&mut self.reader, layout) {
            Ok(()) => self.compare_shown(shown, frame, rectangle),
            Err(lack) => Run {
                differs: false,
                lack: Some(lack),
            },
        }
    }

    /// Compares a frame with the next one of the reconstruction: what the reconstruction lacks, if it could not be compared with the whole frame.
    pub fn compare_frame(
        &mut self,
        layout: Layout,
        frame: &Frame,
        rectangle: Rectangle,
    ) -> Option<Lack>
        requires inside { IsTrue (fits rectangle frame.now) }
        requires room { self.old.numbers.frames < 2 ^ 64 - 1 }
        ensures { ComparesFrame layout (stands R.remaining self.old) (stands R.remaining self.new) (picture_of frame.now rectangle) result }
    {
        let shown = shown_frame(self.numbers.frames, frame, rectangle);
        self.numbers.begin(shown);
        let run = self.compare_next(layout, shown, frame, rectangle);
        self.numbers.end(run.differs);
        run.lack
    }

    /// Whether no byte of the reconstruction is left. Where one is, it is read.
    ///
    /// Unread: a read failed.
    pub fn is_at_end(&mut self) -> Result<bool, Lack>
        ensures ended { IfOk result (λ at_end. at_end ≡ true → IsAtEnd (R.remaining self.new.reader)) }
        ensures goes_on { IfOk result (λ at_end. at_end ≡ false → (byte : ℕ) × Consumes (R.remaining self.old.reader) (R.remaining self.new.reader)
            (byte ∷ [])) }
        ensures numbers { self.new.numbers ≡ self.old.numbers }
    {
        match read_byte(&mut self.reader) {
            Ok(_) => Ok(false),
            Err(Lack::TooShort) => Ok(true),
            Err(lack) => Err(lack),
        }
    }
}
