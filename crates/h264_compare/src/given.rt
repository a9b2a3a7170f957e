//! The bytes of a reconstruction.
#![tactic(auto)]

ghost use Rattle.std.specs.Prelude.{◌≡◌, ◌≢◌, ℕ, ◌<◌, ◌≤◌, List, ◌∷◌, [], length, take, codes, IfOk, IfErr, OnOk, OnErr};
ghost use Rattle.std.specs.List.{All};
ghost use Rattle.std.specs.Io.KnownBytes.{Consumes, Keeps, IsAtEnd};
ghost use Rattle.h264_lines.specs.Told.{ended};
ghost use Rattle.h264_compare.specs.Given.{EndsAt, IsLine, suits};

use crate::shown::ShownFrame;
use std::io;
use std::io::{ErrorKind, Read};

/// How often a read is tried while it is interrupted.
const TRIES: u32 = 1 << 20;

/// What begins the line before a frame of YUV4MPEG2.
const FRAME: [u8; 5] = *b"FRAME";

/// The most bytes that such a line may have after that.
const MOST_PARAMETERS: u32 = 1 << 16;

/// How the frames of a reconstruction lie in it.
#[derive(Clone, Copy, Debug, PartialEq, Eq)]
pub enum Layout {
    /// One after another.
    Bare,
    /// Each after a line FRAME, as in YUV4MPEG2, where its header has this width and height in luma samples.
    Y4m { width: u64, height: u64 },
}

impl Layout {
    /// Whether frames of this size can stand in it.
    pub fn suits(self, frame: ShownFrame) -> bool
        ensures { result ≡ suits self frame.width frame.height }
    {
        match self {
            Layout::Bare => true,
            Layout::Y4m { width, height } => {
                width == u64::from(frame.width) && height == u64::from(frame.height)
            }
        }
    }
}

/// Why a reconstruction can't be compared any further.
#[derive(Drop, Debug)]
pub enum Lack {
    /// It ends before the frame does.
    TooShort,
    /// It can't be read, by this cause, where the system gives one.
    Unread(Option<io::Error>),
    /// A line FRAME is wanted, and another one stands there.
    NoFrameLine,
    /// Its header names another size than the frame's.
    OtherSize,
}

/// Reads some bytes to the front of a piece. How many: at least 1.
///
/// TooShort: no bytes are left. Unread: the read failed.
pub fn read_some<R: Read>(reader: &mut R, piece: &mut [u8]) -> Result<usize, Lack>
    requires { 0 < length piece.old }
    ensures some { IfOk result (λ n. (0 < n) × (n ≤ length piece.new)) }
    ensures bytes { IfOk result (λ n. Consumes (R.remaining reader.old) (R.remaining reader.new) (take n piece.new)) }
    ensures kept { OnErr result (Keeps (R.remaining reader.old) (R.remaining reader.new)) }
    ensures ended { IfErr result (λ lack. EndsAt lack (R.remaining reader.new)) }
{
    for _ in 0..TRIES {
        match reader.read(piece) {
            Ok(0) => return Err(Lack::TooShort),
            Ok(n) => return Ok(n),
            Err(error) => {
                if error.kind() != ErrorKind::Interrupted {
                    return Err(Lack::Unread(Some(error)));
                }
            }
        }
    }
    Err(Lack::Unread(None))
}

/// Reads one byte.
pub(crate) fn read_byte<R: Read>(reader: &mut R) -> Result<u8, Lack>
    ensures bytes { IfOk result (λ byte. Consumes (R.remaining reader.old) (R.remaining reader.new) (byte ∷ [])) }
    ensures kept { OnErr result (Keeps (R.remaining reader.old) (R.remaining reader.new)) }
    ensures ended { IfErr result (λ lack. EndsAt lack (R.remaining reader.new)) }
{
    let mut piece = [0];
    match read_some(reader, &mut piece) {
        Ok(_) => Ok(piece[0]),
        Err(lack) => Err(lack),
    }
}

/// Passes the word FRAME.
fn pass_word<R: Read>(reader: &mut R) -> Result<(), Lack>
    ensures read { (bytes : List ℕ) × Consumes (R.remaining reader.old) (R.remaining reader.new) bytes × OnOk result (bytes ≡ codes "FRAME") }
    ensures ended { IfErr result (λ lack. EndsAt lack (R.remaining reader.new)) }
{
    for i in 0..FRAME.len() {
        match read_byte(reader) {
            Ok(byte) => {
                if byte != FRAME[i] {
                    return Err(Lack::NoFrameLine);
                }
            }
            Err(lack) => return Err(lack),
        }
    }
    Ok(())
}

/// Passes the rest of a line, with its end.
fn pass_rest<R: Read>(reader: &mut R) -> Result<(), Lack>
    ensures read { (bytes : List ℕ) × Consumes (R.remaining reader.old) (R.remaining reader.new) bytes
        × OnOk result ((parameters : List ℕ) × (bytes ≡ ended parameters) × All (λ byte. byte ≢ 10) parameters) }
    ensures ended { IfErr result (λ lack. EndsAt lack (R.remaining reader.new)) }
{
    for _ in 0..MOST_PARAMETERS {
        match read_byte(reader) {
            Ok(byte) => {
                if byte == b'\n' {
                    return Ok(());
                }
            }
            Err(lack) => return Err(lack),
        }
    }
    Err(Lack::NoFrameLine)
}

/// Passes what stands before a frame.
///
/// TooShort: no bytes are left within it. Unread: a read failed. NoFrameLine: another line stands there, or a longer one.
pub fn pass_line<R: Read>(reader: &mut R, layout: Layout) -> Result<(), Lack>
    ensures read { (line : List ℕ) × Consumes (R.remaining reader.old) (R.remaining reader.new) line × OnOk result (IsLine layout line) }
    ensures ended { IfErr result (λ lack. EndsAt lack (R.remaining reader.new)) }
{
    match layout {
        Layout::Bare => Ok(()),
        Layout::Y4m { .. } => {
            match pass_word(reader) {
                Ok(()) => pass_rest(reader),
                Err(lack) => Err(lack),
            }
        }
    }
}
